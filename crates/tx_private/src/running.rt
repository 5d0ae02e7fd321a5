//! Private runs of so many instructions.
ghost use Rattle.std.specs.Prelude.{◌≡◌, ◌≤◌, ℕ, List, [], Option, IfOk, length};
ghost use Rattle.std.specs.FinSet.{items};
ghost use Rattle.z_regs.specs.Cpu.{cpu_of};
ghost use Rattle.z_regs.specs.Prefix.{storage_size};
ghost use Rattle.tx_serial.specs.Attempt.{at_rest};
ghost use Rattle.tx_serial.specs.Flat.{FlatState};
ghost use Rattle.tx_serial.specs.Run.{run as run_of};
ghost use Rattle.tx_private.specs.Bytes.{function_of};
ghost use Rattle.z_regs.specs.Seen.{seen_by};
ghost use Rattle.tx_private.specs.Ready.{IsReady, IsTurned};
ghost use Rattle.tx_private.specs.Shows.{Shows, IsRun, IsRunOf};

use crate::advance::advance;
use crate::attempt::{Attempt, Mark, Told};
use crate::known::Readings;
use crate::turning::turn;
use std::alloc::Global;
use tx_constraint::Constraint;
use tx_control::Nest;
use tx_footprint::Footprint;
use z_regs::{CpuImage, Guard, NoMemory, Storage};

/// No instruction.
const NOWHERE: Told = Told { at: 0, length: 0 };

/// Copies of storage to run on, and no instruction yet.
pub fn fresh(alloc: Global, storage: &Storage, readings: Readings) -> Result<Attempt, NoMemory>
    requires { length storage.now ≡ storage_size }
    ensures { IfOk result (λ a. IsReady storage.now a) }
{
    let seen = Storage::open(alloc, storage.as_slice())?;
    let lasting = Storage::open(alloc, storage.as_slice())?;
    let trial = Storage::open(alloc, storage.as_slice())?;
    let footprint = Footprint::open(alloc)?;
    Ok(Attempt {
        image: CpuImage::entering(0),
        seen,
        lasting,
        turned: None,
        trial,
        readings,
        nest: Nest::none(),
        footprint,
        constraint: Constraint::begin(0),
        begin: NOWHERE,
        last: NOWHERE,
        mark: Mark::Open,
    })
}

/// No begin is open.
fn close_all(nest: &mut Nest)
    ensures { nest.new ≡ [] }
{
    if nest.depth() > 0 {
        *nest = Nest::none();
    }
}

/// No instruction of this CPU yet.
fn restart(a: &mut Attempt, image: &CpuImage)
    ensures rests { (bytes : List ℕ) → length bytes ≡ storage_size → IsTurned image.now.prefix bytes a.old
        → Shows (function_of bytes) a.new (at_rest (function_of bytes) (cpu_of image.now)) }
    ensures turned { (prefix : Option ℕ) (bytes : List ℕ) → IsTurned prefix bytes a.old
        → IsTurned prefix bytes a.new }
{
    a.image = *image;
    close_all(&mut a.nest);
    a.footprint.clear();
    a.constraint = Constraint::begin(0);
    a.begin = NOWHERE;
    a.last = NOWHERE;
    a.mark = Mark::Open;
}

/// No instruction of a CPU yet, on the copies of storage.
pub fn rest(a: &mut Attempt, storage: &Storage, image: &CpuImage)
    requires size { length storage.now ≡ storage_size }
    requires ready { IsReady storage.now a.old }
    ensures shown { Shows (function_of storage.now) a.new
        (at_rest (function_of storage.now) (cpu_of image.now)) }
    ensures turned { a.new.turned ≡ image.now.prefix }
    ensures ready { IsReady storage.now a.new }
{
    turn(a, storage, image.prefix);
    restart(a, image);
}

/// The run of so many instructions of a CPU alone, on the copies of storage. `guard` has the text pages.
pub fn run(a: &mut Attempt, storage: &Storage, image: &CpuImage, guard: &Guard, n: u32)
    requires size { length storage.now ≡ storage_size }
    requires ready { IsReady storage.now a.old }
    ensures run { IsRunOf storage.now (items guard.now) (cpu_of image.now) n a.new }
    ensures turned { a.new.turned ≡ image.now.prefix }
{
    rest(a, storage, image);
    for _k in 0..n {
        advance(a, guard);
    }
}

/// The run of so many instructions of a CPU alone, on copies of its own.
pub fn run_apart(
    alloc: Global,
    storage: &Storage,
    image: &CpuImage,
    guard: &Guard,
    n: u32,
) -> Result<Attempt, NoMemory>
    requires { length storage.now ≡ storage_size }
    ensures { IfOk result (λ a. IsRunOf storage.now (items guard.now) (cpu_of image.now) n a) }
{
    let mut a = fresh(alloc, storage, Readings::none(alloc))?;
    run(&mut a, storage, image, guard, n);
    Ok(a)
}
