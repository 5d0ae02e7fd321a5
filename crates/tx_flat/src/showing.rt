//! Private runs that are open, as they show themselves.
ghost use Rattle.std.specs.Prelude.{◌≡◌, ◌≢◌, ℕ, IfOk, IfSome, IfNone, length};
ghost use Rattle.std.specs.FinSet.{items};
ghost use Rattle.z_regs.specs.Cpu.{cpu_of};
ghost use Rattle.z_regs.specs.Prefix.{storage_size};
ghost use Rattle.tx_serial.specs.Attempt as run;
ghost use Rattle.tx_serial.specs.Attempt.{Run};
ghost use Rattle.tx_serial.specs.Flat.{FlatState, Storage as Bytes};
ghost use Rattle.tx_serial.specs.Run.{run as run_of};
ghost use Rattle.tx_private.specs.Bytes.{function_of};
ghost use Rattle.tx_flat.specs.Open.{IsOpen};
ghost use Rattle.tx_private.specs.Shows.{IsRun};

use std::alloc::Global;
use tx_private::attempt::{Attempt, Mark};
use tx_private::running::run_apart;
use z_regs::{CpuImage, Guard, NoMemory, Storage};

/// A run that is open: the CPU as its program sees it, and how many begins are open.
#[derive(Clone, Copy)]
pub struct OpenRun {
    pub image: CpuImage,
    pub depth: u32,
}

/// A run as it shows itself, where it is open.
fn shown(a: &Attempt) -> Option<OpenRun>
    ensures open { IfSome result (λ r. (base : Bytes) (p : Run) → IsRun base a.now p
        → IsOpen p (cpu_of r.image) r.depth) }
    ensures none { IfNone result ((base : Bytes) (p : Run) → IsRun base a.now p → p.mark ≢ run.Open) }
{
    match a.mark {
        Mark::Open => Some(OpenRun {
            image: a.image,
            depth: a.nest.depth(),
        }),
        Mark::Committed => None,
        Mark::Overflowed => None,
        Mark::Missing => None,
    }
}

/// The run of so many instructions of a CPU alone, None exactly where it is not open. `guard` has the text pages.
/// `NoMemory` comes for want of memory.
pub fn open_run(
    alloc: Global,
    storage: &Storage,
    image: &CpuImage,
    guard: &Guard,
    n: u32,
) -> Result<Option<OpenRun>, NoMemory>
    requires { length storage.now ≡ storage_size }
    ensures open { IfOk result (λ o. IfSome o (λ r. (f : FlatState) (i : ℕ) → f.storage ≡ function_of storage.now
        → f.text ≡ items guard.now → f.cpus i ≡ cpu_of image.now
        → IsOpen (run_of f i n) (cpu_of r.image) r.depth)) }
    ensures none { IfOk result (λ o. IfNone o ((f : FlatState) (i : ℕ) → f.storage ≡ function_of storage.now
        → f.text ≡ items guard.now → f.cpus i ≡ cpu_of image.now → (run_of f i n).mark ≢ run.Open)) }
{
    let a = run_apart(alloc, storage, image, guard, n)?;
    Ok(shown(&a))
}
