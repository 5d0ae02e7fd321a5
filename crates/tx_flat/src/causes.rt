//! The cause by which an attempt ends by itself, from storage and its CPU alone.
ghost use Rattle.std.specs.Prelude.{◌≡◌, ◌≢◌, ◌↔◌, ℕ, IsTrue, length};
ghost use Rattle.std.specs.FinSet.{items};
ghost use Rattle.z_regs.specs.Cpu.{cpu_of};
ghost use Rattle.z_regs.specs.Prefix.{storage_size, is_prefix};
ghost use Rattle.tx_serial.specs.Ending.{ending as ending_of};
ghost use Rattle.tx_serial.specs.Flat.{FlatState};
ghost use Rattle.tx_serial.specs.Run.{run as run_of};
ghost use Rattle.tx_private.specs.Bytes.{function_of};
ghost use Rattle.tx_private.specs.Ready.{IsReady};
ghost use Rattle.tx_flat.specs.Near.{Near};
ghost use Rattle.tx_private.specs.Shows.{mark_of};
ghost use Rattle.tx_serial.specs.Attempt.{Missing};
ghost use Rattle.tx_footprint.specs.Touched.{sets_of};

use crate::mending::{give_up, restore};
use tx_control::Why;
use tx_private::attempt::{Attempt, Mark};
use tx_private::ending::ending;
use tx_private::running::run;
use z_regs::{CpuImage, Guard, Storage};

/// Whether there is no run of so many instructions.
fn is_missing(mark: Mark) -> bool
    ensures { IsTrue result ↔ (mark_of mark ≡ Missing) }
{
    matches!(mark, Mark::Missing)
}

/// The copies are storage again behind a run, which differs from it in lines alone that were stored, where there
/// is such a run.
fn settle(work: &mut Attempt, storage: &Storage)
    requires prefix_in { IsTrue (is_prefix work.old.turned) }
    requires seen { mark_of work.old.mark ≢ Missing
        → Near work.old.turned (sets_of work.old.footprint).stored storage.now work.old.seen }
    requires lasting { mark_of work.old.mark ≢ Missing
        → Near work.old.turned (sets_of work.old.footprint).stored storage.now work.old.lasting }
    ensures { IsReady storage.now work.new }
{
    if is_missing(work.mark) {
        give_up(work, storage);
    } else {
        restore(work, storage);
    }
}

/// The cause by which the attempt of so many instructions of a CPU ends by itself, where there is one. `guard`
/// has the text pages. The copies in `work` stay storage.
pub fn own_cause(
    work: &mut Attempt,
    storage: &Storage,
    image: &CpuImage,
    guard: &Guard,
    n: u32,
) -> Option<Why>
    requires size { length storage.now ≡ storage_size }
    requires ready { IsReady storage.now work.old }
    ensures value { (f : FlatState) (i : ℕ) → f.storage ≡ function_of storage.now
        → f.text ≡ items guard.now → f.cpus i ≡ cpu_of image.now
        → result ≡ ending_of f.text (run_of f i n) }
    ensures ready { IsReady storage.now work.new }
{
    run(work, storage, image, guard, n);
    let why = ending(work, guard);
    settle(work, storage);
    why
}
