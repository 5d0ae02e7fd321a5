//! Entries of one CPU applied to storage.
ghost use Rattle.std.specs.Prelude.{◌≡◌, ◌≤◌, ◌+◌, ℕ, List, Some, length};
ghost use Rattle.std.specs.FinSet.{items};
ghost use Rattle.z_regs.specs.Cpu.{cpu_of};
ghost use Rattle.z_regs.specs.Prefix.{storage_size};
ghost use Rattle.tx_serial.specs.Apply.{apply};
ghost use Rattle.tx_journal.specs.declared.entries.Entry.TheVariants as entry;
ghost use Rattle.tx_flat.specs.Slots.{IsApplied, acts, commits, pending_of};
ghost use Rattle.tx_flat.specs.declared.slot.Block.{Block};
ghost use Rattle.tx_private.specs.Shows.{mark_of};
ghost use Rattle.tx_private.specs.Ready.{IsReady};

use crate::mending::{follow_bytes, give_up, keep_stored};
use crate::slot::{ApplyFault, Slot};
use tx_private::attempt::{Attempt, Mark};
use tx_private::running::run;
use tx_private::storing::store_bytes;
use tx_private::turning::turn;
use z_regs::{Guard, RunState, Storage};

/// Whether a CPU runs, and nothing is pending for it.
pub(crate) fn may_act(slot: &Slot) -> bool
    ensures { result ≡ acts (cpu_of slot.now.image).state (pending_of slot.now.pending) }
{
    matches!(slot.image.state, RunState::Running) && slot.pending.is_none()
}

/// Whether a transaction is committed.
fn is_committed(mark: Mark) -> bool
    ensures { result ≡ commits (mark_of mark) }
{
    matches!(mark, Mark::Committed)
}

/// A transaction of so many instructions is committed, where it is. Nothing changes where it is not.
pub fn commit(
    work: &mut Attempt,
    storage: &mut Storage,
    guard: &Guard,
    slot: &mut Slot,
    n: u32,
) -> Result<(), ApplyFault>
    requires size { length storage.old ≡ storage_size }
    requires ready { IsReady storage.old work.old }
    ensures applied { IsApplied (λ f i. apply f (entry.Commit i n)) (items guard.now) storage.old storage.new
        slot.old slot.new result }
    ensures ready { IsReady storage.new work.new }
{
    if !may_act(slot) {
        return Err(ApplyFault::Misfit);
    }
    run(work, storage, &slot.image, guard, n);
    if !is_committed(work.mark) {
        give_up(work, storage);
        return Err(ApplyFault::Misfit);
    }
    let image = work.image;
    keep_stored(work, storage);
    slot.image = image;
    Ok(())
}

/// The block that is pending is stored, where there is one.
pub fn store_block(
    work: &mut Attempt,
    storage: &mut Storage,
    slot: &mut Slot,
) -> Result<(), ApplyFault>
    requires size { length storage.old ≡ storage_size }
    requires ready { IsReady storage.old work.old }
    requires placed { (b : Block) → slot.old.pending ≡ Some b → b.address + 256 ≤ storage_size }
    ensures applied { (text : List ℕ) → IsApplied (λ f i. apply f (entry.Tdb i)) text storage.old storage.new
        slot.old slot.new result }
    ensures ready { IsReady storage.new work.new }
{
    let Some(block) = slot.pending else {
        return Err(ApplyFault::Misfit);
    };
    turn(work, storage, None);
    store_bytes(storage, slot.image.prefix, block.address, &block.bytes);
    follow_bytes(work, slot.image.prefix, block.address, &block.bytes);
    slot.pending = None;
    Ok(())
}
