//! An entry applied to storage and the CPU whose it is.
ghost use Rattle.std.specs.Prelude.{◌≡◌, ◌≤◌, ◌+◌, Some, length};
ghost use Rattle.std.specs.FinSet.{items};
ghost use Rattle.z_regs.specs.Prefix.{storage_size};
ghost use Rattle.tx_serial.specs.Apply.{apply};
ghost use Rattle.tx_flat.specs.Machine.{of_cpu};
ghost use Rattle.tx_private.specs.Ready.{IsReady};
ghost use Rattle.tx_flat.specs.Slots.{IsApplied};
ghost use Rattle.tx_flat.specs.declared.slot.Block.{Block};

use crate::abort::{Ended, abort};
use crate::entries::{commit, store_block};
use crate::interruption::take;
use crate::outside::step;
use crate::slot::{ApplyFault, Slot};
use tx_journal::Entry;
use tx_private::attempt::Attempt;
use z_regs::{Guard, Storage};

/// An entry of the CPU whose slot this is; its number is not looked at. A block that is pending lies in
/// storage.
pub fn apply_to(
    work: &mut Attempt,
    storage: &mut Storage,
    guard: &Guard,
    slot: &mut Slot,
    entry: Entry,
) -> Result<(), ApplyFault>
    requires size { length storage.old ≡ storage_size }
    requires ready { IsReady storage.old work.old }
    requires placed { (b : Block) → slot.old.pending ≡ Some b → b.address + 256 ≤ storage_size }
    ensures applied { IsApplied (λ f i. apply f (of_cpu entry i)) (items guard.now) storage.old storage.new slot.old
        slot.new result }
    ensures ready { IsReady storage.new work.new }
{
    match entry {
        Entry::Step(_) => step(work, storage, guard, slot),
        Entry::Commit(_, n) => commit(work, storage, guard, slot, n),
        Entry::Abort(_, n, why) => {
            let ended = Ended { count: n, why };
            abort(work, storage, guard, slot, ended)
        }
        Entry::Tdb(_) => store_block(work, storage, slot),
        Entry::Interrupt(_) => take(work, storage, slot),
    }
}
