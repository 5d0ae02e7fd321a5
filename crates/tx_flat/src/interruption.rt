//! Interruptions that are taken.
ghost use Rattle.std.specs.Prelude.{◌≡◌, ◌<◌, ℕ, List, IsTrue, None, length};
ghost use Rattle.z_regs.specs.Cpu.{cpu_of};
ghost use Rattle.z_regs.specs.Prefix.{storage_size, is_prefix, absolute_of};
ghost use Rattle.tx_serial.specs.Apply.{apply, interruption_code, new_psw, with_block};
ghost use Rattle.tx_serial.specs.Apply.{with_stored_interruption};
ghost use Rattle.tx_serial.specs.Flat.{bytes_seen};
ghost use Rattle.tx_journal.specs.declared.entries.Entry.TheVariants as entry;
ghost use Rattle.tx_private.specs.Bytes.{function_of};
ghost use Rattle.tx_flat.specs.Slots.{IsApplied};
ghost use Rattle.tx_private.specs.Ready.{IsReady, IsTurned};

use crate::slot::{ApplyFault, Slot};
use tx_private::attempt::Attempt;
use tx_private::copying::is_whole;
use tx_private::storing::store_bytes;
use tx_private::turning::turn;
use z_regs::{Bytes, CpuImage, RunState, Storage, Waiting, load_psw, place_of, psw_of};

/// The real addresses of the length and the code, of the old program status word, of the new one, and of the
/// interruption block.
const IDENTIFICATION: u64 = 0x8c;

const OLD_PSW: u64 = 0x150;

const NEW_PSW: u64 = 0x1d0;

const INTERRUPTION_BLOCK: u64 = 0x1800;

/// The byte at a real address of a CPU with this prefix.
fn byte_at(storage: &Storage, prefix: Option<u32>, address: u64) -> u8
    requires prefix_in { IsTrue (is_prefix prefix) }
    requires inside { address < storage_size }
    requires size { length storage.now ≡ storage_size }
    ensures { result ≡ function_of storage.now (absolute_of prefix address) }
{
    storage.get(place_of(prefix, address))
}

/// Eight bytes from a real address on, where there are as many.
fn eight_at(storage: &Storage, prefix: Option<u32>, address: u64) -> [u8; 8]
    requires prefix_in { IsTrue (is_prefix prefix) }
    requires inside { address < 4096 }
    requires size { length storage.now ≡ storage_size }
    ensures { result ≡ bytes_seen prefix (function_of storage.now) address 8 }
{
    [
        byte_at(storage, prefix, address),
        byte_at(storage, prefix, address + 1),
        byte_at(storage, prefix, address + 2),
        byte_at(storage, prefix, address + 3),
        byte_at(storage, prefix, address + 4),
        byte_at(storage, prefix, address + 5),
        byte_at(storage, prefix, address + 6),
        byte_at(storage, prefix, address + 7),
    ]
}

/// The new program status word.
fn new_status(storage: &Storage, prefix: Option<u32>) -> [u8; 16]
    requires prefix_in { IsTrue (is_prefix prefix) }
    requires size { length storage.now ≡ storage_size }
    ensures { result ≡ bytes_seen prefix (function_of storage.now) new_psw 16 }
{
    let [a, b, c, d, e, f, g, h] = eight_at(storage, prefix, NEW_PSW);
    let [i, j, k, l, m, n, o, p] = eight_at(storage, prefix, NEW_PSW + 8);
    [a, b, c, d, e, f, g, h, i, j, k, l, m, n, o, p]
}

/// The code of the interruption that a CPU has met.
pub(crate) fn code_of(state: RunState) -> u16
    ensures { result ≡ interruption_code state }
{
    match state {
        RunState::Interrupted(code) => code,
        RunState::Running => 0,
        RunState::Halted => 0,
    }
}

/// The block of an interruption is stored, where it has one.
fn store_its_block(storage: &mut Storage, prefix: Option<u32>, block: Option<[u8; 256]>)
    requires prefix_in { IsTrue (is_prefix prefix) }
    requires size { length storage.old ≡ storage_size }
    ensures stored { function_of storage.new ≡ with_block prefix block (function_of storage.old) }
    ensures size { length storage.new ≡ storage_size }
{
    match block {
        Some(bytes) => store_bytes(storage, prefix, INTERRUPTION_BLOCK, &bytes),
        None => {}
    }
}

/// What an interruption stores: the length and the code, the old program status word, and the block.
fn store_interruption(storage: &mut Storage, image: &CpuImage, waiting: Waiting)
    requires { length storage.old ≡ storage_size }
    ensures stored { function_of storage.new
        ≡ with_stored_interruption (cpu_of image.now) waiting (function_of storage.old) }
    ensures size { length storage.new ≡ storage_size }
{
    let code = code_of(image.state);
    let identified = [0, waiting.length, (code / 256) as u8, (code % 256) as u8];
    store_bytes(storage, image.prefix, IDENTIFICATION, &identified);
    let old = psw_of(image);
    store_bytes(storage, image.prefix, OLD_PSW, &old);
    store_its_block(storage, image.prefix, waiting.block);
}

/// The same goes into the copies of storage.
fn follow_interruption(a: &mut Attempt, image: &CpuImage, waiting: Waiting)
    ensures { (old new : List ℕ) → IsTurned None old a.old → length new ≡ storage_size
        → function_of new ≡ with_stored_interruption (cpu_of image.now) waiting (function_of old)
        → IsReady new a.new }
{
    is_whole(&a.seen);
    is_whole(&a.lasting);
    store_interruption(&mut a.seen, image, waiting);
    store_interruption(&mut a.lasting, image, waiting);
}

/// The interruption that a CPU has still to take is taken, where there is one and no block is pending.
pub fn take(work: &mut Attempt, storage: &mut Storage, slot: &mut Slot) -> Result<(), ApplyFault>
    requires size { length storage.old ≡ storage_size }
    requires ready { IsReady storage.old work.old }
    ensures applied { (text : List ℕ) → IsApplied (λ f i. apply f (entry.Interrupt i)) text storage.old storage.new
        slot.old slot.new result }
    ensures ready { IsReady storage.new work.new }
{
    match slot.pending {
        Some(_) => Err(ApplyFault::Misfit),
        None => match slot.waiting {
            None => Err(ApplyFault::Misfit),
            Some(waiting) => {
                turn(work, storage, None);
                store_interruption(storage, &slot.image, waiting);
                follow_interruption(work, &slot.image, waiting);
                let psw = new_status(storage, slot.image.prefix);
                load_psw(&mut slot.image, &psw);
                slot.waiting = None;
                Ok(())
            }
        },
    }
}
