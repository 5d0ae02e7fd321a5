//! Attempts that are aborted, and what they leave.
ghost use Rattle.std.specs.Prelude.{◌≡◌, ◌<◌, ◌+◌, length};
ghost use Rattle.std.specs.FinSet.{items};
ghost use Rattle.z_regs.specs.Cpu.{cpu_of};
ghost use Rattle.z_regs.specs.Prefix.{storage_size};
ghost use Rattle.tx_journal.specs.declared.entries.Entry.TheVariants as entry;
ghost use Rattle.tx_serial.specs.Apply.{apply};
ghost use Rattle.tx_serial.specs.Remains.{pending_after, waiting_after as waits_after};
ghost use Rattle.tx_serial.specs.Room.{HasRoom};
ghost use Rattle.tx_flat.specs.Left.{told_by, resumed_by, cpu_left, pending_left, waiting_left};
ghost use Rattle.tx_flat.specs.Slots.{IsApplied, pending_of};
ghost use Rattle.tx_private.specs.Ready.{IsReady};

use crate::entries::may_act;
use crate::mending::{forget_plain_stores, give_up, keep_stored};
use crate::slot::{ApplyFault, Block, Slot};
use tx_abort::{block_of, condition_of, restore};
use tx_control::Why;
use tx_private::attempt::{Attempt, Mark};
use tx_private::ending::fits;
use tx_private::refusals::constrains;
use tx_private::running::run;
use z_regs::{CpuImage, Guard, RunState, Storage, Waiting};

/// After how many instructions an attempt ended, and by which cause.
#[derive(Clone, Copy)]
pub struct Ended {
    pub count: u32,
    pub why: Why,
}

/// The bit of an interruption code that tells of an aborted transaction.
const ABORTED_BIT: u16 = 0x0200;

/// The address that the diagnostic block tells: of the last instruction where that ended in a fixed-point
/// overflow exception, else of the next one, which has not completed.
fn told(a: &Attempt) -> u64
    ensures { result ≡ told_by a.now }
{
    match a.mark {
        Mark::Open => a.image.address,
        Mark::Committed => a.image.address,
        Mark::Overflowed => a.last.at,
        Mark::Missing => a.image.address,
    }
}

/// Where the program goes on: behind TBEGIN, or at TBEGINC again.
fn resumed(a: &Attempt) -> u64
    requires { a.now.begin.at < storage_size }
    ensures { result ≡ resumed_by a.now }
{
    if constrains(&a.nest) {
        a.begin.at
    } else {
        a.begin.at + u64::from(a.begin.length)
    }
}

/// The CPU: the register pairs that the outermost begin saves have the values that they had before it.
fn leave(saved: &CpuImage, a: &Attempt, why: Why) -> CpuImage
    requires begun { 0 < length a.now.nest }
    requires inside { a.now.begin.at < storage_size }
    requires room { HasRoom why }
    ensures { cpu_of result ≡ cpu_left a.now (cpu_of saved.now) why }
{
    let mut image = a.image;
    restore(&mut image, &saved.general, a.nest.mask());
    image.address = resumed(a);
    image.condition = condition_of(why);
    if let Why::Program(e) = why {
        image.state = RunState::Interrupted(e.code + ABORTED_BIT);
    }
    image
}

/// The block becomes pending, where the outermost begin names an address for it.
fn pending_at(address: Option<u64>, bytes: [u8; 256]) -> Option<Block>
    ensures { pending_of result ≡ pending_after address bytes }
{
    let address = address?;
    Some(Block { address, bytes })
}

/// The interruption of an exception that is not filtered waits on a CPU with a prefix, with its block.
fn waiting_after(prefix: Option<u32>, block: [u8; 256], why: Why) -> Option<Waiting>
    ensures { result ≡ waits_after prefix block why }
{
    let Why::Program(e) = why else {
        return None;
    };
    prefix?;
    Some(Waiting {
        length: e.length,
        block: Some(block),
    })
}

/// All that an abort by this cause leaves of a CPU, which was `saved` before the attempt.
fn left(saved: &CpuImage, a: &Attempt, why: Why) -> Slot
    requires begun { 0 < length a.now.nest }
    requires inside { a.now.begin.at < storage_size }
    requires room { HasRoom why }
    ensures cpu { cpu_of result.image ≡ cpu_left a.now (cpu_of saved.now) why }
    ensures pending { pending_of result.pending ≡ pending_left a.now why }
    ensures waiting { result.waiting ≡ waiting_left a.now why }
{
    let block = block_of(why, &a.nest, &a.image, told(a));
    Slot {
        image: leave(saved, a, why),
        pending: pending_at(a.nest.block(), block),
        waiting: waiting_after(a.image.prefix, block, why),
    }
}

/// A transaction is aborted by this cause after so many instructions, where it may be. Of its stores those
/// of NTSTG stay. Nothing changes where it may not be.
pub fn abort(
    work: &mut Attempt,
    storage: &mut Storage,
    guard: &Guard,
    slot: &mut Slot,
    ended: Ended,
) -> Result<(), ApplyFault>
    requires size { length storage.old ≡ storage_size }
    requires ready { IsReady storage.old work.old }
    ensures applied { IsApplied (λ f i. apply f (entry.Abort i ended.count ended.why)) (items guard.now)
        storage.old storage.new slot.old slot.new result }
    ensures ready { IsReady storage.new work.new }
{
    if !may_act(slot) {
        return Err(ApplyFault::Misfit);
    }
    let Ended { count, why } = ended;
    if count == 0 {
        return Err(ApplyFault::Misfit);
    }
    run(work, storage, &slot.image, guard, count);
    if !fits(work, guard, why) {
        give_up(work, storage);
        return Err(ApplyFault::Misfit);
    }
    let new = left(&slot.image, work, why);
    forget_plain_stores(work);
    keep_stored(work, storage);
    *slot = new;
    Ok(())
}
