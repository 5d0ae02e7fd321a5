//! One instruction outside transactions.
ghost use Rattle.std.specs.Prelude.{◌≡◌, ℕ, List, Ok, length, None};
ghost use Rattle.std.specs.FinSet.{items};
ghost use Rattle.z_regs.specs.Cpu.{cpu_of};
ghost use Rattle.z_regs.specs.Prefix.{storage_size};
ghost use Rattle.z_effect.specs.After.{AreInside, ranges_of};
ghost use Rattle.tx_serial.specs.Apply.{apply};
ghost use Rattle.tx_serial.specs.Attempt.{at_rest};
ghost use Rattle.tx_serial.specs.Remains.{waiting_with as waits_with};
ghost use Rattle.tx_journal.specs.declared.entries.Entry.TheVariants as entry;
ghost use Rattle.tx_private.specs.Bytes.{function_of};
ghost use Rattle.tx_flat.specs.Outside.{HasStopped, HasEnded, IsPerformed};
ghost use Rattle.tx_private.specs.Shows.{Shows};
ghost use Rattle.tx_flat.specs.Slots.{IsApplied};
ghost use Rattle.tx_private.specs.Ready.{IsReady};
ghost use Rattle.tx_serial.specs.Fate.{Passes};
ghost use Rattle.z_regs.specs.Absolute.{absolute_ranges};

use crate::entries::may_act;
use crate::mending::keep_ranges;
use crate::slot::{ApplyFault, Slot};
use tx_control::Exception;
use tx_control::codes::{FIXED_POINT_DIVIDE, FIXED_POINT_OVERFLOW};
use tx_private::attempt::Attempt;
use tx_private::coming::{Next, coming};
use tx_private::copying::is_whole;
use tx_private::execution::{Completion, execute};
use tx_private::refusals::Admitted;
use tx_private::running::rest;
use z_effect::{exception, interrupt};
use z_instr::format::length_in;
use z_instr::instr::Instr;
use z_instr::lookup::line;
use z_instr::roles::begins;
use z_regs::{CpuImage, Guard, RunState, Storage, Waiting};

/// The interruption that then waits on a CPU with a prefix, behind an instruction of so many bytes.
fn waiting_on(prefix: Option<u32>, length: u8) -> Option<Waiting>
    ensures { result ≡ waits_with prefix length None }
{
    prefix?;
    Some(Waiting {
        length,
        block: None,
    })
}

/// An exception interrupts the program before the instruction has changed anything.
fn stop(slot: &mut Slot, exception: Exception)
    ensures { HasStopped exception slot.old slot.new }
{
    interrupt(&mut slot.image, exception);
    slot.waiting = waiting_on(slot.image.prefix, exception.length);
}

/// An instruction of so many bytes has left this CPU and come to its end: where it was an exception, that
/// interrupts the program.
fn end(slot: &mut Slot, image: CpuImage, completion: Completion, length: u8)
    ensures { HasEnded length completion (cpu_of image) slot.old slot.new }
{
    slot.image = image;
    match completion {
        Completion::Completed => {}
        Completion::Overflowed => {
            slot.image.state = RunState::Interrupted(FIXED_POINT_OVERFLOW);
            slot.waiting = waiting_on(image.prefix, length);
        }
        Completion::Divides => stop(slot, exception(FIXED_POINT_DIVIDE, length)),
        Completion::Aborts(_) => {}
    }
}

/// An instruction that goes is performed. `work` is a run without an instruction, on storage and this CPU.
fn perform(
    work: &mut Attempt,
    storage: &mut Storage,
    slot: &mut Slot,
    instr: &Instr,
    admitted: &Admitted,
)
    requires size { length storage.old ≡ storage_size }
    requires turned { work.old.turned ≡ slot.old.image.prefix }
    requires shown { Shows (function_of storage.old) work.old
        (at_rest (function_of storage.old) (cpu_of slot.old.image)) }
    requires passes { (text : List ℕ) × Passes text
        (at_rest (function_of storage.old) (cpu_of slot.old.image)) instr.now admitted.now.touches }
    requires places { admitted.now.absolute ≡ absolute_ranges slot.old.image.prefix admitted.now.touches }
    ensures performed { IsPerformed instr.now storage.old storage.new slot.old slot.new (Ok tt) }
    ensures ready { IsReady storage.new work.new }
{
    is_whole(&work.seen);
    let completion = execute(instr, &mut work.image, &mut work.seen, 0);
    let image = work.image;
    keep_ranges(work, storage, &admitted.absolute);
    end(slot, image, completion, length_in(line(instr.op).form));
}

/// The next instruction of a CPU outside transactions, or the exception that comes there; a begin that goes
/// does not fit. Nothing changes where the entry does not fit.
pub fn step(
    work: &mut Attempt,
    storage: &mut Storage,
    guard: &Guard,
    slot: &mut Slot,
) -> Result<(), ApplyFault>
    requires size { length storage.old ≡ storage_size }
    requires ready { IsReady storage.old work.old }
    ensures applied { IsApplied (λ f i. apply f (entry.Step i)) (items guard.now) storage.old storage.new
        slot.old slot.new result }
    ensures ready { IsReady storage.new work.new }
{
    if !may_act(slot) {
        return Err(ApplyFault::Misfit);
    }
    rest(work, storage, &slot.image);
    match coming(work, guard) {
        Next::Ends(_) => Err(ApplyFault::Misfit),
        Next::Stops(exception) => {
            stop(slot, exception);
            Ok(())
        }
        Next::Goes(instr, admitted) => {
            if begins(instr.op) {
                return Err(ApplyFault::Misfit);
            }
            perform(work, storage, slot, &instr, &admitted);
            Ok(())
        }
    }
}
