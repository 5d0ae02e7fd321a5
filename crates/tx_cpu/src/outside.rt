//! What an instruction outside transactions leaves and tells.
ghost use Rattle.std.specs.Prelude.{◌≡◌, [], take, All, IsTrue, length, false, None};
ghost use Rattle.z_regs.specs.Cpu.{Cpu};
ghost use Rattle.z_regs.specs.Cpu.{cpu_of};
ghost use Rattle.z_regs.specs.Prefix.{is_prefix, storage_size};
ghost use Rattle.z_regs.specs.Absolute.{IsAccessible};
ghost use Rattle.z_effect.specs.Interrupted.{cpu_outside};
ghost use Rattle.tx_serial.specs.Fate.{operands};
ghost use Rattle.tx_progress.specs.Progress.{resting};
ghost use Rattle.tx_progress.specs.Trial.{outcome_by};
ghost use Rattle.tx_progress.specs.Doing.{told_of};
ghost use Rattle.z_effect.specs.TransactionEffect.{delay_given};
ghost use Rattle.z_instr.specs.Roles.{is_assist as asks_for_time};
ghost use Rattle.z_instr.specs.Table.{kind_at};
ghost use Rattle.tx_attempt.specs.Storages.{storage_of};
ghost use Rattle.tx_attempt.specs.Performed.{outcome_from, first_size, is_transaction, StoresFirst, StoresNone, IsKeptApart};
ghost use Rattle.tx_attempt.specs.Performed.{waiting_outside as waits_outside, storage_outside, IsLeftOutside};
ghost use Rattle.tx_attempt.specs.Tracked.{Tracked, progress};
ghost use Rattle.tx_cpu.specs.Going.{IsSeenThere};

use crate::interruption::waiting_with;
use tx_attempt::{Attempt, Ended, MOST_BYTES, execute_plain, perform, put_stored, transaction_of};
use tx_control::codes::{FIXED_POINT_DIVIDE, FIXED_POINT_OVERFLOW};
use tx_progress::done::Done;
use z_effect::{delay, exception, interrupt};
use z_instr::instr::Instr;
use z_instr::kind::{Kind, Transaction};
use z_regs::{Bytes, CpuImage, RunState, Touches, Waiting};

/// Whether an operation of this kind asks for time between attempts.
fn is_assist(kind: &Kind) -> bool
    ensures { result ≡ asks_for_time kind.now }
{
    matches!(kind, Kind::Transaction(Transaction::Assist))
}

/// How many turns the program waits after the instruction.
pub fn delay_after(kind: &Kind, instr: &Instr, image: &CpuImage) -> u32
    requires { kind.now ≡ kind_at instr.now.op.number }
    ensures { result ≡ delay_given instr.now (cpu_of image.now) }
{
    if is_assist(kind) {
        delay(instr, image)
    } else {
        0
    }
}

/// What is told of a CPU that an instruction has left so.
#[inline(always)]
pub fn told(state: RunState, turns: u32) -> Done
    ensures { result ≡ told_of state turns }
{
    match state {
        RunState::Interrupted(code) => Done::Interrupted(code),
        RunState::Running | RunState::Halted => {
            if turns > 0 {
                Done::Paused(turns)
            } else {
                Done::Stepped
            }
        }
    }
}

/// The CPU after an instruction of so many bytes, of which more may have come than that it is completed.
#[cold]
#[inline(never)]
fn interrupt_outside(image: &mut CpuImage, ended: Ended, length: u8)
    ensures { cpu_of image.new ≡
        cpu_outside length (cpu_of image.old) (outcome_from ended (cpu_of image.old) []) }
{
    match ended {
        Ended::Completed => {}
        Ended::Exceeded => image.state = RunState::Interrupted(FIXED_POINT_OVERFLOW),
        Ended::Suppressed => interrupt(image, exception(FIXED_POINT_DIVIDE, length)),
        Ended::Aborting(_) => {}
    }
}

/// The CPU is interrupted where the instruction, of so many bytes, has ended by an exception.
#[inline(always)]
pub fn end_outside(image: &mut CpuImage, ended: Ended, length: u8)
    ensures { cpu_of image.new ≡
        cpu_outside length (cpu_of image.old) (outcome_from ended (cpu_of image.old) []) }
{
    match ended {
        Ended::Completed => {}
        _ => interrupt_outside(image, ended, length),
    }
}

/// The interruption that waits after an instruction of which more may have come than that it is completed.
#[cold]
#[inline(never)]
fn wait_with(waiting: &mut Option<Waiting>, prefix: Option<u32>, length: u8, ended: Ended)
    ensures { waiting.new ≡ waits_outside prefix length ended waiting.old }
{
    match ended {
        Ended::Completed => {}
        Ended::Exceeded => *waiting = waiting_with(prefix, length, None),
        Ended::Suppressed => *waiting = waiting_with(prefix, length, None),
        Ended::Aborting(_) => {}
    }
}

/// An interruption waits from now on where the instruction has ended by an exception.
#[inline(always)]
pub fn wait_outside(waiting: &mut Option<Waiting>, prefix: Option<u32>, length: u8, ended: Ended)
    ensures { waiting.new ≡ waits_outside prefix length ended waiting.old }
{
    match ended {
        Ended::Completed => {}
        _ => wait_with(waiting, prefix, length, ended),
    }
}

/// Stores what the instruction stores; nothing where it is suppressed.
fn store_outside<V: Bytes>(
    need: &Touches,
    ended: Ended,
    stored: &[u8; MOST_BYTES],
    prefix: Option<u32>,
    base: &mut V,
)
    requires prefix_in { IsTrue (is_prefix prefix) }
    requires first { StoresFirst need.now }
    requires accessible { All (IsAccessible prefix) need.now }
    requires size { length (V.bytes base.old) ≡ storage_size }
    ensures value { storage_of (V.bytes base.new) ≡ storage_outside prefix need.now ended
        (take (first_size need.now) stored.now) (storage_of (V.bytes base.old)) }
    ensures size { length (V.bytes base.new) ≡ storage_size }
{
    match ended {
        Ended::Completed => put_stored(need, stored, prefix, base),
        Ended::Exceeded => put_stored(need, stored, prefix, base),
        Ended::Suppressed => {}
        Ended::Aborting(_) => {}
    }
}

/// Performs an instruction on the bytes of its operands, and then stores what it stores.
fn perform_apart<V: Bytes>(
    attempt: &Attempt,
    kind: &Kind,
    instr: &Instr,
    need: &Touches,
    image: &mut CpuImage,
    base: &mut V,
) -> Ended
    requires rests { (c : Cpu) → progress attempt.now c ≡ resting c }
    requires kind { kind.now ≡ kind_at instr.now.op.number }
    requires need { need.now ≡ operands instr.now (cpu_of image.old) }
    requires accessible { All (IsAccessible image.old.prefix) need.now }
    requires size { length (V.bytes base.old) ≡ storage_size }
    ensures left { IsLeftOutside need.now (cpu_of image.old) (cpu_of image.new) (V.bytes base.old)
        (V.bytes base.new) result (outcome_by (storage_of (V.bytes base.old)) instr.now need.now
        (resting (cpu_of image.old))) }
    ensures size { length (V.bytes base.new) ≡ storage_size }
{
    let prefix = image.prefix;
    let mut stored = [0; MOST_BYTES];
    let ended = perform(attempt, kind, instr, need, image, &mut stored, base);
    store_outside(need, ended, &stored, prefix, base);
    ended
}

/// Performs an instruction that is not about transactions on storage as it is, for a CPU without a prefix: outside
/// transactions, or where its attempt sees the operands so and nothing is stored into them.
#[inline(always)]
pub fn perform_there<V: Bytes>(
    kind: &Kind,
    instr: &Instr,
    need: &Touches,
    image: &mut CpuImage,
    base: &mut V,
) -> Ended
    requires kind { kind.now ≡ kind_at instr.now.op.number }
    requires plain { is_transaction (kind_at instr.now.op.number) ≡ false }
    requires none { image.old.prefix ≡ None }
    requires need { need.now ≡ operands instr.now (cpu_of image.old) }
    requires accessible { All (IsAccessible image.old.prefix) need.now }
    requires size { length (V.bytes base.old) ≡ storage_size }
    ensures outside { IsLeftOutside need.now (cpu_of image.old) (cpu_of image.new) (V.bytes base.old)
        (V.bytes base.new) result (outcome_by (storage_of (V.bytes base.old)) instr.now need.now
        (resting (cpu_of image.old))) }
    ensures inside { (t : Tracked) → IsSeenThere (progress t (cpu_of image.old)) need.now
        → IsKeptApart (outcome_by (storage_of (V.bytes base.old)) instr.now need.now
        (progress t (cpu_of image.old))) (first_size need.now) (cpu_of image.old) (cpu_of image.new) [] result }
    ensures same { StoresNone need.now → V.bytes base.new ≡ V.bytes base.old }
    ensures size { length (V.bytes base.new) ≡ storage_size }
{
    execute_plain(kind, instr, need, image, base)
}

/// Performs an instruction outside transactions and stores what it stores. A CPU without a prefix sees storage
/// as it is, so there the instruction is executed on storage itself.
#[inline(always)]
pub fn perform_outside<V: Bytes>(
    attempt: &Attempt,
    kind: &Kind,
    instr: &Instr,
    need: &Touches,
    image: &mut CpuImage,
    base: &mut V,
) -> Ended
    requires rests { (c : Cpu) → progress attempt.now c ≡ resting c }
    requires kind { kind.now ≡ kind_at instr.now.op.number }
    requires need { need.now ≡ operands instr.now (cpu_of image.old) }
    requires accessible { All (IsAccessible image.old.prefix) need.now }
    requires size { length (V.bytes base.old) ≡ storage_size }
    ensures left { IsLeftOutside need.now (cpu_of image.old) (cpu_of image.new) (V.bytes base.old)
        (V.bytes base.new) result (outcome_by (storage_of (V.bytes base.old)) instr.now need.now
        (resting (cpu_of image.old))) }
    ensures size { length (V.bytes base.new) ≡ storage_size }
{
    if image.prefix.is_some() || transaction_of(kind).is_some() {
        return perform_apart(attempt, kind, instr, need, image, base);
    }
    perform_there(kind, instr, need, image, base)
}
