//! What comes of the next instruction.
ghost use Rattle.std.specs.Prelude.{◌≡◌, length, Some, None, [], ◌∷◌};
ghost use Rattle.std.specs.FinSet.{items};
ghost use Rattle.z_regs.specs.Cpu.{cpu_of};
ghost use Rattle.z_instr.specs.Operands.{unspecified, operation};
ghost use Rattle.z_instr.specs.Table.{entry_at};
ghost use Rattle.tx_control.specs.declared.causes.Why.TheVariants as why;
ghost use Rattle.tx_serial.specs.Fate.{aborts_where, is_restricted, first_refusal, operands as operands_of};
ghost use Rattle.tx_serial.specs.Fate.{restricted_refusal, specified_refusal, depth_refusal, operand_refusal};
ghost use Rattle.tx_serial.specs.Fate.{Excepts, excepted, fate_after, length_at, instruction_at};
ghost use Rattle.tx_progress.specs.Trial.{at_hand, text_refusal_by, place_refusal_by, overflow_refusal_by};
ghost use Rattle.tx_progress.specs.Trial.{tests_by, tried as tried_by, fate_by_progress};
ghost use Rattle.tx_serial.specs.Flat.{Storage};
ghost use Rattle.tx_attempt.specs.Tracked.{progress};
ghost use Rattle.tx_attempt.specs.Storages.{storage_of};
ghost use Rattle.tx_cpu.specs.Plans.{fate_of};
ghost use Rattle.tx_attempt.specs.Refused.{refusal_of, found};
ghost use Rattle.std.specs.Prelude.{◌&&◌, nat_le, false};
ghost use Rattle.z_instr.specs.Roles.{begins as is_begun};

use crate::paired::pair_next;
use tx_attempt::{Attempt, Refusal, cause_in};
use tx_control::codes::OPERATION;
use tx_control::{Exception, MOST_LEVELS, Nest, Why};
use tx_program::{Program, read};
use z_decode::length_of;
use z_instr::instr::Instr;
use z_instr::laws::operands_are_small;
use z_instr::lookup::line;
use z_instr::op::Op;
use z_instr::roles::{begins, sets_access_register};
use z_regs::{CpuImage, Guard, Touches};
use z_touch::{accessible, fetchable, ranges, specified};

/// What the tests of the next instruction say.
#[derive(Drop)]
pub enum Plan {
    /// It goes.
    Go {
        /// The instruction.
        instr: Instr,
        /// Its operands, by real addresses.
        need: Touches,
    },
    /// It ends the transaction by this cause.
    Ends(Why),
    /// Outside transactions, it stops the program.
    Stops(Exception),
}

/// What a refusal means under these begins.
fn after_refusal(nest: &Nest, refusal: Refusal) -> Plan
    ensures { fate_of result ≡ fate_after nest.now (refusal_of refusal) }
{
    match refusal {
        Refusal::Because(why) => Plan::Ends(why),
        Refusal::Excepts(e) => {
            if nest.depth() == 0 {
                Plan::Stops(e)
            } else {
                Plan::Ends(cause_in(nest, e))
            }
        }
    }
}

/// The exception of bytes, as many as the first of them says, that read as no instruction.
fn unreadable(length: u8) -> Refusal
    ensures { refusal_of result ≡ Excepts (record { code = operation; fetch = false; length = length }) }
{
    Refusal::Excepts(Exception {
        code: OPERATION,
        fetch: false,
        length,
    })
}

/// Whether transactions allow an operation.
fn allowed(nest: &Nest, op: Op) -> Result<(), Refusal>
    ensures { found result ≡ aborts_where (is_restricted nest.now (entry_at op.number)) why.Restricted }
{
    if nest.depth() == 0 {
        return Ok(());
    }
    if line(op).usage.is_restricted() {
        return Err(Refusal::Because(Why::Restricted));
    }
    if sets_access_register(op) && !nest.effective_a() {
        return Err(Refusal::Because(Why::Restricted));
    }
    Ok(())
}

/// Whether an instruction meets neither special operation nor specification.
fn well_specified(instr: &Instr, image: &CpuImage, depth: u32) -> Result<(), Refusal>
    ensures { found result ≡ excepted instr.now (unspecified instr.now image.now.general depth) }
{
    match specified(instr, image, depth) {
        Ok(()) => Ok(()),
        Err(e) => Err(Refusal::Excepts(e)),
    }
}

/// Whether one more begin may be opened.
fn not_too_deep(nest: &Nest, op: Op) -> Result<(), Refusal>
    ensures { found result ≡
        aborts_where (is_begun (entry_at op.number) && nat_le 16 (length nest.now)) why.Depth }
{
    if begins(op) && nest.depth() >= MOST_LEVELS as u32 {
        return Err(Refusal::Because(Why::Depth));
    }
    Ok(())
}

/// The tests of an instruction that do not ask for its operands.
fn admitted(attempt: &Attempt, image: &CpuImage, instr: &Instr) -> Result<(), Refusal>
    ensures { (storage : Storage) → let q = progress attempt.now (cpu_of image.now) in
        found result ≡ first_refusal (text_refusal_by q instr.now
        ∷ restricted_refusal (at_hand storage q) instr.now
        ∷ specified_refusal (at_hand storage q) instr.now
        ∷ depth_refusal (at_hand storage q) instr.now ∷ []) }
{
    attempt.admit_text(instr, image.address)?;
    allowed(attempt.nest(), instr.op)?;
    well_specified(instr, image, attempt.nest().depth())?;
    not_too_deep(attempt.nest(), instr.op)
}

/// Whether an instruction that is well specified goes with its operands, or what the tests that ask for them
/// find.
fn permitted(
    attempt: &Attempt,
    image: &CpuImage,
    instr: &Instr,
    need: &Touches,
    guard: &Guard,
) -> Result<(), Refusal>
    requires specified { unspecified instr.now image.now.general (length attempt.now.nest) ≡ None }
    requires need { need.now ≡ operands_of instr.now (cpu_of image.now) }
    ensures { (storage : Storage) → let q = progress attempt.now (cpu_of image.now) in
        found result ≡ first_refusal (operand_refusal (items guard.now) (at_hand storage q) instr.now
        ∷ place_refusal_by q instr.now ∷ overflow_refusal_by q instr.now ∷ []) }
{
    operands_are_small();
    if let Err(e) = accessible(instr, need, image, guard, attempt.nest().depth()) {
        return Err(Refusal::Excepts(e));
    }
    attempt.admit_operands(instr, need)?;
    attempt.admit_touches(need, image.prefix)
}

/// What comes of an instruction that is fetched and read.
#[inline(always)]
fn tried(attempt: &Attempt, image: &CpuImage, instr: &Instr, guard: &Guard) -> Plan
    ensures { (storage : Storage) → let q = progress attempt.now (cpu_of image.now) in
        fate_of result ≡ tried_by q instr.now (first_refusal (tests_by (items guard.now) storage q instr.now)) }
{
    let nest = attempt.nest();
    if let Err(refusal) = admitted(attempt, image, instr) {
        return after_refusal(nest, refusal);
    }
    let need = ranges(instr, image);
    match permitted(attempt, image, instr, &need, guard) {
        Err(refusal) => after_refusal(nest, refusal),
        Ok(()) => Plan::Go {
            instr: *instr,
            need,
        },
    }
}

/// What comes of an instruction that is read, and has so many bytes.
fn fetched(
    attempt: &Attempt,
    image: &CpuImage,
    program: &Program,
    length: u8,
    instr: &Instr,
) -> Plan
    requires length { let q = progress attempt.now (cpu_of image.now) in
        length ≡ length_at (at_hand (storage_of program.now.storage) q) }
    requires reading { let q = progress attempt.now (cpu_of image.now) in
        instruction_at (at_hand (storage_of program.now.storage) q) ≡ Some instr.now }
    ensures { fate_of result ≡ fate_by_progress (items program.now.guard) (storage_of program.now.storage)
        (progress attempt.now (cpu_of image.now)) }
{
    let guard = program.guard();
    match fetchable(image, guard, length) {
        Err(e) => after_refusal(attempt.nest(), Refusal::Excepts(e)),
        Ok(()) => tried(attempt, image, instr, guard),
    }
}

/// How many bytes the next instruction has, and what they read as.
fn next_instruction(attempt: &Attempt, image: &CpuImage, program: &Program) -> (u8, Option<Instr>)
    ensures length { let q = progress attempt.now (cpu_of image.now) in
        result.0 ≡ length_at (at_hand (storage_of program.now.storage) q) }
    ensures reading { let q = progress attempt.now (cpu_of image.now) in
        result.1 ≡ instruction_at (at_hand (storage_of program.now.storage) q) }
{
    let bytes = attempt.text_bytes(image.address, image.prefix, program.bytes());
    let length = length_of(bytes[0]);
    (length, read(&bytes[..length as usize]))
}

/// What comes of the next instruction, which has not been read before.
#[cold]
#[inline(never)]
fn next_unread(attempt: &Attempt, image: &CpuImage, program: &Program) -> Plan
    ensures { fate_of result ≡ fate_by_progress (items program.now.guard) (storage_of program.now.storage)
        (progress attempt.now (cpu_of image.now)) }
{
    let guard = program.guard();
    let nest = attempt.nest();
    let (length, reading) = next_instruction(attempt, image, program);
    match fetchable(image, guard, length) {
        Err(e) => after_refusal(nest, Refusal::Excepts(e)),
        Ok(()) => match &reading {
            None => after_refusal(nest, unreadable(length)),
            Some(instr) => tried(attempt, image, instr, guard),
        },
    }
}

/// What comes of the next instruction, by all tests.
#[inline(never)]
fn next_tested(attempt: &Attempt, image: &CpuImage, program: &Program) -> Plan
    ensures { fate_of result ≡ fate_by_progress (items program.now.guard) (storage_of program.now.storage)
        (progress attempt.now (cpu_of image.now)) }
{
    if let Some(place) = attempt.text_place(image.address, image.prefix) {
        if let Some(ready) = program.known(place) {
            let length = length_of(program.bytes()[place as usize]);
            return fetched(attempt, image, program, length, &ready.instr);
        }
    }
    next_unread(attempt, image, program)
}

/// What comes of the next instruction, whose bytes are those that the attempt sees over the storage of the
/// program.
pub fn next_plan(attempt: &Attempt, image: &CpuImage, program: &Program) -> Plan
    ensures { fate_of result ≡ fate_by_progress (items program.now.guard) (storage_of program.now.storage)
        (progress attempt.now (cpu_of image.now)) }
{
    if let Some(pair) = pair_next(attempt, image, program) {
        let mut need = Touches::none();
        pair.add_ranges(&mut need);
        return Plan::Go {
            instr: *pair.instr,
            need,
        };
    }
    next_tested(attempt, image, program)
}
