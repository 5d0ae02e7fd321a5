//! What the steps of a run answer, and what they leave.
ghost use Rattle.std.specs.Prelude.{◌≡◌, ◌<◌, ◌^◌, ◌+◌, IsTrue, true};
ghost use Rattle.tx_serial.specs.Apply.{is_running};
ghost use Rattle.tx_cpu.specs.Parts.{local_of};

use crate::given::{Given, given_by, walk};
use line_table::Mode;
use std::alloc::Global;
use std::sync::Arc;
use std::test::Fail;
use tx_cpu::{Cpu, Program};
use tx_meaning::Need;
use tx_run::{Difference, Reason, Run, RunStep};
use z_assemble::assemble;
use z_regs::{Bytes, RunState, Storage};

/// Whether a CPU runs, and its attempt may count so many instructions more.
pub(crate) fn may_be_lent(cpu: &Cpu) -> bool
    ensures counted { IsTrue result → (local_of cpu.now).attempt.count + 64 < 2 ^ 32 }
    ensures runs { IsTrue result → is_running (local_of cpu.now).attempt.cpu.state ≡ true }
{
    let few = match cpu.live() {
        None => true,
        Some((_, count)) => count < 1_000_000,
    };
    few && matches!(cpu.image().state, RunState::Running)
}

/// The program of a listing.
fn read(alloc: Global, listing: &str) -> Result<Program, Fail> {
    let image = assemble(alloc, listing.as_bytes())?;
    Ok(Program::open(alloc, Arc::new(alloc, image)?)?)
}

/// Its first CPU.
fn first_cpu(alloc: Global, program: &Program) -> Result<Cpu, Fail> {
    let image = program.image();
    let _count = image.cpu_count();
    let start = image.cpus.first().ok_or("no CPU")?;
    Ok(Cpu::open(alloc, *start)?)
}

/// Storage with its bytes, but for 41 in the doubleword at X'9000'.
fn changed(alloc: Global, program: &Program) -> Result<Storage, Fail> {
    let mut storage = Storage::open(alloc, program.bytes())?;
    storage.put(0x9007, 41);
    Ok(storage)
}

/// The CPU is lent, with the line at X'9000' exclusively.
fn lend(run: &mut Run, cpu: &Cpu, storage: &Storage, allowance: u32) {
    let _size = storage.as_slice();
    if allowance > 64 || !may_be_lent(cpu) {
        return;
    }
    run.load(cpu, 7, 0, allowance);
    let need = Need {
        line: 0x90,
        mode: Mode::Exclusive,
    };
    let first = need.line as usize * 256;
    run.hold(need, &storage.as_slice()[first..first + 256]);
}

/// What five steps answer, how many were made, what is in register 1 then, and the first byte that was touched beside the
/// program, as it was before.
type Outcome = ([RunStep; 5], u32, u64, Option<(u64, u8)>);

fn outcome(run: &mut Run) -> Outcome {
    let mut answers = [RunStep::Done; 5];
    for answer in &mut answers {
        *answer = run.step(false);
    }
    let register = run.reached().image().general[1];
    (answers, run.steps(), register, run.next_byte(0x9007))
}

/// Of a run its CPU by number, the turns and the attempt, and register 1 before its steps; the first line that these needed;
/// and the first two pages that hold a byte of their instructions or of what they have stored.
type Loan = ([u32; 3], u64, Option<(u32, Mode)>, [Option<(u32, bool)>; 2]);

fn loan(run: &Run) -> Loan {
    let numbers = [run.cpu(), run.turns(), run.attempt()];
    let register = run.start().image().general[1];
    let pages = [run.next_page(0), run.next_page(5)];
    (numbers, register, run.next_need(0), pages)
}

/// All of that, and what a step answers that is called home.
type Seen = (Outcome, Loan, RunStep);

fn seen(run: &mut Run) -> Seen {
    let outcome = outcome(run);
    (outcome, loan(run), run.step(true))
}

/// What comes of a CPU that is lent, and what another one and storage come to by it.
fn lent(
    alloc: Global,
    program: Arc<Program>,
    cpu: &Cpu,
    into: &mut Cpu,
    base: &mut Storage,
    allowance: u32,
) -> Result<(Seen, Given), Fail> {
    let mut run = Run::open(alloc, program, 0)?;
    lend(&mut run, cpu, base, allowance);
    let seen = seen(&mut run);
    Ok((seen, given_by(&run, into, base)))
}

/// The same of a CPU behind so many instructions, beside another one.
fn beside(
    alloc: Global,
    program: Arc<Program>,
    cpu: &mut Cpu,
    base: &mut Storage,
    before: u32,
    allowance: u32,
) -> Result<(Seen, Given), Fail> {
    let mut into = first_cpu(alloc, &program)?;
    walk(cpu, &program, before, base);
    lent(alloc, program, cpu, &mut into, base, allowance)
}

/// The same of a program whose first CPU is lent.
fn first_lent(
    alloc: Global,
    program: Arc<Program>,
    base: &mut Storage,
    before: u32,
    allowance: u32,
) -> Result<(Seen, Given), Fail> {
    let mut cpu = first_cpu(alloc, &program)?;
    beside(alloc, program, &mut cpu, base, before, allowance)
}

/// The same over storage of its own.
fn made_of(
    alloc: Global,
    program: Arc<Program>,
    before: u32,
    allowance: u32,
) -> Result<(Seen, Given), Fail> {
    let mut base = changed(alloc, &program)?;
    first_lent(alloc, program, &mut base, before, allowance)
}

/// The same of the program of a listing.
fn made(alloc: Global, listing: &str, before: u32, allowance: u32) -> Result<(Seen, Given), Fail> {
    let program = Arc::new(alloc, read(alloc, listing)?)?;
    made_of(alloc, program, before, allowance)
}

const DONE: RunStep = RunStep::Done;

const AT_HOME: RunStep = RunStep::Leave(Reason::AtHome);

const SPENT: RunStep = RunStep::Leave(Reason::Allowance);

const MISSING: RunStep = RunStep::Leave(Reason::LineMissing(0x92));

const CALLED: RunStep = RunStep::Leave(Reason::CalledHome);

/// A load, an addition and a store, and then a division by zero, which does not complete.
const DIVIDES: &str =
    " CPU X'4000'\n LG 1,X'9000'\n AGHI 1,1\n STG 1,X'9000'\n DSGR 4,6\n SVC 0\n END\n";

/// A load of a line that is not held.
const ELSEWHERE: &str = " CPU X'4000'\n LGHI 1,3\n LG 1,X'9200'\n SVC 0\n END\n";

/// The page of the programs, and that of the operands.
const TEXT: Option<(u32, bool)> = Some((4, true));

const DATA: Option<(u32, bool)> = Some((9, false));

/// The first program inside a transaction that has stored before.
const INSIDE: &str =
    " CPU X'4000'\n TBEGIN 0,0\n STG 2,X'9008'\n LG 1,X'9000'\n AGHI 1,1\n STG 1,X'9000'\n TEND\n \
                      SVC 0\n REG 0,2,X'0000000000000005'\n END\n";

/// Where 40 stands in place of 41.
const OTHERWISE: Option<Difference> = Some(Difference {
    address: 0x9007,
    kept: 40,
    given: 41,
});

const STORED: Option<(u32, Mode)> = Some((0x90, Mode::Exclusive));

const FETCHED: Option<(u32, Mode)> = Some((0x90, Mode::Shared));

/// The byte of the first operand, as it was.
const BYTE: Option<(u64, u8)> = Some((0x9007, 41));

#[test]
fn what_steps_answer_leave_and_give(rt: HostRuntime) -> Result<(), Fail> {
    let divides = made(rt.alloc(), DIVIDES, 0, 64)?;
    let spent = made(rt.alloc(), DIVIDES, 0, 2)?;
    let elsewhere = made(rt.alloc(), ELSEWHERE, 0, 64)?;
    let inside = made(rt.alloc(), INSIDE, 2, 64)?;
    let wanted = (
        (
            (
                ([DONE, DONE, DONE, AT_HOME, AT_HOME], 3, 42, BYTE),
                ([0, 7, 0], 0, STORED, [TEXT, DATA]),
                CALLED,
            ),
            (OTHERWISE, ([42, 0, 0x4010], None, [42, 0, 42, 0])),
        ),
        (
            (
                ([DONE, DONE, SPENT, SPENT, SPENT], 2, 42, BYTE),
                ([0, 7, 0], 0, FETCHED, [TEXT, None]),
                CALLED,
            ),
            (OTHERWISE, ([42, 0, 0x400A], None, [41, 0, 41, 0])),
        ),
        (
            (
                ([DONE, MISSING, MISSING, MISSING, MISSING], 1, 3, None),
                ([0, 7, 0], 0, None, [TEXT, None]),
                CALLED,
            ),
            (None, ([3, 0, 0x4004], None, [41, 0, 41, 0])),
        ),
        (
            (
                ([DONE, DONE, DONE, AT_HOME, AT_HOME], 3, 42, BYTE),
                ([0, 7, 0], 0, STORED, [TEXT, DATA]),
                CALLED,
            ),
            (OTHERWISE, ([42, 5, 0x401C], Some((1, 5)), [42, 5, 41, 0])),
        ),
    );
    assert_eq!(rt; (divides, spent, elsewhere, inside), wanted);
    Ok(())
}
