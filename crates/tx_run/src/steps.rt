//! The steps of a run: turns of a CPU on storage of its own.
ghost use Rattle.std.specs.Prelude.{◌≡◌, ℕ, suc, ◌+◌, ◌<◌, ◌≤◌, ◌^◌, ◌||◌, ◌++◌, true, false, None, IsTrue, List, All, length, IfOk, IfSome, if◌then◌else◌, ◌/◌, nat_eq};
ghost use Rattle.std.specs.List.{list_any};
ghost use Rattle.line_table.specs.Sizes.{storage_lines};
ghost use Rattle.std.specs.FinSet.{items};
ghost use Rattle.z_regs.specs.Prefix.{storage_size, is_prefix, absolute_of};
ghost use Rattle.z_instr.specs.Layout.{length_by};
ghost use Rattle.tx_marks.specs.Needs.{operand_needs};
ghost use Rattle.z_regs.specs.Cpu.{started};
ghost use Rattle.tx_progress.specs.Doing.{executed};
ghost use Rattle.tx_progress.specs.Local.{settled};
ghost use Rattle.tx_cpu.specs.Parts.{local_of};
ghost use Rattle.tx_cpu.specs.Plans.{IsPrepared, IsPlanPrepared, fate_of};
ghost use Rattle.tx_serial.specs.Text.{SameText};
ghost use Rattle.tx_progress.specs.Progress.{is_live, seen_through};
ghost use Rattle.z_instr.specs.Roles.{ends_level, is_lasting_store, is_assist};
ghost use Rattle.tx_marks.specs.Away.{is_plain, is_abort, is_service};
ghost use Rattle.tx_marks.specs.Places.{is_among, text_places, operand_places, stored_places};
ghost use Rattle.tx_marks.specs.Traces.{is_stored, is_paged, has_page};
ghost use Rattle.tx_marks.specs.Own.{given, is_touched, bytes_at, line_bytes};
ghost use Rattle.tx_cpu.specs.Shapes.{touched_by};
ghost use Rattle.tx_serial.specs.Fate.{Goes};
ghost use Rattle.tx_marks.specs.Away.{lent_turn};
ghost use Rattle.tx_run.specs.Lent.{IsLent, is_done, with_line};
ghost use Rattle.tx_marks.specs.Marks.{mode_in, with_needs, first_missing};
ghost use Rattle.tx_run.specs.Made.{now, IsMade, MayBeMadeAgain, NextGoesAway, StartsAlike, OneMade, IsWithin, is_stepped};
ghost use Rattle.tx_run.specs.Made.{next_fate, step_there, step_by};

use crate::reason::{Reason, RunStep};
use std::alloc::Global;
use std::marker::Model;
use tx_cpu::laws::the_next_instruction_is_text;
use tx_cpu::{Cpu, Done, Plain, Plan, Program, operands_at};
use tx_marks::{LineMarks, OwnBytes, OwnRoom, Traces};
use z_decode::length_of;
use z_instr::instr::Instr;
use z_instr::kind::{Branch, Kind, Transaction};
use z_instr::lookup::line;
use z_instr::roles::begins;
use z_regs::{Bytes, CpuImage, NoMemory, Touches, place_of};

/// The lines of a page.
const LINES_A_PAGE: u32 = 16;

/// A CPU as it was lent and as it has become, its storage and what its steps have left there, the lines that they needed, and
/// how many they are.
#[derive(Drop)]
pub(crate) struct Steps {
    start: Box<Cpu>,
    reached: Box<Cpu>,
    pub(crate) own: OwnBytes,
    pub(crate) traces: Traces,
    pub(crate) needed: LineMarks,
    pub(crate) count: u32,
}

impl Model for Steps {
    ghost use Rattle.tx_run.specs.Made.{Made};

    ghost Value = { Made };

    ghost view = { λ s. record {
      start = s.start.value;
      reached = s.reached.value;
      own = s.own;
      traces = s.traces;
      needed = s.needed;
      steps = s.count;
    } };
}

/// Memory for the steps of a run. None of the bytes is written yet; the CPUs run, with zeros in their registers.
#[derive(Drop)]
pub(crate) struct StepsRoom {
    start: Box<Cpu>,
    reached: Box<Cpu>,
    own: OwnRoom,
    traces: Traces,
    needed: LineMarks,
    ghost start_so: { local_of start.value ≡ settled (started 0) },
    ghost reached_so: { local_of reached.value ≡ settled (started 0) },
    ghost stored: { (a : ℕ) → is_stored traces a ≡ false },
    ghost pages: { (page : ℕ) → is_paged traces page ≡ false },
    ghost none: { (line : ℕ) → mode_in needed line ≡ None },
}

/// A CPU that runs, with zeros in its registers, in memory of its own. The error is want of memory.
fn open_cpu(alloc: Global) -> Result<Box<Cpu>, NoMemory>
    ensures { IfOk result (λ cpu. local_of cpu.value ≡ settled (started 0)) }
{
    let cpu = Cpu::open(alloc, CpuImage::entering(0))?;
    let boxed = Box::new(alloc, cpu)?;
    Ok(boxed)
}

impl StepsRoom {
    /// Memory for the steps of a run. The error is want of it.
    pub(crate) fn reserve(alloc: Global) -> Result<StepsRoom, NoMemory> {
        Ok(StepsRoom {
            start: open_cpu(alloc)?,
            reached: open_cpu(alloc)?,
            own: OwnRoom::reserve(alloc)?,
            traces: Traces::open(alloc)?,
            needed: LineMarks::open(alloc)?,
        })
    }

    /// No step of a CPU that runs, on these bytes. It takes no memory.
    pub(crate) fn make(self, bytes: &[u8]) -> Steps
        requires { length bytes.now ≡ storage_size }
        ensures { (text : List ℕ) → IsLent text bytes.now 0 result }
    {
        let StepsRoom {
            start,
            reached,
            own,
            traces,
            needed,
        } = self;
        Steps {
            start,
            reached,
            own: own.fill(bytes),
            traces,
            needed,
            count: 0,
        }
    }
}

/// Whether an instruction has completed, with nothing else to tell.
#[inline(always)]
fn is_done(done: &Done) -> bool
    ensures { result ≡ is_stepped done.now }
{
    matches!(done, Done::Stepped)
}

/// Whether an operation that begins no transaction is one for the machine: it ends or aborts a transaction, stores lastingly,
/// asks for time or calls the service.
#[inline(always)]
fn is_for_machine(kind: Kind) -> bool
    ensures { result ≡ (ends_level kind || (is_abort kind || (is_lasting_store kind || (is_assist kind
        || is_service kind)))) }
{
    match kind {
        Kind::Transaction(Transaction::End) => true,
        Kind::Transaction(Transaction::Abort) => true,
        Kind::Transaction(Transaction::StoreLasting) => true,
        Kind::Transaction(Transaction::Assist) => true,
        Kind::Branch(Branch::ServiceCall) => true,
        _ => false,
    }
}

/// Whether an instruction may be made away.
#[inline(always)]
fn is_made_away(instr: &Instr) -> bool
    ensures { result ≡ is_plain instr.now }
{
    !(begins(instr.op) || is_for_machine(line(instr.op).kind))
}

impl Steps {
    /// The CPU as it was lent.
    pub(crate) fn start(&self) -> &Cpu
        ensures { result.now ≡ self.now.start }
    {
        &self.start
    }

    /// The CPU as it has become.
    pub(crate) fn reached(&self) -> &Cpu
        ensures { result.now ≡ self.now.reached }
    {
        &self.reached
    }

    /// The prefix of the CPU.
    fn prefix(&self) -> Option<u32>
        ensures value { result ≡ (local_of self.now.reached).attempt.cpu.prefix }
        ensures prefix_in { IsTrue (is_prefix result) }
    {
        self.reached().image().prefix
    }

    /// The byte that the CPU sees over its storage at a place.
    #[inline(always)]
    fn seen(&self, place: u64) -> u8
        requires { place < storage_size }
        ensures { result ≡ seen_through (local_of self.now.reached).attempt.overlay (bytes_at self.now.own.now) place }
    {
        let _size = self.own.now.as_slice();
        self.reached().seen(place, &self.own.now)
    }

    /// How many bytes the next instruction has, by the first of them.
    #[inline(always)]
    fn length(&self) -> u32
        requires { (local_of self.now.reached).attempt.cpu.address < storage_size }
        ensures { let q = (local_of self.now.reached).attempt in result ≡ length_by
            (seen_through q.overlay (bytes_at self.now.own.now) (absolute_of q.cpu.prefix q.cpu.address)) }
    {
        let place = place_of(self.prefix(), self.reached().image().address);
        u32::from(length_of(self.seen(place)))
    }

    /// Marks the bytes of the next instruction, and their pages.
    #[inline(always)]
    fn touch_text(&mut self)
        requires first { (local_of self.old.reached).attempt.cpu.address < storage_size }
        requires fetched { let q = (local_of self.old.reached).attempt in q.cpu.address + length_by
            (seen_through q.overlay (bytes_at self.old.own.now) (absolute_of q.cpu.prefix q.cpu.address)) ≤ storage_size }
        ensures start { self.new.start ≡ self.old.start }
        ensures reached { self.new.reached ≡ self.old.reached }
        ensures needed { self.new.needed ≡ self.old.needed }
        ensures steps { self.new.steps ≡ self.old.steps }
        ensures now { self.new.own.now ≡ self.old.own.now }
        ensures given { (a : ℕ) → given self.new.own a ≡ given self.old.own a }
        ensures touched { (a : ℕ) → is_touched self.new.own a ≡ (is_touched self.old.own a
            || is_among (text_places (bytes_at self.old.own.now) (local_of self.old.reached).attempt) a) }
        ensures stored { self.new.traces.stored ≡ self.old.traces.stored }
        ensures pages { (page : ℕ) → is_paged self.new.traces page ≡ (is_paged self.old.traces page
            || has_page (text_places (bytes_at self.old.own.now) (local_of self.old.reached).attempt) page) }
    {
        let prefix = self.prefix();
        let address = self.reached().image().address;
        let length = self.length();
        self.own.touch_places(prefix, address, length);
        self.traces.mark_pages(prefix, address, length);
    }

    /// Marks the bytes of operands, and of those that are stored the pages too.
    #[inline(always)]
    fn touch_operands(&mut self, need: &Touches)
        requires inside { All (λ r. r.first + r.length ≤ storage_size) need.now }
        ensures start { self.new.start ≡ self.old.start }
        ensures reached { self.new.reached ≡ self.old.reached }
        ensures needed { self.new.needed ≡ self.old.needed }
        ensures steps { self.new.steps ≡ self.old.steps }
        ensures now { self.new.own.now ≡ self.old.own.now }
        ensures given { (a : ℕ) → given self.new.own a ≡ given self.old.own a }
        ensures touched { (a : ℕ) → is_touched self.new.own a ≡ (is_touched self.old.own a
            || is_among (operand_places need.now (local_of self.old.reached).attempt) a) }
        ensures stored { (a : ℕ) → is_stored self.new.traces a ≡ (is_stored self.old.traces a
            || is_among (stored_places need.now (local_of self.old.reached).attempt) a) }
        ensures pages { (page : ℕ) → is_paged self.new.traces page ≡ (is_paged self.old.traces page
            || has_page (stored_places need.now (local_of self.old.reached).attempt) page) }
    {
        let prefix = self.prefix();
        self.own.touch_operands(prefix, need);
        self.traces.mark_operands(prefix, need);
    }

    /// Marks the bytes of the next instruction, which goes, and of its operands.
    #[inline(always)]
    fn touch(&mut self, need: &Touches)
        requires within { IsWithin (bytes_at self.old.own.now) (local_of self.old.reached).attempt need.now }
        ensures start { self.new.start ≡ self.old.start }
        ensures reached { self.new.reached ≡ self.old.reached }
        ensures needed { self.new.needed ≡ self.old.needed }
        ensures steps { self.new.steps ≡ self.old.steps }
        ensures now { self.new.own.now ≡ self.old.own.now }
        ensures given { (a : ℕ) → given self.new.own a ≡ given self.old.own a }
        ensures touched { (a : ℕ) → is_touched self.new.own a ≡ (is_touched self.old.own a
            || is_among (text_places (bytes_at self.old.own.now) (local_of self.old.reached).attempt
            ++ operand_places need.now (local_of self.old.reached).attempt) a) }
        ensures stored { (a : ℕ) → is_stored self.new.traces a ≡ (is_stored self.old.traces a
            || is_among (stored_places need.now (local_of self.old.reached).attempt) a) }
        ensures pages { (page : ℕ) → is_paged self.new.traces page ≡ (is_paged self.old.traces page
            || has_page (text_places (bytes_at self.old.own.now) (local_of self.old.reached).attempt
            ++ stored_places need.now (local_of self.old.reached).attempt) page) }
    {
        self.touch_text();
        self.touch_operands(need);
    }

    /// Marks the lines of the operands as needed, of a CPU that may have a prefix.
    #[inline(never)]
    fn need_moved(&mut self, need: &Touches)
        requires within { IsWithin (bytes_at self.old.own.now) (local_of self.old.reached).attempt need.now }
        ensures start { self.new.start ≡ self.old.start }
        ensures reached { self.new.reached ≡ self.old.reached }
        ensures own { self.new.own ≡ self.old.own }
        ensures traces { self.new.traces ≡ self.old.traces }
        ensures steps { self.new.steps ≡ self.old.steps }
        ensures needed { (line : ℕ) → mode_in self.new.needed line ≡ with_needs
            (operand_needs (local_of self.old.reached).attempt.cpu.prefix need.now) (mode_in self.old.needed) line }
    {
        let places = need.absolute(self.prefix());
        self.needed.add_all(&places);
    }

    /// Marks the lines of the operands as needed.
    #[inline(always)]
    fn need(&mut self, need: &Touches)
        requires within { IsWithin (bytes_at self.old.own.now) (local_of self.old.reached).attempt need.now }
        ensures start { self.new.start ≡ self.old.start }
        ensures reached { self.new.reached ≡ self.old.reached }
        ensures own { self.new.own ≡ self.old.own }
        ensures traces { self.new.traces ≡ self.old.traces }
        ensures steps { self.new.steps ≡ self.old.steps }
        ensures needed { (line : ℕ) → mode_in self.new.needed line ≡ with_needs
            (operand_needs (local_of self.old.reached).attempt.cpu.prefix need.now) (mode_in self.old.needed) line }
    {
        match self.prefix() {
            None => self.needed.add_all(need),
            Some(_) => self.need_moved(need),
        }
    }

    /// Executes an instruction whose operands are marked as touched. The CPU that was lent and the bytes before stay.
    #[inline(always)]
    fn execute(&mut self, instr: &Instr, need: &Touches) -> Done
        requires plain { is_plain instr.now ≡ true }
        requires prepared { IsPrepared (local_of self.old.reached).attempt instr.now need.now }
        requires touched { (a : ℕ) → is_among (operand_places need.now (local_of self.old.reached).attempt) a ≡ true
            → is_touched self.old.own a ≡ true }
        requires completed { (local_of self.old.reached).attempt.count + 1 < 2 ^ 32 }
        ensures value { record { after = now self.new; told = result } ≡ executed instr.now need.now (now self.old) }
        ensures start { StartsAlike self.old self.new }
        ensures touched { self.new.own.touched ≡ self.old.own.touched }
        ensures traces { self.new.traces ≡ self.old.traces }
        ensures needed { self.new.needed ≡ self.old.needed }
        ensures steps { self.new.steps ≡ self.old.steps }
    {
        self.reached().is_sound();
        let _size = self.own.now.as_slice();
        self.reached.execute(instr, need, &mut self.own.now)
    }

    /// Makes the next instruction, which goes and may be made away, and answers whether it completes. Where it does not, the
    /// CPU that was lent and the bytes before are still as they were, and so is the number of steps.
    #[inline(always)]
    fn make(&mut self, instr: &Instr, need: &Touches) -> bool
        requires plain { is_plain instr.now ≡ true }
        requires prepared { IsPrepared (local_of self.old.reached).attempt instr.now need.now }
        requires within { IsWithin (bytes_at self.old.own.now) (local_of self.old.reached).attempt need.now }
        requires completed { (local_of self.old.reached).attempt.count + 1 < 2 ^ 32 }
        requires few { self.old.steps < 64 }
        ensures told { result ≡ is_stepped (executed instr.now need.now (now self.old)).told }
        ensures start { StartsAlike self.old self.new }
        ensures steps { self.new.steps ≡ (if result then self.old.steps + 1 else self.old.steps) }
        ensures made { result ≡ true → OneMade instr.now need.now self.old self.new }
    {
        self.touch(need);
        self.need(need);
        let done = self.execute(instr, need);
        if !is_done(&done) {
            return false;
        }
        self.count += 1;
        true
    }

    /// What comes of the next instruction, which is one of the program's as long as its text pages are those of the image.
    fn plan(&self, program: &Program) -> Plan
        requires { SameText (items program.now.guard) (bytes_at program.now.storage) (bytes_at self.now.own.now) }
        ensures fate { fate_of result ≡ next_fate (items program.now.guard) self.now }
        ensures prepared { IsPlanPrepared (local_of self.now.reached).attempt result }
        ensures area { is_prefix (local_of self.now.reached).attempt.cpu.prefix ≡ true }
        ensures opens { is_live (local_of self.now.reached).attempt ≡ true
            → 0 < length (local_of self.now.reached).attempt.nest }
    {
        the_next_instruction_is_text();
        self.reached().is_sound();
        let _prefix = self.prefix();
        self.reached().prepare(program)
    }

    /// No step has been made: the CPU is as it was lent, and each byte as it was before.
    fn begin_again(&mut self)
        ensures made { (text image : List ℕ) → SameText text (bytes_at image) (given self.old.own)
            → IsMade text image self.new }
        ensures start { StartsAlike self.old self.new }
        ensures steps { self.new.steps ≡ 0 }
    {
        self.reached.copy_from(&self.start);
        self.own.put_back();
        self.traces.clear();
        self.needed.clear();
        self.count = 0;
    }

    /// Makes the next instruction, of which it is known that it may be made away and completes.
    fn make_next(&mut self, program: &Program)
        requires made { IsMade (items program.now.guard) program.now.storage self.old }
        requires away { NextGoesAway (items program.now.guard) self.old }
        requires few { self.old.steps < 64 }
        requires completed { (local_of self.old.start).attempt.count + self.old.steps + 1 < 2 ^ 32 }
        ensures made { IsMade (items program.now.guard) program.now.storage self.new }
        ensures start { StartsAlike self.old self.new }
        ensures steps { self.new.steps ≡ self.old.steps + 1 }
    {
        if let Plan::Go { instr, need } = self.plan(program) {
            self.make(&instr, &need);
        }
    }

    /// Makes all steps again, from the CPU that was lent and the bytes before.
    #[cold]
    #[inline(never)]
    fn make_again(&mut self, program: &Program)
        requires again { MayBeMadeAgain (items program.now.guard) program.now.storage self.old }
        requires few { self.old.steps ≤ 64 }
        requires completed { (local_of self.old.start).attempt.count + self.old.steps < 2 ^ 32 }
        ensures made { IsMade (items program.now.guard) program.now.storage self.new }
        ensures start { StartsAlike self.old self.new }
        ensures steps { self.new.steps ≡ self.old.steps }
    {
        let count = self.count;
        self.begin_again();
        for _ in 0..count {
            self.make_next(program);
        }
    }

    /// No step from this CPU on; the bytes stay as they are.
    pub(crate) fn load(&mut self, from: &Cpu)
        ensures made { (text image : List ℕ) → SameText text (bytes_at image) (bytes_at self.old.own.now)
            → IsMade text image self.new }
        ensures start { local_of self.new.start ≡ local_of from.now }
        ensures reached { local_of self.new.reached ≡ local_of from.now }
        ensures steps { self.new.steps ≡ 0 }
    {
        self.start.copy_from(from);
        self.reached.copy_from(from);
        self.own.forget();
        self.traces.clear();
        self.needed.clear();
        self.count = 0;
    }

    /// The lowest line that an instruction needs and that is not held as it needs it, of a CPU that may have a prefix.
    #[inline(never)]
    fn missing_moved(&self, need: &Touches, held: &LineMarks) -> Option<u32>
        requires within { IsWithin (bytes_at self.now.own.now) (local_of self.now.reached).attempt need.now }
        ensures { result ≡ first_missing (operand_needs (local_of self.now.reached).attempt.cpu.prefix need.now)
            (mode_in held.now) }
    {
        let places = need.absolute(self.prefix());
        held.missing(&places)
    }

    /// The lowest line that an instruction needs and that is not held as it needs it.
    #[inline(always)]
    fn missing(&self, need: &Touches, held: &LineMarks) -> Option<u32>
        requires within { IsWithin (bytes_at self.now.own.now) (local_of self.now.reached).attempt need.now }
        ensures { result ≡ first_missing (operand_needs (local_of self.now.reached).attempt.cpu.prefix need.now)
            (mode_in held.now) }
    {
        match self.prefix() {
            None => held.missing(need),
            Some(_) => self.missing_moved(need, held),
        }
    }

    /// Makes the next instruction, which goes, may be made away and has its lines; where it does not complete, all is as it
    /// was.
    #[inline(always)]
    fn make_or_stay(&mut self, instr: &Instr, need: &Touches, program: &Program) -> RunStep
        requires made { IsMade (items program.now.guard) program.now.storage self.old }
        requires goes { next_fate (items program.now.guard) self.old ≡ Goes instr.now need.now }
        requires plain { is_plain instr.now ≡ true }
        requires prepared { IsPrepared (local_of self.old.reached).attempt instr.now need.now }
        requires few { self.old.steps < 64 }
        requires completed { (local_of self.old.start).attempt.count + self.old.steps + 1 < 2 ^ 32 }
        requires area { is_prefix (local_of self.old.reached).attempt.cpu.prefix ≡ true }
        requires opens { is_live (local_of self.old.reached).attempt ≡ true
            → 0 < length (local_of self.old.reached).attempt.nest }
        ensures answer { result ≡ step_there instr.now need.now self.old }
        ensures made { IsMade (items program.now.guard) program.now.storage self.new }
        ensures now { now self.new ≡ (if is_done result then (executed instr.now need.now (now self.old)).after
            else now self.old) }
        ensures steps { self.new.steps ≡ (if is_done result then self.old.steps + 1 else self.old.steps) }
        ensures start { StartsAlike self.old self.new }
    {
        if self.make(instr, need) {
            return RunStep::Done;
        }
        self.make_again(program);
        RunStep::Leave(Reason::AtHome)
    }

    /// The next instruction, where nothing unusual is the case. It is one of the program's as long as its text pages are those of
    /// the image.
    #[inline(always)]
    fn plain<'a>(&self, program: &'a Program) -> Option<Plain<'a>>
        requires { SameText (items program.now.guard) (bytes_at program.now.storage) (bytes_at self.now.own.now) }
        ensures goes { IfSome result (λ p. next_fate (items program.now.guard) self.now ≡ Goes p.ready.now.instr
            (touched_by p.ready.now.shape.touch p.first p.ready.now.shape.size)) }
        ensures area { is_prefix (local_of self.now.reached).attempt.cpu.prefix ≡ true }
        ensures opens { is_live (local_of self.now.reached).attempt ≡ true
            → 0 < length (local_of self.now.reached).attempt.nest }
    {
        the_next_instruction_is_text();
        self.reached().is_sound();
        let _prefix = self.prefix();
        self.reached().plain(program)
    }

    /// Makes the next instruction, which goes, where it may be made away, with these lines, and completes.
    #[inline(always)]
    fn step_going(
        &mut self,
        instr: &Instr,
        need: &Touches,
        program: &Program,
        held: &LineMarks,
    ) -> RunStep
        requires made { IsMade (items program.now.guard) program.now.storage self.old }
        requires goes { next_fate (items program.now.guard) self.old ≡ Goes instr.now need.now }
        requires few { self.old.steps < 64 }
        requires completed { (local_of self.old.start).attempt.count + self.old.steps + 1 < 2 ^ 32 }
        requires area { is_prefix (local_of self.old.reached).attempt.cpu.prefix ≡ true }
        requires opens { is_live (local_of self.old.reached).attempt ≡ true
            → 0 < length (local_of self.old.reached).attempt.nest }
        ensures answer { result ≡ step_by (mode_in held.now) (next_fate (items program.now.guard) self.old) self.old }
        ensures made { IsMade (items program.now.guard) program.now.storage self.new }
        ensures now { now self.new ≡ (if is_done result then lent_turn (items program.now.guard) (now self.old)
            else now self.old) }
        ensures steps { self.new.steps ≡ (if is_done result then self.old.steps + 1 else self.old.steps) }
        ensures start { StartsAlike self.old self.new }
    {
        if !is_made_away(instr) {
            return RunStep::Leave(Reason::AtHome);
        }
        if let Some(line) = self.missing(need, held) {
            return RunStep::Leave(Reason::LineMissing(line));
        }
        self.make_or_stay(instr, need, program)
    }

    /// Makes the next instruction, where it may be made away, with these lines, and completes.
    #[inline(always)]
    pub(crate) fn step(&mut self, program: &Program, held: &LineMarks) -> RunStep
        requires made { IsMade (items program.now.guard) program.now.storage self.old }
        requires few { self.old.steps < 64 }
        requires completed { (local_of self.old.start).attempt.count + self.old.steps + 1 < 2 ^ 32 }
        ensures answer { result ≡ step_by (mode_in held.now) (next_fate (items program.now.guard) self.old) self.old }
        ensures made { IsMade (items program.now.guard) program.now.storage self.new }
        ensures now { now self.new ≡ (if is_done result then lent_turn (items program.now.guard) (now self.old)
            else now self.old) }
        ensures steps { self.new.steps ≡ (if is_done result then self.old.steps + 1 else self.old.steps) }
        ensures start { StartsAlike self.old self.new }
    {
        let Some(plain) = self.plain(program) else {
            return self.step_planned(program, held);
        };
        let ready = plain.ready;
        let need = operands_at(ready.shape, plain.first);
        self.step_going(&ready.instr, &need, program, held)
    }

    /// The same, by the plan of the instruction.
    #[cold]
    #[inline(never)]
    fn step_planned(&mut self, program: &Program, held: &LineMarks) -> RunStep
        requires made { IsMade (items program.now.guard) program.now.storage self.old }
        requires few { self.old.steps < 64 }
        requires completed { (local_of self.old.start).attempt.count + self.old.steps + 1 < 2 ^ 32 }
        ensures answer { result ≡ step_by (mode_in held.now) (next_fate (items program.now.guard) self.old) self.old }
        ensures made { IsMade (items program.now.guard) program.now.storage self.new }
        ensures now { now self.new ≡ (if is_done result then lent_turn (items program.now.guard) (now self.old)
            else now self.old) }
        ensures steps { self.new.steps ≡ (if is_done result then self.old.steps + 1 else self.old.steps) }
        ensures start { StartsAlike self.old self.new }
    {
        let Plan::Go { instr, need } = self.plan(program) else {
            return RunStep::Leave(Reason::AtHome);
        };
        self.step_going(&instr, &need, program, held)
    }

    /// The bytes of a line are these. No step has been made yet, and the line lies in no text page.
    fn copy_line(&mut self, line: u32, bytes: &[u8])
        requires line { line < storage_lines }
        requires size { length bytes.now ≡ 256 }
        requires none { self.old.steps ≡ 0 }
        ensures made { (text image : List ℕ) → list_any (nat_eq (line / 16)) text ≡ false → IsMade text image self.old
            → IsMade text image self.new }
        ensures bytes { (a : ℕ) → bytes_at self.new.own.now a ≡
            (if nat_eq (a / 256) line then line_bytes bytes.now a else bytes_at self.old.own.now a) }
        ensures start { self.new.start ≡ self.old.start }
        ensures reached { self.new.reached ≡ self.old.reached }
        ensures steps { self.new.steps ≡ self.old.steps }
    {
        self.own.copy_line(line, bytes);
    }

    /// The bytes of a line are these, unless it lies in a text page. No step has been made yet.
    pub(crate) fn take_line(&mut self, line: u32, program: &Program, bytes: &[u8])
        requires line { line < storage_lines }
        requires size { length bytes.now ≡ 256 }
        requires none { self.old.steps ≡ 0 }
        requires made { IsMade (items program.now.guard) program.now.storage self.old }
        ensures made { IsMade (items program.now.guard) program.now.storage self.new }
        ensures bytes { (a : ℕ) → bytes_at self.new.own.now a ≡ with_line (items program.now.guard) line
            (line_bytes bytes.now) (bytes_at self.old.own.now) a }
        ensures start { self.new.start ≡ self.old.start }
        ensures reached { self.new.reached ≡ self.old.reached }
        ensures steps { self.new.steps ≡ self.old.steps }
    {
        if program.guard().has(line / LINES_A_PAGE) {
            return;
        }
        self.copy_line(line, bytes);
    }
}
