//! A run: a CPU that is lent, with the lines that it holds, and the steps that it makes away from its machine.
ghost use Rattle.std.specs.Prelude.{◌≡◌, ℕ, ◌+◌, ◌<◌, ◌≤◌, ◌^◌, true, false, IfOk, IfSome, if◌then◌else◌, length, List, None, Some};
ghost use Rattle.std.specs.Prelude.{nat_eq};
ghost use Rattle.std.specs.List.{list_any};
ghost use Rattle.std.specs.FinSet.{items};
ghost use Rattle.std.specs.Arc.{arc_value};
ghost use Rattle.tx_serial.specs.Apply.{is_running};
ghost use Rattle.tx_cpu.specs.Parts.{local_of, beside};
ghost use Rattle.tx_marks.specs.Away.{GoAway, lent_turn, ran};
ghost use Rattle.tx_marks.specs.Stranger.{GoesOnLike, SeeAlike};
ghost use Rattle.tx_run.specs.Made.{AgreeOnPages, now, StartsAlike};
ghost use Rattle.byteorder.specs.Endian.{big_bytes};
ghost use Rattle.z_regs.specs.Prefix.{storage_size};
ghost use Rattle.z_regs.specs.Written.{range_at};
ghost use Rattle.line_table.specs.Sizes.{storage_lines};
ghost use Rattle.tx_marks.specs.Own.{bytes_at, given, is_touched, line_bytes};
ghost use Rattle.tx_marks.specs.Traces.{is_paged};
ghost use Rattle.tx_marks.specs.Marks.{mode_in};
ghost use Rattle.std.specs.Prelude.{◌≢◌};
ghost use Rattle.tx_progress.specs.Progress.{seen_through};
ghost use Rattle.tx_marks.specs.Traces.{below};
ghost use Rattle.tx_run.specs.Lent.{IsLent, IsLoaded, IsSameLoan, HasOneMore, step_of, is_done};

use crate::giving::give;
use crate::reason::{Reason, RunStep};
use crate::steps::{Steps, StepsRoom};
use line_table::Mode;
use std::alloc::Global;
use std::marker::Model;
use std::sync::Arc;
use tx_cpu::{Cpu, Program};
use tx_marks::{LineMarks, Need};
use z_regs::{Bytes, NoMemory, STORAGE_SIZE};

/// A byte that two CPUs see otherwise.
#[derive(Clone, Copy, Debug, PartialEq, Eq)]
pub struct Difference {
    /// Its absolute address.
    pub address: u64,
    /// What the CPU that is asked sees there.
    pub kept: u8,
    /// What the CPU that was lent has seen there.
    pub given: u8,
}

/// Memory for a run of a CPU, and the program that it runs. Little of it is written before the run is made. Contracts see the
/// CPU and the image.
#[derive(Drop)]
pub struct Room {
    program: Arc<Program>,
    cpu: u32,
    held: LineMarks,
    steps: StepsRoom,
}

impl Model for Room {
    ghost use Rattle.std.specs.Prelude.{◌≡◌, ℕ, None};
    ghost use Rattle.std.specs.Arc.{arc_value};
    ghost use Rattle.std.specs.Coded.{coded×, coded_ℕ};
    ghost use Rattle.tx_journal.specs.Content.{Content, content_code};
    ghost use Rattle.tx_marks.specs.Marks.{mode_in};

    ghost Value = { Content × ℕ };

    ghost coded = { coded× content_code coded_ℕ };

    ghost view = { λ r. (arc_value r.program, r.cpu) };

    ghost invariant = { λ r. (line : ℕ) → mode_in r.held line ≡ None };
}

impl Room {
    /// Memory for a run of this CPU, which runs this program. The error is want of it.
    pub fn reserve(alloc: Global, program: Arc<Program>, cpu: u32) -> Result<Room, NoMemory>
        ensures { IfOk result (λ r. (r.0 ≡ arc_value program) × (r.1 ≡ cpu)) }
    {
        let steps = StepsRoom::reserve(alloc)?;
        let held = LineMarks::open(alloc)?;
        Ok(Room {
            program,
            cpu,
            held,
            steps,
        })
    }

    /// The run. It was lent nothing yet: it may make no step. It takes no memory.
    pub fn make(self) -> Run
        ensures cpu { result.cpu ≡ self.1 }
        ensures image { result.image ≡ self.0.storage }
        ensures text { result.text ≡ items self.0.guard }
        ensures allowance { result.allowance ≡ 0 }
    {
        let Room {
            program,
            cpu,
            held,
            steps,
        } = self;
        let steps = steps.make(program.bytes());
        Run {
            program,
            cpu,
            turns: 0,
            attempt: 0,
            allowance: 0,
            held,
            steps,
        }
    }
}

/// A CPU that is lent, with the lines that it holds. Its steps are turns of that CPU on storage of the run's own. Contracts
/// see the text pages and the bytes of the image that it runs, what it was given, and what its steps have made.
#[derive(Drop)]
pub struct Run {
    program: Arc<Program>,
    cpu: u32,
    turns: u32,
    attempt: u32,
    allowance: u32,
    held: LineMarks,
    steps: Steps,
}

impl Model for Run {
    ghost use Rattle.std.specs.FinSet.{items};
    ghost use Rattle.std.specs.Arc.{arc_value};
    ghost use Rattle.tx_run.specs.Lent.{Lent, IsLent};

    ghost Value = { Lent };

    ghost view = { λ r. record {
      text = items (arc_value r.program).guard;
      image = (arc_value r.program).storage;
      cpu = r.cpu;
      turns = r.turns;
      attempt = r.attempt;
      allowance = r.allowance;
      held = r.held;
      made = r.steps;
    } };

    ghost invariant = { λ r. IsLent (items (arc_value r.program).guard) (arc_value r.program).storage r.allowance
        r.steps };
}

impl Run {
    /// A run of this CPU, which runs this program. It was lent nothing yet: it may make no step. The error is want of memory.
    pub fn open(alloc: Global, program: Arc<Program>, cpu: u32) -> Result<Run, NoMemory>
        ensures cpu { IfOk result (λ r. r.cpu ≡ cpu) }
        ensures image { IfOk result (λ r. r.image ≡ (arc_value program).storage) }
        ensures text { IfOk result (λ r. r.text ≡ items (arc_value program).guard) }
        ensures allowance { IfOk result (λ r. r.allowance ≡ 0) }
    {
        let room = Room::reserve(alloc, program, cpu)?;
        Ok(room.make())
    }

    /// The CPU that is lent.
    pub fn cpu(&self) -> u32
        ensures { result ≡ self.now.cpu }
    {
        self.cpu
    }

    /// The counted turns that it was lent with.
    pub fn turns(&self) -> u32
        ensures { result ≡ self.now.turns }
    {
        self.turns
    }

    /// The number of the attempt that it was lent with.
    pub fn attempt(&self) -> u32
        ensures { result ≡ self.now.attempt }
    {
        self.attempt
    }

    /// How many steps it has made.
    pub fn steps(&self) -> u32
        ensures value { result ≡ self.now.made.steps }
        ensures few { result ≤ self.now.allowance }
    {
        let _allowance = self.allowance;
        self.steps.count
    }

    /// The CPU as it was lent.
    pub fn start(&self) -> &Cpu
        ensures { result.now ≡ self.now.made.start }
    {
        self.steps.start()
    }

    /// The CPU as its steps have left it.
    pub fn reached(&self) -> &Cpu
        ensures { result.now ≡ self.now.made.reached }
    {
        self.steps.reached()
    }

    /// What holds of every run: its steps are so many turns of the CPU from its start on, no more than it may make.
    pub fn is_lent(&self)
        ensures { IsLent self.now.text self.now.image self.now.allowance self.now.made }
    {
        let _allowance = self.allowance;
    }

    /// The lowest line at or above `from` that its steps needed, and in which mode; None exactly where there is none.
    pub fn next_need(&self, from: u32) -> Option<(u32, Mode)>
        ensures found { IfSome result (λ p. (from ≤ p.0) × (mode_in self.now.made.needed p.0 ≡ Some p.1)) }
        ensures inside { IfSome result (λ p. p.0 < storage_lines) }
        ensures first { IfSome result (λ p. (line : ℕ) → from ≤ line → line < p.0
            → mode_in self.now.made.needed line ≡ None) }
        ensures none { result ≡ None → (line : ℕ) → from ≤ line → mode_in self.now.made.needed line ≡ None }
    {
        self.steps.needed.next(from)
    }

    /// The lowest byte at or above `from` of the instructions of its steps and of their operands, with its value before the
    /// first step; None exactly where there is none.
    pub fn next_byte(&self, from: u64) -> Option<(u64, u8)>
        ensures found { IfSome result (λ p. (from ≤ p.0)
            × ((is_touched self.now.made.own p.0 ≡ true) × (p.1 ≡ given self.now.made.own p.0))) }
        ensures inside { IfSome result (λ p. p.0 < storage_size) }
        ensures first { IfSome result (λ p. (a : ℕ) → from ≤ a → a < p.0 → is_touched self.now.made.own a ≡ false) }
        ensures none { result ≡ None → (a : ℕ) → from ≤ a → is_touched self.now.made.own a ≡ false }
    {
        self.steps.own.next(from)
    }

    /// The number in the eight bytes from an address on, each byte of `next_byte` with its value before the first step.
    fn before(&self, address: u64) -> u64
        requires { address + 8 ≤ storage_size }
        ensures { big_bytes 8 result ≡ range_at self.now.made.own.before address 8 }
    {
        self.steps.own.before(address)
    }

    /// Whether it is seen at one look that another CPU sees each byte of `next_byte` among the eight from an address on as the
    /// CPU that was lent has seen it before the first step: neither has a live attempt, so that no store waits, and these
    /// bytes make the same number.
    fn are_alike<V: Bytes>(&self, address: u64, other: &Cpu, base: &V) -> bool
        requires { length (V.bytes base.now) ≡ storage_size }
        ensures within { result ≡ true → address + 8 ≤ storage_size }
        ensures alike { result ≡ true → (a : ℕ) → address ≤ a → a < address + 8
            → is_touched self.now.made.own a ≡ true
            → seen_through (local_of other.now).attempt.overlay (bytes_at (V.bytes base.now)) a
            ≡ seen_through (local_of self.now.made.start).attempt.overlay (given self.now.made.own) a }
    {
        if address > STORAGE_SIZE - 8 {
            return false;
        }
        let start = self.start();
        if start.live().is_some() || other.live().is_some() {
            return false;
        }
        start.is_sound();
        other.is_sound();
        self.before(address) == base.word(address, 8)
    }

    /// The lowest byte of `next_byte` that another CPU sees otherwise over other storage than the CPU that was lent has seen it
    /// before the first step; None exactly where it sees all of them alike.
    pub fn first_difference<V: Bytes>(&self, other: &Cpu, base: &V) -> Option<Difference>
        requires size { length (V.bytes base.now) ≡ storage_size }
        ensures within { IfSome result (λ d. d.address < storage_size) }
        ensures touched { IfSome result (λ d. is_touched self.now.made.own d.address ≡ true) }
        ensures kept { IfSome result (λ d. d.kept ≡ seen_through (local_of other.now).attempt.overlay
            (bytes_at (V.bytes base.now)) d.address) }
        ensures given { IfSome result (λ d. d.given ≡ seen_through (local_of self.now.made.start).attempt.overlay
            (given self.now.made.own) d.address) }
        ensures differs { IfSome result (λ d. d.kept ≢ d.given) }
        ensures first { IfSome result (λ d. SeeAlike (below (is_touched self.now.made.own) d.address)
            (local_of self.now.made.start).attempt.overlay (given self.now.made.own)
            (local_of other.now).attempt.overlay (bytes_at (V.bytes base.now))) }
        ensures none { result ≡ None → SeeAlike (is_touched self.now.made.own)
            (local_of self.now.made.start).attempt.overlay (given self.now.made.own)
            (local_of other.now).attempt.overlay (bytes_at (V.bytes base.now)) }
    {
        let mut from = 0;
        while let Some((address, before)) = self.next_byte(from) {
            if self.are_alike(address, other, base) {
                from = address + 8;
                continue;
            }
            let given = self.start().stored(address).unwrap_or(before);
            let kept = other.seen(address, base);
            if kept != given {
                return Some(Difference {
                    address,
                    kept,
                    given,
                });
            }
            from = address + 1;
        }
        None
    }

    /// The lowest page at or above `from` that holds a byte of the instructions of its steps or of what these have stored, and
    /// whether it is a text page of the image that it runs; None exactly where there is none.
    pub fn next_page(&self, from: u32) -> Option<(u32, bool)>
        ensures found { IfSome result (λ p. (from ≤ p.0) × (is_paged self.now.made.traces p.0 ≡ true)) }
        ensures inside { IfSome result (λ p. p.0 < 256) }
        ensures text { IfSome result (λ p. p.1 ≡ list_any (nat_eq p.0) self.now.text) }
        ensures first { IfSome result (λ p. (page : ℕ) → from ≤ page → page < p.0
            → is_paged self.now.made.traces page ≡ false) }
        ensures none { result ≡ None → (page : ℕ) → from ≤ page → is_paged self.now.made.traces page ≡ false }
    {
        let page = self.steps.traces.next_page(from)?;
        Some((page, self.program.guard().has(page)))
    }

    /// Makes it a run without steps and without lines that starts from a running CPU, with the turns and the attempt that this
    /// has, and may make so many steps.
    pub fn load(&mut self, from: &Cpu, turns: u32, attempt: u32, allowance: u32)
        requires most { allowance ≤ 64 }
        requires counted { (local_of from.now).attempt.count + allowance < 2 ^ 32 }
        requires runs { is_running (local_of from.now).attempt.cpu.state ≡ true }
        ensures loaded { IsLoaded (local_of from.now) self.new }
        ensures given { (self.new.turns ≡ turns) × ((self.new.attempt ≡ attempt) × (self.new.allowance ≡ allowance)) }
        ensures stays { (self.new.cpu ≡ self.old.cpu) × ((self.new.text ≡ self.old.text) × (self.new.image ≡ self.old.image)) }
    {
        self.turns = turns;
        self.attempt = attempt;
        self.allowance = allowance;
        self.held.clear();
        self.steps.load(from);
    }

    /// Gives it a line, with these bytes, which are 256. Bytes of text pages stay those of the image. No step has been made yet.
    pub fn hold(&mut self, need: Need, bytes: &[u8])
        requires line { need.line < storage_lines }
        requires size { length bytes.now ≡ 256 }
        requires none { self.old.made.steps ≡ 0 }
        ensures { HasOneMore need (line_bytes bytes.now) self.old self.new }
    {
        let _allowance = self.allowance;
        self.steps.take_line(need.line, &self.program, bytes);
        self.held.add(need);
    }

    /// Gives what its steps have made to another CPU and other storage. The CPU goes on like the one that was lent: the registers,
    /// the open begins, the footprint, what constraints ask and the number of completed instructions are the same; and each byte
    /// of `next_byte` is the one that it sees over that storage. Then it has made as many turns as the run has steps, each of
    /// which could have been made away, with the lines that the run has needed: turns by any text pages that are those of the
    /// run's image among the pages of `next_page`.
    pub fn give<V: Bytes>(&self, into: &mut Cpu, base: &mut V)
        requires like { GoesOnLike (local_of self.now.made.start).attempt (local_of into.old).attempt }
        requires alike { SeeAlike (is_touched self.now.made.own) (local_of self.now.made.start).attempt.overlay
            (given self.now.made.own) (local_of into.old).attempt.overlay (bytes_at (V.bytes base.old)) }
        requires size { length (V.bytes base.old) ≡ storage_size }
        ensures given { (text : List ℕ) → AgreeOnPages (is_paged self.now.made.traces) self.now.text text
            → beside into.new (V.bytes base.new) ≡ ran text self.now.made.steps (beside into.old (V.bytes base.old)) }
        ensures away { (text : List ℕ) → AgreeOnPages (is_paged self.now.made.traces) self.now.text text
            → GoAway text (mode_in self.now.made.needed) self.now.made.steps (beside into.old (V.bytes base.old)) }
        ensures count { (local_of into.new).attempt.count ≡ (local_of self.now.made.reached).attempt.count }
        ensures size { length (V.bytes base.new) ≡ storage_size }
    {
        let _allowance = self.allowance;
        give(&self.steps, &self.program, into, base);
    }

    /// What the next instruction comes to, where the run may make a step more.
    fn try_step(&mut self) -> RunStep
        requires { self.old.made.steps < self.old.allowance }
        ensures answer { result ≡ step_of false self.old }
        ensures made { now self.new.made ≡
            (if is_done result then lent_turn self.old.text (now self.old.made) else now self.old.made) }
        ensures steps { self.new.made.steps ≡ (if is_done result then self.old.made.steps + 1 else self.old.made.steps) }
        ensures start { StartsAlike self.old.made self.new.made }
        ensures stays { IsSameLoan self.old self.new }
    {
        let _allowance = self.allowance;
        self.steps.step(&self.program, &self.held)
    }

    /// Makes one step, or leaves. The first of these tests that holds says why: the run is called home; it has made as many
    /// steps as it may; the next instruction is one that is made at home, or does not go; it needs a line that the run does not
    /// hold so; it does not complete. A run that leaves is as it was.
    pub fn step(&mut self, called: bool) -> RunStep
        ensures answer { result ≡ step_of called self.old }
        ensures made { now self.new.made ≡
            (if is_done result then lent_turn self.old.text (now self.old.made) else now self.old.made) }
        ensures steps { self.new.made.steps ≡ (if is_done result then self.old.made.steps + 1 else self.old.made.steps) }
        ensures start { StartsAlike self.old.made self.new.made }
        ensures stays { IsSameLoan self.old self.new }
    {
        if called {
            return RunStep::Leave(Reason::CalledHome);
        }
        if self.steps.count >= self.allowance {
            return RunStep::Leave(Reason::Allowance);
        }
        self.try_step()
    }
}
