//! An instruction that goes, and whose lines are there.
ghost use Rattle.std.specs.Prelude.{◌≡◌, ◌<◌, List, None, true, false, is_some, length};
ghost use Rattle.z_regs.specs.declared.ranges.Range.{Range};
ghost use Rattle.z_instr.specs.declared.instr.Instr.{Instr};
ghost use Rattle.tx_journal.specs.declared.entries.Entry.TheVariants as entry;
ghost use Rattle.tx_lines.specs.Plans.{HasDoneRoom, IsPrepared};
ghost use Rattle.tx_lines.specs.Going.{GoesThere, told_or};
ghost use Rattle.tx_program.specs.Shapes.{is_placed};
ghost use Rattle.tx_progress.specs.Doing.{executed};
ghost use Rattle.tx_progress.specs.Progress.{resting};
ghost use Rattle.tx_meaning.specs.State.{is_live};
ghost use Rattle.tx_keeping.specs.Kept.{Kept, beside};
ghost use Rattle.tx_keeping.specs.Turn.{k_executing, next_address};
ghost use Rattle.tx_works.specs.Executing.{MayExecute, LeftBy, IsLeft, operand_by};
ghost use Rattle.tx_works.specs.Steps.{k_left, k_begun, k_written, k_descended};
ghost use Rattle.tx_works.specs.Turned.{turned_as};
ghost use Rattle.tx_works.specs.Works.{Seat, kept_by, IsSameSize, KeepsBooks};

use crate::acting::{Turned, without_reject};
use crate::works::Works;
use tx_journal::Entry;
use tx_lines::{Done, Plain, add_operand};
use tx_meaning::Outcome;
use z_instr::instr::Instr;
use z_regs::Touches;

impl Works {
    /// Whether a constrained attempt of the CPU is live.
    fn is_constrained(&self, cpu: u32) -> bool
        requires { cpu < length self.now.slots }
        ensures { (rest : Seat) → result ≡ is_some ((kept_by rest self.now).locals cpu).attempt.constraint }
    {
        let slot = &self.slots[cpu as usize];
        slot.cpu.constrained()
    }

    /// The CPU executes an instruction that is prepared. Nothing is written down yet.
    #[inline(always)]
    fn run(&mut self, cpu: u32, instr: &Instr, need: &Touches) -> Done
        requires cpu { cpu < length self.old.slots }
        requires may { (rest : Seat) → MayExecute cpu instr.now need.now (kept_by rest self.old) }
        ensures told { (rest : Seat) → let k = kept_by rest self.old in
            result ≡ (executed instr.now need.now (beside k cpu)).told }
        ensures value { (rest : Seat) → let k = kept_by rest self.old in
            kept_by rest self.new ≡ k_left cpu (executed instr.now need.now (beside k cpu)).after k }
        ensures code { HasDoneRoom result }
        ensures books { KeepsBooks self.old self.new }
    {
        let slot = &mut self.slots[cpu as usize];
        self.lines.execute(cpu, &mut slot.cpu, instr, need)
    }

    /// The CPU executes a plain instruction that is prepared, inside a transaction. True where it is simply completed; else `aside`
    /// has what it tells.
    #[inline(always)]
    fn run_plainly(&mut self, cpu: u32, plain: &Plain, aside: &mut Done) -> bool
        requires cpu { cpu < length self.old.slots }
        requires live { (rest : Seat) → is_live (kept_by rest self.old).state cpu ≡ true }
        requires may { (rest : Seat) → MayExecute cpu plain.now.ready.now.instr
            (operand_by plain.now.ready.now.shape plain.now.first) (kept_by rest self.old) }
        ensures told { (rest : Seat) → let k = kept_by rest self.old in
            told_or result aside.new ≡ (executed plain.now.ready.now.instr
            (operand_by plain.now.ready.now.shape plain.now.first) (beside k cpu)).told }
        ensures value { (rest : Seat) → let k = kept_by rest self.old in
            kept_by rest self.new ≡ k_left cpu (executed plain.now.ready.now.instr
            (operand_by plain.now.ready.now.shape plain.now.first) (beside k cpu)).after k }
        ensures code { HasDoneRoom (told_or result aside.new) }
        ensures books { KeepsBooks self.old self.new }
    {
        let slot = &mut self.slots[cpu as usize];
        self.lines.execute_plainly(cpu, &mut slot.cpu, plain, aside)
    }

    /// Whether a plain instruction may be executed on storage as it is: it is not about transactions, and an attempt that is live
    /// sees its operand there, into which nothing is stored.
    #[inline(always)]
    fn goes_there(&self, cpu: u32, plain: &Plain) -> bool
        requires cpu { cpu < length self.now.slots }
        requires bare { (rest : Seat) → ((kept_by rest self.now).locals cpu).attempt.cpu.prefix ≡ None }
        requires placed { is_placed plain.now.ready.now.shape plain.now.first ≡ true }
        ensures { (rest : Seat) → result ≡ true → GoesThere ((kept_by rest self.now).locals cpu).attempt
            plain.now.ready.now.instr (operand_by plain.now.ready.now.shape plain.now.first) }
    {
        self.slots[cpu as usize].cpu.goes_there(plain)
    }

    /// The CPU executes a plain instruction that is prepared, on storage as it is. True where it is simply completed; else `aside`
    /// has what it tells.
    #[inline(always)]
    fn run_there(&mut self, cpu: u32, plain: &Plain, aside: &mut Done) -> bool
        requires cpu { cpu < length self.old.slots }
        requires may { (rest : Seat) → MayExecute cpu plain.now.ready.now.instr
            (operand_by plain.now.ready.now.shape plain.now.first) (kept_by rest self.old) }
        requires there { (rest : Seat) → GoesThere ((kept_by rest self.old).locals cpu).attempt
            plain.now.ready.now.instr (operand_by plain.now.ready.now.shape plain.now.first) }
        ensures told { (rest : Seat) → let k = kept_by rest self.old in
            told_or result aside.new ≡ (executed plain.now.ready.now.instr
            (operand_by plain.now.ready.now.shape plain.now.first) (beside k cpu)).told }
        ensures value { (rest : Seat) → let k = kept_by rest self.old in
            kept_by rest self.new ≡ k_left cpu (executed plain.now.ready.now.instr
            (operand_by plain.now.ready.now.shape plain.now.first) (beside k cpu)).after k }
        ensures code { HasDoneRoom (told_or result aside.new) }
        ensures books { KeepsBooks self.old self.new }
    {
        let slot = &mut self.slots[cpu as usize];
        self.lines.execute_there(cpu, &mut slot.cpu, plain, aside)
    }

    /// An attempt of this kind has begun.
    fn count_begin(&mut self, cpu: u32, constrained: bool)
        requires cpu { cpu < length self.old.slots }
        requires counts { (rest : Seat) → let n = (kept_by rest self.old).state.numbers cpu in
            n.attempts < n.turns }
        ensures value { (rest : Seat) → kept_by rest self.new ≡ k_begun cpu constrained (kept_by rest self.old) }
        ensures books { KeepsBooks self.old self.new }
    {
        let slot = &mut self.slots[cpu as usize];
        slot.ladder.begin(constrained);
        slot.tally.attempts += 1;
    }

    /// An attempt of the CPU is committed, after so many instructions.
    fn commit(&mut self, cpu: u32, count: u32)
        requires cpu { cpu < length self.old.slots }
        requires room { length self.old.history < self.old.room }
        ensures value { (rest : Seat) → kept_by rest self.new ≡
            k_written (entry.Commit cpu count) (k_descended cpu (kept_by rest self.old)) }
        ensures size { IsSameSize self.old self.new }
    {
        self.descend(cpu);
        self.write(Entry::Commit(cpu, count));
    }

    /// What comes of the turn, where the CPU has executed an instruction inside a transaction that tells this; it stood at `at`.
    #[inline(always)]
    fn tell_inside(&mut self, cpu: u32, at: u64, told: &Done, turned: &mut Turned)
        requires cpu { cpu < length self.old.slots }
        requires left { (rest : Seat) → IsLeft cpu true told.now (kept_by rest self.old) }
        requires code { HasDoneRoom told.now }
        requires room { length self.old.history < self.old.room }
        ensures value { (rest : Seat) (instr : Instr) (need : List Range) (before : Kept)
            → LeftBy cpu true told.now instr need before (kept_by rest self.old) → at ≡ next_address before cpu
            → turned_as (kept_by rest self.new) turned.new ≡ k_executing cpu instr need before }
        ensures size { IsSameSize self.old self.new }
    {
        match *told {
            Done::Stepped => *turned = without_reject(Outcome::Executed),
            Done::Committed(count) => {
                self.commit(cpu, count);
                *turned = without_reject(Outcome::Executed);
            }
            Done::Ended(why) => self.end_by(cpu, why, at, turned),
            Done::Began => *turned = without_reject(Outcome::Executed),
            Done::Paused(_) => *turned = without_reject(Outcome::Executed),
            Done::Interrupted(_) => *turned = without_reject(Outcome::Executed),
        }
    }

    /// What comes of the turn, where the CPU has executed an instruction outside transactions that tells this.
    #[inline(always)]
    fn tell_outside(&mut self, cpu: u32, told: Done, turned: &mut Turned)
        requires cpu { cpu < length self.old.slots }
        requires left { (rest : Seat) → IsLeft cpu false told (kept_by rest self.old) }
        requires room { length self.old.history < self.old.room }
        ensures value { (rest : Seat) (instr : Instr) (need : List Range) (before : Kept)
            → LeftBy cpu false told instr need before (kept_by rest self.old)
            → turned_as (kept_by rest self.new) turned.new ≡ k_executing cpu instr need before }
        ensures size { IsSameSize self.old self.new }
    {
        match told {
            Done::Began => {
                let constrained = self.is_constrained(cpu);
                self.count_begin(cpu, constrained);
                *turned = without_reject(Outcome::Executed);
            }
            Done::Stepped => {
                self.write(Entry::Step(cpu));
                *turned = without_reject(Outcome::Executed);
            }
            Done::Paused(turns) => {
                self.write(Entry::Step(cpu));
                self.delay(cpu, turns);
                *turned = without_reject(Outcome::Executed);
            }
            Done::Interrupted(code) => {
                self.write(Entry::Step(cpu));
                *turned = without_reject(Outcome::Interrupted { code });
            }
            Done::Committed(_) => *turned = without_reject(Outcome::Executed),
            Done::Ended(_) => *turned = without_reject(Outcome::Executed),
        }
    }

    /// What comes of the turn, where the CPU has executed an instruction that tells this, inside a transaction or outside.
    #[inline(always)]
    fn tell(&mut self, cpu: u32, live: bool, at: u64, told: Done, turned: &mut Turned)
        requires cpu { cpu < length self.old.slots }
        requires left { (rest : Seat) → IsLeft cpu live told (kept_by rest self.old) }
        requires code { HasDoneRoom told }
        requires room { length self.old.history < self.old.room }
        ensures value { (rest : Seat) (instr : Instr) (need : List Range) (before : Kept)
            → LeftBy cpu live told instr need before (kept_by rest self.old) → at ≡ next_address before cpu
            → turned_as (kept_by rest self.new) turned.new ≡ k_executing cpu instr need before }
        ensures size { IsSameSize self.old self.new }
    {
        if live {
            return self.tell_inside(cpu, at, &told, turned);
        }
        self.tell_outside(cpu, told, turned);
    }

    /// The same, of an instruction that is not simply completed.
    #[cold]
    #[inline(never)]
    fn tell_aside(&mut self, cpu: u32, live: bool, at: u64, told: &Done, turned: &mut Turned)
        requires cpu { cpu < length self.old.slots }
        requires left { (rest : Seat) → IsLeft cpu live told.now (kept_by rest self.old) }
        requires code { HasDoneRoom told.now }
        requires room { length self.old.history < self.old.room }
        ensures value { (rest : Seat) (instr : Instr) (need : List Range) (before : Kept)
            → LeftBy cpu live told.now instr need before (kept_by rest self.old) → at ≡ next_address before cpu
            → turned_as (kept_by rest self.new) turned.new ≡ k_executing cpu instr need before }
        ensures size { IsSameSize self.old self.new }
    {
        self.tell(cpu, live, at, *told, turned);
    }

    /// The CPU executes an instruction that is prepared, and whose lines are there. What came of the turn is
    /// written where the caller keeps it.
    #[inline(never)]
    pub(crate) fn execute(&mut self, cpu: u32, instr: &Instr, need: &Touches, turned: &mut Turned)
        requires cpu { cpu < length self.old.slots }
        requires prepared { (rest : Seat) →
            IsPrepared ((kept_by rest self.old).locals cpu).attempt instr.now need.now }
        requires rested { (rest : Seat) → let k = kept_by rest self.old in is_live k.state cpu ≡ false
            → (k.locals cpu).attempt ≡ resting (k.locals cpu).cpu }
        requires counts { (rest : Seat) → let n = (kept_by rest self.old).state.numbers cpu in
            n.completed < n.turns }
        requires begins { (rest : Seat) → let n = (kept_by rest self.old).state.numbers cpu in
            n.attempts < n.turns }
        requires room { length self.old.history < self.old.room }
        ensures value { (rest : Seat) → turned_as (kept_by rest self.new) turned.new ≡
            k_executing cpu instr.now need.now (kept_by rest self.old) }
        ensures size { IsSameSize self.old self.new }
    {
        let live = self.is_live(cpu);
        let at = self.next_address(cpu);
        let told = self.run(cpu, instr, need);
        self.tell(cpu, live, at, told, turned);
    }

    /// The CPU executes a plain instruction that is prepared, inside a transaction.
    #[inline(always)]
    fn execute_plainly_inside(&mut self, cpu: u32, plain: &Plain, turned: &mut Turned)
        requires cpu { cpu < length self.old.slots }
        requires live { (rest : Seat) → is_live (kept_by rest self.old).state cpu ≡ true }
        requires may { (rest : Seat) → MayExecute cpu plain.now.ready.now.instr
            (operand_by plain.now.ready.now.shape plain.now.first) (kept_by rest self.old) }
        requires room { length self.old.history < self.old.room }
        ensures value { (rest : Seat) → turned_as (kept_by rest self.new) turned.new ≡
            k_executing cpu plain.now.ready.now.instr (operand_by plain.now.ready.now.shape plain.now.first)
            (kept_by rest self.old) }
        ensures size { IsSameSize self.old self.new }
    {
        let at = self.next_address(cpu);
        let mut aside = Done::Stepped;
        if self.run_plainly(cpu, plain, &mut aside) {
            return self.tell_inside(cpu, at, &Done::Stepped, turned);
        }
        self.tell_aside(cpu, true, at, &aside, turned);
    }

    /// The CPU executes a plain instruction that is prepared, on storage as it is, inside a transaction or outside.
    #[inline(always)]
    fn execute_there(&mut self, cpu: u32, plain: &Plain, turned: &mut Turned)
        requires cpu { cpu < length self.old.slots }
        requires may { (rest : Seat) → MayExecute cpu plain.now.ready.now.instr
            (operand_by plain.now.ready.now.shape plain.now.first) (kept_by rest self.old) }
        requires there { (rest : Seat) → GoesThere ((kept_by rest self.old).locals cpu).attempt
            plain.now.ready.now.instr (operand_by plain.now.ready.now.shape plain.now.first) }
        requires room { length self.old.history < self.old.room }
        ensures value { (rest : Seat) → turned_as (kept_by rest self.new) turned.new ≡
            k_executing cpu plain.now.ready.now.instr (operand_by plain.now.ready.now.shape plain.now.first)
            (kept_by rest self.old) }
        ensures size { IsSameSize self.old self.new }
    {
        let live = self.is_live(cpu);
        let at = self.next_address(cpu);
        let mut aside = Done::Stepped;
        if self.run_there(cpu, plain, &mut aside) {
            return self.tell(cpu, live, at, Done::Stepped, turned);
        }
        self.tell_aside(cpu, live, at, &aside, turned);
    }

    /// The CPU executes a plain instruction that is prepared, and whose line is there, away from the shorter ways: one about
    /// transactions, or one whose line has been asked for.
    pub(crate) fn execute_apart(&mut self, cpu: u32, plain: &Plain, turned: &mut Turned)
        requires cpu { cpu < length self.old.slots }
        requires prepared { (rest : Seat) →
            IsPrepared ((kept_by rest self.old).locals cpu).attempt plain.now.ready.now.instr
            (operand_by plain.now.ready.now.shape plain.now.first) }
        requires rested { (rest : Seat) → let k = kept_by rest self.old in is_live k.state cpu ≡ false
            → (k.locals cpu).attempt ≡ resting (k.locals cpu).cpu }
        requires counts { (rest : Seat) → let n = (kept_by rest self.old).state.numbers cpu in
            n.completed < n.turns }
        requires begins { (rest : Seat) → let n = (kept_by rest self.old).state.numbers cpu in
            n.attempts < n.turns }
        requires room { length self.old.history < self.old.room }
        ensures value { (rest : Seat) → turned_as (kept_by rest self.new) turned.new ≡
            k_executing cpu plain.now.ready.now.instr (operand_by plain.now.ready.now.shape plain.now.first)
            (kept_by rest self.old) }
        ensures size { IsSameSize self.old self.new }
    {
        let mut need = Touches::none();
        add_operand(&mut need, plain.ready.shape, plain.first);
        self.execute(cpu, &plain.ready.instr, &need, turned);
    }

    /// The CPU executes a plain instruction that is prepared, and whose line is there. Most are executed on storage as it is;
    /// apart from that go those about transactions, and inside a transaction those that store, or whose operand lies where the
    /// attempt has stored.
    #[inline(always)]
    pub(crate) fn perform_plainly(&mut self, cpu: u32, plain: &Plain, turned: &mut Turned)
        requires cpu { cpu < length self.old.slots }
        requires prepared { (rest : Seat) →
            IsPrepared ((kept_by rest self.old).locals cpu).attempt plain.now.ready.now.instr
            (operand_by plain.now.ready.now.shape plain.now.first) }
        requires rested { (rest : Seat) → let k = kept_by rest self.old in is_live k.state cpu ≡ false
            → (k.locals cpu).attempt ≡ resting (k.locals cpu).cpu }
        requires counts { (rest : Seat) → let n = (kept_by rest self.old).state.numbers cpu in
            n.completed < n.turns }
        requires begins { (rest : Seat) → let n = (kept_by rest self.old).state.numbers cpu in
            n.attempts < n.turns }
        requires room { length self.old.history < self.old.room }
        requires bare { (rest : Seat) → ((kept_by rest self.old).locals cpu).attempt.cpu.prefix ≡ None }
        requires placed { is_placed plain.now.ready.now.shape plain.now.first ≡ true }
        ensures value { (rest : Seat) → turned_as (kept_by rest self.new) turned.new ≡
            k_executing cpu plain.now.ready.now.instr (operand_by plain.now.ready.now.shape plain.now.first)
            (kept_by rest self.old) }
        ensures size { IsSameSize self.old self.new }
    {
        if self.goes_there(cpu, plain) {
            return self.execute_there(cpu, plain, turned);
        }
        if self.is_live(cpu) {
            return self.execute_plainly_inside(cpu, plain, turned);
        }
        self.execute_apart(cpu, plain, turned);
    }
}
