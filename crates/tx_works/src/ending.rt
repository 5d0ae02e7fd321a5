//! The end of an attempt.
ghost use Rattle.std.specs.Prelude.{◌≡◌, ◌+◌, ◌<◌, ◌++◌, ◌∷◌, [], true, false, length};
ghost use Rattle.tx_lines.specs.Plans.{HasRoom};
ghost use Rattle.tx_ladder.specs.Rungs.{next_rung};
ghost use Rattle.tx_ladder.specs.Waiting.{waits_in};
ghost use Rattle.tx_progress.specs.Local.{aborted};
ghost use Rattle.tx_meaning.specs.Changes.{without_head, head_to_tail};
ghost use Rattle.tx_meaning.specs.State.{is_live};
ghost use Rattle.tx_keeping.specs.Kept.{beside};
ghost use Rattle.tx_keeping.specs.Moves.{k_aborting, k_committing};
ghost use Rattle.tx_works.specs.Ready.{MayClimb, MayEndBy};
ghost use Rattle.tx_works.specs.Steps.{k_left, k_delayed, k_raised, k_climbed, k_lowered, k_descended};
ghost use Rattle.tx_works.specs.Steps.{rung_after, k_on_rung};
ghost use Rattle.tx_works.specs.Works.{Seat, kept_by, IsSameSize, KeepsBooks};

use crate::works::Works;
use tx_control::Why;
use tx_journal::Entry;
use tx_ladder::Next;

/// What the cause of an abort is to the place of a CPU on the retry ladder.
#[derive(Clone, Copy)]
pub enum Rung {
    /// A conflict: it climbs.
    Climbs,
    /// A program interruption: a constrained transaction is at its end.
    Descends,
    /// Neither.
    Stays,
}

fn rung_after(why: Why) -> Rung
    ensures { result ≡ rung_after why }
{
    match why {
        Why::FetchConflict(_) => Rung::Climbs,
        Why::StoreConflict(_) => Rung::Climbs,
        Why::Starved => Rung::Climbs,
        Why::Program(_) => Rung::Descends,
        Why::External => Rung::Stays,
        Why::FetchOverflow => Rung::Stays,
        Why::StoreOverflow => Rung::Stays,
        Why::Restricted => Rung::Stays,
        Why::Filtered(_) => Rung::Stays,
        Why::Depth => Rung::Stays,
        Why::Tabort(_) => Rung::Stays,
    }
}

impl Works {
    /// One more entry of the history.
    pub(crate) fn write(&mut self, entry: Entry)
        requires { length self.old.history < self.old.room }
        ensures { self.new ≡ record self.old { history = self.old.history ++ entry ∷ [] } }
    {
        self.history.push_reserved(entry);
    }

    /// The program of a CPU waits for so many turns.
    pub(crate) fn delay(&mut self, cpu: u32, turns: u32)
        requires { cpu < length self.old.slots }
        ensures value { (rest : Seat) → kept_by rest self.new ≡ k_delayed cpu turns (kept_by rest self.old) }
        ensures books { KeepsBooks self.old self.new }
    {
        let slot = &mut self.slots[cpu as usize];
        slot.tally.delay = turns;
    }

    /// A conflict is counted on the ladder of a CPU.
    fn raise(&mut self, cpu: u32) -> Next
        requires cpu { cpu < length self.old.slots }
        requires climbs { (rest : Seat) → MayClimb (kept_by rest self.old) cpu }
        ensures next { (rest : Seat) → result ≡ next_rung ((kept_by rest self.old).standings cpu) }
        ensures value { (rest : Seat) → kept_by rest self.new ≡ k_raised cpu (kept_by rest self.old) }
        ensures books { KeepsBooks self.old self.new }
    {
        let slot = &mut self.slots[cpu as usize];
        slot.ladder.conflict()
    }

    /// A CPU joins the stop queue.
    fn join(&mut self, cpu: u32)
        requires cpu { cpu < length self.old.slots }
        requires out { waits_in self.old.queue cpu ≡ false }
        ensures { self.new ≡ record self.old { queue = self.old.queue ++ cpu ∷ [] } }
    {
        self.queue.join(cpu);
    }

    /// The CPU leaves the stop queue, where it is its head.
    fn leave(&mut self, cpu: u32)
        ensures { self.new ≡ record self.old { queue = without_head cpu self.old.queue } }
    {
        if self.queue.head() == Some(cpu) {
            self.queue.leave();
        }
    }

    /// The CPU goes to the tail of the stop queue, where it is its head.
    pub(crate) fn to_tail(&mut self, cpu: u32)
        ensures { self.new ≡ record self.old { queue = head_to_tail cpu self.old.queue } }
    {
        if self.queue.head() == Some(cpu) {
            self.queue.to_tail();
        }
    }

    /// The ladder of a CPU begins anew, where its attempt is constrained. Says whether it is.
    fn lower(&mut self, cpu: u32) -> bool
        requires { cpu < length self.old.slots }
        ensures constrained { (rest : Seat) → result ≡ ((kept_by rest self.old).standings cpu).constrained }
        ensures value { (rest : Seat) → kept_by rest self.new ≡ k_lowered cpu (kept_by rest self.old) }
        ensures books { KeepsBooks self.old self.new }
    {
        let slot = &mut self.slots[cpu as usize];
        let constrained = slot.ladder.is_constrained();
        if constrained {
            slot.ladder.commit();
        }
        constrained
    }

    /// A conflict moves a CPU on the ladder, and with that to a delay or into the stop queue.
    fn climb(&mut self, cpu: u32)
        requires cpu { cpu < length self.old.slots }
        requires climbs { (rest : Seat) → MayClimb (kept_by rest self.old) cpu }
        ensures value { (rest : Seat) → kept_by rest self.new ≡ k_climbed cpu (kept_by rest self.old) }
        ensures books { KeepsBooks self.old self.new }
    {
        match self.raise(cpu) {
            Next::Plain => {}
            Next::Delay(turns) => self.delay(cpu, turns),
            Next::Queue => self.join(cpu),
        }
    }

    /// A constrained transaction of a CPU is at its end: its ladder begins anew, and it leaves the stop queue.
    pub(crate) fn descend(&mut self, cpu: u32)
        requires { cpu < length self.old.slots }
        ensures value { (rest : Seat) → kept_by rest self.new ≡ k_descended cpu (kept_by rest self.old) }
        ensures books { KeepsBooks self.old self.new }
    {
        if self.lower(cpu) {
            self.leave(cpu);
        }
    }

    /// The cause of an abort moves a CPU on the ladder.
    fn move_by_cause(&mut self, cpu: u32, why: Why)
        requires cpu { cpu < length self.old.slots }
        requires climbs { (rest : Seat) → MayEndBy why (kept_by rest self.old) cpu }
        ensures value { (rest : Seat) → kept_by rest self.new ≡
            k_on_rung (rung_after why) cpu (kept_by rest self.old) }
        ensures books { KeepsBooks self.old self.new }
    {
        match rung_after(why) {
            Rung::Climbs => self.climb(cpu),
            Rung::Descends => self.descend(cpu),
            Rung::Stays => {}
        }
    }

    /// The live attempt of a CPU ends, aborted for this cause. Gives how many instructions it had completed.
    fn end_attempt(&mut self, cpu: u32, why: Why, at: u64) -> u32
        requires cpu { cpu < length self.old.slots }
        requires live { (rest : Seat) → is_live (kept_by rest self.old).state cpu ≡ true }
        requires code { HasRoom why }
        ensures count { (rest : Seat) → result ≡ ((kept_by rest self.old).locals cpu).attempt.count }
        ensures value { (rest : Seat) → let k = kept_by rest self.old in
            kept_by rest self.new ≡ k_left cpu (aborted why at (beside k cpu)) k }
        ensures books { KeepsBooks self.old self.new }
    {
        let slot = &mut self.slots[cpu as usize];
        self.lines.abort(cpu, &mut slot.cpu, why, at)
    }

    /// The live attempt of a CPU is aborted for this cause; `at` is the address of the instruction that the
    /// diagnostic block tells of. A conflict moves the CPU on the retry ladder; a program interruption of a
    /// constrained transaction takes it from the head of the stop queue.
    pub fn abort(&mut self, cpu: u32, why: Why, at: u64)
        requires cpu { cpu < length self.old.slots }
        requires live { (rest : Seat) → is_live (kept_by rest self.old).state cpu ≡ true }
        requires code { HasRoom why }
        requires climbs { (rest : Seat) → MayEndBy why (kept_by rest self.old) cpu }
        requires room { length self.old.history < self.old.room }
        ensures value { (rest : Seat) → kept_by rest self.new ≡ k_aborting cpu why at (kept_by rest self.old) }
        ensures written { length self.new.history ≡ length self.old.history + 1 }
        ensures size { IsSameSize self.old self.new }
    {
        let count = self.end_attempt(cpu, why, at);
        self.move_by_cause(cpu, why);
        self.write(Entry::Abort(cpu, count, why));
    }
}
