//! A turn of a CPU, and an event.
ghost use Rattle.std.specs.Prelude.{◌≡◌, ◌<◌, None, length};
ghost use Rattle.tx_meaning.specs.Limits.{Setting, RunLimits};
ghost use Rattle.tx_meaning.specs.Turn.{is_tick};
ghost use Rattle.tx_journal.specs.Image.{cpu_of_event};
ghost use Rattle.tx_keeping.specs.Turn.{k_counted_turn, k_turn, k_idle, k_happen};
ghost use Rattle.tx_works.specs.InTurn.{MayAct};
ghost use Rattle.tx_works.specs.Ready.{MayTurn, owed};
ghost use Rattle.tx_works.specs.Turned.{turned_as};
ghost use Rattle.tx_works.specs.Works.{Seat, kept_by, IsSameSize};

use crate::acting::{Turned, without_reject};
use crate::works::Works;
use tx_journal::Event;
use tx_lines::Program;
use tx_meaning::{Limits, Outcome};

/// Whether a tick comes with the turn of this number.
pub fn is_tick(limits: Limits, turns: u32) -> bool
    ensures { result ≡ is_tick limits turns }
{
    if limits.tick == 0 {
        return false;
    }
    turns % limits.tick == 0
}

impl Works {
    /// A turn that is counted: a tick comes, or the program waits, or the CPU acts.
    #[inline(always)]
    fn counted_turn(&mut self, cpu: u32, program: &Program, limits: Limits, turned: &mut Turned)
        requires cpu { cpu < length self.old.slots }
        requires turns { (rest : Seat) (limits : RunLimits) →
            MayTurn (record { image = program.now; limits = limits }) cpu (kept_by rest self.old) }
        requires acts { (rest : Seat) → MayAct cpu self.old rest }
        requires cpus { length program.now.cpus ≡ length self.old.slots }
        ensures value { (rest : Seat) → let m : Setting = record { image = program.now; limits = limits } in
            turned_as (kept_by rest self.new) turned.new ≡ k_counted_turn m cpu (kept_by rest self.old) }
        ensures size { IsSameSize self.old self.new }
    {
        let turns = self.turns(cpu);
        if is_tick(limits, turns) {
            return self.tick(cpu, turned);
        }
        if self.delay_of(cpu) > 0 {
            self.wait(cpu);
            *turned = without_reject(Outcome::Delayed);
            return;
        }
        self.act(cpu, program, turned);
    }

    /// A turn of a CPU that is not idle: it is recorded and counted.
    #[inline(always)]
    pub fn turn(&mut self, cpu: u32, program: &Program, limits: Limits) -> Turned
        requires cpu { cpu < length self.old.slots }
        requires cpus { length program.now.cpus ≡ length self.old.slots }
        requires ready { (rest : Seat) → let m : Setting = record { image = program.now; limits = limits } in
            k_idle m (kept_by rest self.old) cpu ≡ None }
        requires turns { (rest : Seat) → let m : Setting = record { image = program.now; limits = limits } in
            MayTurn m cpu (kept_by rest self.old) }
        requires room { (rest : Seat) → owed self.old (kept_by rest self.old) < self.old.room }
        requires events { length self.old.events < self.old.events_room }
        ensures value { (rest : Seat) → let m : Setting = record { image = program.now; limits = limits } in
            turned_as (kept_by rest self.new) result ≡ k_turn m cpu (kept_by rest self.old) }
        ensures size { IsSameSize self.old self.new }
    {
        let _most = limits.turns;
        let mut turned = without_reject(Outcome::Executed);
        self.note(Event::Turn(cpu));
        self.count_turn(cpu);
        self.counted_turn(cpu, program, limits, &mut turned);
        turned
    }

    /// An event: a turn of a CPU, which is recorded where it is not idle, or an interruption of it from outside, which
    /// always is.
    #[tactic(auto, unfolding(tx_keeping::specs::Turn::k_happen))]
    pub fn happen(&mut self, e: Event, program: &Program, limits: Limits) -> Turned
        requires cpu { cpu_of_event e < length self.old.slots }
        requires cpus { length program.now.cpus ≡ length self.old.slots }
        requires turns { (rest : Seat) → let m : Setting = record { image = program.now; limits = limits } in
            k_idle m (kept_by rest self.old) (cpu_of_event e) ≡ None
            → MayTurn m (cpu_of_event e) (kept_by rest self.old) }
        requires room { (rest : Seat) → owed self.old (kept_by rest self.old) < self.old.room }
        requires events { length self.old.events < self.old.events_room }
        ensures value { (rest : Seat) → let m : Setting = record { image = program.now; limits = limits } in
            turned_as (kept_by rest self.new) result ≡ k_happen m e (kept_by rest self.old) }
        ensures size { IsSameSize self.old self.new }
    {
        match e {
            Event::Turn(cpu) => match self.idle(cpu, limits) {
                Some(outcome) => without_reject(outcome),
                None => self.turn(cpu, program, limits),
            },
            Event::External(cpu) => {
                self.note(e);
                self.external(cpu)
            }
        }
    }
}
