//! Turns that are idle, and what is counted of the others.
ghost use Rattle.std.specs.Prelude.{◌≡◌, ◌<◌, ◌++◌, ◌∷◌, [], length};
ghost use Rattle.z_regs.specs.Cpu.{cpu_of};
ghost use Rattle.tx_journal.specs.Content.{Content};
ghost use Rattle.tx_meaning.specs.Idle as meaning;
ghost use Rattle.tx_meaning.specs.Limits.{turn_limit};
ghost use Rattle.tx_keeping.specs.Kept.{kept_finished};
ghost use Rattle.tx_keeping.specs.Turn.{k_idle};
ghost use Rattle.tx_works.specs.Steps.{k_counted, k_waited};
ghost use Rattle.tx_works.specs.Ready.{HasTurn};
ghost use Rattle.tx_works.specs.Works.{Seat, seats_of, kept_by, KeepsBooks};

use crate::works::Works;
use tx_journal::Event;
use tx_meaning::{Limits, Outcome};
use z_regs::{CpuImage, RunState};

/// Whether the program is at its end: a CPU without a prefix never takes a program interruption.
fn has_ended(image: &CpuImage) -> bool
    ensures { result ≡ meaning.has_ended (cpu_of image.now).state (cpu_of image.now).prefix }
{
    match image.state {
        RunState::Running => false,
        RunState::Halted => true,
        RunState::Interrupted(_) => image.prefix.is_none(),
    }
}

impl Works {
    /// Whether the program of the CPU is at its end, and no block is left to be stored.
    pub fn is_finished(&self, cpu: u32) -> bool
        requires { cpu < length self.now.slots }
        ensures { (rest : Seat) → result ≡ kept_finished (kept_by rest self.now) cpu }
    {
        let slot = &self.slots[cpu as usize];
        if slot.cpu.pending().is_some() {
            return false;
        }
        has_ended(slot.cpu.image())
    }

    /// What keeps the CPU back while the stop queue is not empty: only its head has turns.
    fn kept_back(&self, cpu: u32) -> Option<Outcome>
        requires { cpu < length self.now.slots }
        ensures { result ≡ meaning.kept_back self.now.queue cpu }
    {
        let head = self.queue.head()?;
        if head == cpu {
            return None;
        }
        if self.queue.has(cpu) {
            return Some(Outcome::Queued);
        }
        Some(Outcome::Stopped)
    }

    /// The counted turns of the CPU.
    pub fn turns(&self, cpu: u32) -> u32
        requires { cpu < length self.now.slots }
        ensures { (rest : Seat) → result ≡ ((kept_by rest self.now).state.numbers cpu).turns }
    {
        self.slots[cpu as usize].tally.turns
    }

    /// The turns that the CPU still waits.
    pub(crate) fn delay_of(&self, cpu: u32) -> u32
        requires { cpu < length self.now.slots }
        ensures { (rest : Seat) → result ≡ ((kept_by rest self.now).state.numbers cpu).delay }
    {
        self.slots[cpu as usize].tally.delay
    }

    /// Why the next turn of the CPU would be idle; None exactly where it would not be.
    pub fn idle(&self, cpu: u32, limits: Limits) -> Option<Outcome>
        requires { cpu < length self.now.slots }
        ensures { (rest : Seat) (image : Content) → result ≡
            k_idle (record { image = image; limits = limits }) (kept_by rest self.now) cpu }
    {
        if self.is_finished(cpu) {
            return Some(Outcome::Halted);
        }
        if limits.turns <= self.turns(cpu) {
            return Some(Outcome::Spent);
        }
        self.kept_back(cpu)
    }

    /// One more recorded event.
    pub(crate) fn note(&mut self, event: Event)
        requires { length self.old.events < self.old.events_room }
        ensures { self.new ≡ record self.old { events = self.old.events ++ event ∷ [] } }
    {
        self.events.push_reserved(event);
    }

    /// A turn of the CPU is counted.
    pub(crate) fn count_turn(&mut self, cpu: u32)
        requires cpu { cpu < length self.old.slots }
        requires few { (rest : Seat) → ((kept_by rest self.old).state.numbers cpu).turns < turn_limit }
        ensures value { (rest : Seat) → kept_by rest self.new ≡ k_counted cpu (kept_by rest self.old) }
        ensures turn { (rest : Seat) → HasTurn (seats_of rest self.new.slots cpu) 128 }
        ensures books { KeepsBooks self.old self.new }
    {
        let slot = &mut self.slots[cpu as usize];
        slot.tally.turns += 1;
    }

    /// The CPU waits for a turn.
    pub(crate) fn wait(&mut self, cpu: u32)
        requires cpu { cpu < length self.old.slots }
        requires waits { (rest : Seat) → 0 < ((kept_by rest self.old).state.numbers cpu).delay }
        ensures value { (rest : Seat) → kept_by rest self.new ≡ k_waited cpu (kept_by rest self.old) }
        ensures books { KeepsBooks self.old self.new }
    {
        let slot = &mut self.slots[cpu as usize];
        slot.tally.delay -= 1;
    }
}
