//! Turns of a machine that is raced for, and runs that it lends, and how many events they record.
ghost use Rattle.std.specs.Prelude.{◌≡◌, ℕ, ◌+◌, ◌^◌, ◌<◌, ◌≤◌, true, None, length};
ghost use Rattle.tx_journal.specs.declared.events.Event.TheVariants.{Turn};
ghost use Rattle.tx_schedule.specs.Machine.{after, event_of, setting_of, state_of, most_events};
ghost use Rattle.tx_meaning.specs.Idle.{is_ready};
ghost use Rattle.tx_meaning.specs.IdleOutcomes.{is_idle_outcome};
ghost use Rattle.std.specs.FinSet.{items};
ghost use Rattle.tx_schedule.specs.HomeLending.{IsLentBy};
ghost use Rattle.tx_schedule.specs.Places.{IsFirstUnlike};
ghost use Rattle.tx_schedule.specs.Lending.{IfLent, kept_of, kept_because, lent_by, refusal_in, home_by, unlike_in};
ghost use Rattle.tx_schedule.specs.DeclaredLending.Home.TheVariants.{Taken};
ghost use Rattle.tx_board.specs.Shares.{recorded_by, taken_in};

use tx_journal::Event;
use tx_meaning::Outcome;
use tx_schedule::{Home, Lend, Machine, Run};

/// The number of CPUs of a machine.
pub fn cpu_count(machine: &Machine) -> u32
    ensures value { result ≡ length machine.now.image.cpus }
    ensures few { (0 < result) × (result ≤ 16) }
{
    machine.image().cpu_count()
}

/// Whether a turn with this outcome is idle, and so is not recorded.
pub fn is_idle(outcome: Outcome) -> bool
    ensures { result ≡ is_idle_outcome outcome }
{
    matches!(
        outcome,
        Outcome::Halted | Outcome::Spent | Outcome::Queued | Outcome::Stopped
    )
}

/// All that a machine can record fits 32 bits.
fn has_few_events(machine: &Machine)
    ensures { most_events (setting_of machine.now) < 2 ^ 32 }
{
    let _cpus = cpu_count(machine);
    let _turns = machine.limits().turns;
}

/// One turn of a CPU. It records one event, or none where it is idle.
pub fn make_turn(machine: &mut Machine, cpu: u32) -> Outcome
    requires { cpu < length machine.old.image.cpus }
    ensures machine { machine.new ≡ after machine.old (Turn cpu) }
    ensures outcome { result ≡ (event_of machine.old (Turn cpu)).outcome }
    ensures recorded { length machine.new.events ≡ length machine.old.events + recorded_by result }
    ensures ready { is_ready (setting_of machine.old) (state_of machine.old) cpu ≡ true
        → recorded_by result ≡ 1 }
    ensures most { length machine.new.events ≤ most_events (setting_of machine.new) }
    ensures few { most_events (setting_of machine.new) < 2 ^ 32 }
{
    let _before = machine.events();
    let outcome = machine.event(Event::Turn(cpu));
    let _after = machine.events();
    has_few_events(machine);
    outcome
}

/// Lends a CPU, or says why not. No event is recorded.
pub fn lend_cpu(machine: &mut Machine, cpu: u32) -> Lend
    requires { cpu < length machine.old.image.cpus }
    ensures refused { refusal_in result ≡ kept_because machine.old cpu }
    ensures lent { IfLent result (IsLentBy machine.old.limits (kept_of machine.old) cpu) }
    ensures machine { machine.new ≡ lent_by result cpu machine.old }
    ensures events { machine.new.events ≡ machine.old.events }
{
    machine.lend(cpu)
}

/// How many turns a run that came home so has made.
pub fn taken_in(home: Home) -> u64
    ensures { result ≡ taken_in home }
{
    match home {
        Home::Taken(k) => u64::from(k),
        Home::Discarded { .. } => 0,
    }
}

/// A run comes home. It records as many events as it has turns, where it is taken.
pub fn bring_home(machine: &mut Machine, run: Run) -> Home
    requires { run.cpu < length machine.old.image.cpus }
    ensures first { IsFirstUnlike (items machine.old.image.guard) machine.old.limits run (kept_of machine.old)
        (unlike_in result) }
    ensures taken { unlike_in result ≡ None → result ≡ Taken run.made.steps }
    ensures machine { machine.new ≡ home_by result run.cpu machine.old }
    ensures recorded { length machine.new.events ≡ length machine.old.events + taken_in result }
    ensures most { length machine.new.events ≤ most_events (setting_of machine.new) }
    ensures few { most_events (setting_of machine.new) < 2 ^ 32 }
{
    let home = machine.home(run);
    let _after = machine.events();
    has_few_events(machine);
    home
}
