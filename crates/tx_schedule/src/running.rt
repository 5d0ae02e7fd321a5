//! Runs by the three kinds of schedules.
ghost use Rattle.std.specs.Prelude.{◌≡◌, ◌<◌, [], Some, length, slice_get};
ghost use Rattle.tx_journal.specs.Image.{cpu_of_event};
ghost use Rattle.tx_meaning.specs.Meaning.{meaning_from};
ghost use Rattle.tx_meaning.specs.Schedules.{drawn, round, planned, most_turns, turns_from};
ghost use Rattle.tx_machine.specs.Machine.{setting_of, state_of};
ghost use Rattle.tx_schedule.specs.Next.{choosing_by};
ghost use Rattle.tx_schedule.specs.Ran.{MayRun, HasRun, HasNoneReady};

use crate::choosing::{Order, cpu_count};
use crate::runnable::Runnable;
use tx_journal::Event;
use tx_machine::machine::Machine;

/// The turns that all CPUs of a machine together may have.
fn turns_of(machine: &Machine) -> u64
    ensures { result ≡ most_turns (setting_of machine.now) }
{
    u64::from(cpu_count(machine)) * u64::from(machine.limits().turns)
}

/// Makes turns of ready CPUs, as long as there is one, but at most so many.
#[inline(always)]
fn run_by<R: Runnable>(runner: &mut R, mut order: Order, most: u64)
    ensures setting { setting_of (R.seen runner.new) ≡ setting_of (R.seen runner.old) }
    ensures state { let m = setting_of (R.seen runner.old) in let s = state_of (R.seen runner.old) in
        state_of (R.seen runner.new) ≡ meaning_from m (turns_from most m (choosing_by order) s) s }
{
    for _ in 0..most {
        match order.next(runner.machine()) {
            None => return,
            Some(cpu) => runner.take_turn(cpu),
        }
    }
}

/// How many events the schedule of the listing has.
fn given_count(machine: &Machine) -> usize
    ensures { result ≡ length machine.now.image.schedule }
{
    machine.image().schedule.len()
}

/// The event at a place of the schedule of the listing.
fn given_at(machine: &Machine, place: usize) -> Event
    requires { place < length machine.now.image.schedule }
    ensures event { slice_get machine.now.image.schedule place ≡ Some result }
    ensures known { cpu_of_event result < length machine.now.image.cpus }
{
    machine.image().schedule[place]
}

/// Makes the events of the schedule that the listing gives, in their order.
fn run_given_on<R: Runnable>(runner: &mut R)
    requires { MayRun (R.seen runner.old) }
    ensures { HasRun (R.seen runner.old) (R.seen runner.new) (R.seen runner.old).image.schedule }
{
    for place in 0..given_count(runner.machine()) {
        let event = given_at(runner.machine(), place);
        runner.take_event(event);
    }
}

/// Makes turns of ready CPUs that are drawn from a number, until no CPU is ready.
fn run_drawn_on<R: Runnable>(runner: &mut R, seed: u64)
    requires { (R.seen runner.old).events ≡ [] }
    ensures run { HasRun (R.seen runner.old) (R.seen runner.new) (drawn (setting_of (R.seen runner.old)) seed) }
    ensures complete { HasNoneReady (R.seen runner.new) }
{
    let most = turns_of(runner.machine());
    run_by(runner, Order::Drawn(seed), most);
}

/// Makes turns of ready CPUs in the round, from CPU 0 on, until no CPU is ready.
fn run_round_on<R: Runnable>(runner: &mut R)
    requires { (R.seen runner.old).events ≡ [] }
    ensures run { HasRun (R.seen runner.old) (R.seen runner.new) (round (setting_of (R.seen runner.old))) }
    ensures complete { HasNoneReady (R.seen runner.new) }
{
    let most = turns_of(runner.machine());
    run_by(runner, Order::Round(0), most);
}

/// Makes the events of the schedule that the listing gives; where it gives none, turns that are drawn from
/// the seed, and without a seed turns in the round.
pub fn run_planned_on<R: Runnable>(runner: &mut R, seed: Option<u64>)
    requires { MayRun (R.seen runner.old) }
    ensures { HasRun (R.seen runner.old) (R.seen runner.new) (planned (setting_of (R.seen runner.old)) seed) }
{
    if runner.machine().image().scheduled {
        return run_given_on(runner);
    }
    match seed {
        Some(seed) => run_drawn_on(runner, seed),
        None => run_round_on(runner),
    }
}

/// Makes the events of the schedule that the listing gives, in their order; turns that are idle change
/// nothing.
pub fn run_given(machine: &mut Machine)
    requires { MayRun machine.old }
    ensures { HasRun machine.old machine.new machine.old.image.schedule }
{
    run_given_on(machine);
}

/// Makes turns of ready CPUs that are drawn from a number, until no CPU is ready.
pub fn run_drawn(machine: &mut Machine, seed: u64)
    requires { machine.old.events ≡ [] }
    ensures run { HasRun machine.old machine.new (drawn (setting_of machine.old) seed) }
    ensures complete { HasNoneReady machine.new }
{
    run_drawn_on(machine, seed);
}

/// Makes turns of ready CPUs in the round, from CPU 0 on, until no CPU is ready.
pub fn run_round(machine: &mut Machine)
    requires { machine.old.events ≡ [] }
    ensures run { HasRun machine.old machine.new (round (setting_of machine.old)) }
    ensures complete { HasNoneReady machine.new }
{
    run_round_on(machine);
}

/// Makes the events of the schedule that the listing gives; where it gives none, turns that are drawn from
/// the seed, and without a seed turns in the round.
pub fn run_planned(machine: &mut Machine, seed: Option<u64>)
    requires { MayRun machine.old }
    ensures { HasRun machine.old machine.new (planned (setting_of machine.old) seed) }
{
    run_planned_on(machine, seed);
}
