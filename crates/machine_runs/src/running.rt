//! The machine of a case, and its events.

use crate::case::{Case, Course};
use crate::fault::Fault;
use crate::left::{add_history, add_shown};
use crate::outcomes::Outcomes;
use std::alloc::{AllocError, Global};
use std::sync::Arc;
use tx_journal::{Event, Image};
use tx_machine::machine::Machine;
use tx_meaning::Outcome;
use tx_meaning::limits::{Limits, MOST_TICK, MOST_TURNS};
use z_assemble::assemble;

/// The external events that a schedule may have here.
const EXTERNALS: u32 = 200;

/// Adds the lines of a listing, each with its end.
fn add_lines(text: &mut String, listing: &str) -> Result<(), Fault> {
    for line in listing.lines() {
        text.push_str(line)?;
        text.push('\n')?;
    }
    Ok(())
}

/// The image of a listing.
fn image_of(alloc: Global, listing: &str) -> Result<Image, Fault> {
    let mut text = String::new(alloc);
    add_lines(&mut text, listing)?;
    assemble(alloc, text.as_bytes()).map_err(|_| Fault::Wrong("no image"))
}

/// An image, to be shared.
fn shared(alloc: Global, image: Image) -> Result<Arc<Image>, AllocError> {
    Ok(Arc::new(alloc, image)?)
}

/// The machine of a case, from which nothing has happened.
fn opened(alloc: Global, case: &Case<'_>) -> Result<Machine, Fault> {
    let (turns, tick) = (case.turns, case.tick);
    if turns < 1 || turns > MOST_TURNS {
        return Err(Fault::Wrong("turns out of range"));
    }
    if tick > MOST_TICK {
        return Err(Fault::Wrong("a tick out of range"));
    }
    let limits = Limits {
        turns,
        tick,
        externals: EXTERNALS,
    };
    let image = shared(alloc, image_of(alloc, case.listing)?)?;
    Machine::open(alloc, image, limits).map_err(|_| Fault::NoMemory)
}

/// One event more; none where its CPU is not there, or where there were too many external ones.
fn happen(machine: &mut Machine, event: Event) -> Option<Outcome> {
    let is_known = match event {
        Event::Turn(cpu) => cpu < machine.image().cpu_count(),
        Event::External(cpu) => {
            cpu < machine.image().cpu_count() && machine.externals_left() > 0
        }
    };
    if is_known {
        Some(machine.event(event))
    } else {
        None
    }
}

/// Makes one event more, and counts its outcome.
fn count(machine: &mut Machine, event: Event, outcomes: &mut Outcomes) -> Result<(), Fault> {
    match happen(machine, event) {
        Some(outcome) => outcomes.count(outcome),
        None => return Err(Fault::Wrong("an event that may not come")),
    }
    Ok(())
}

/// The event of the listing's schedule at a place.
fn planned(machine: &Machine, place: usize) -> Result<Event, Fault> {
    match machine.image().schedule.get(place) {
        Some(event) => Ok(*event),
        None => Err(Fault::Wrong("the schedule is shorter")),
    }
}

/// The first events of the listing's schedule.
fn follow(machine: &mut Machine, events: usize, outcomes: &mut Outcomes) -> Result<(), Fault> {
    for place in 0..events {
        let event = planned(machine, place)?;
        count(machine, event, outcomes)?;
    }
    Ok(())
}

/// Whether a CPU is there and ready.
fn is_ready(machine: &Machine, cpu: u32) -> bool {
    cpu < machine.image().cpu_count() && machine.ready(cpu)
}

/// How many CPUs there are.
fn cpus_of(machine: &Machine) -> u32 {
    machine.image().cpu_count()
}

/// The next CPU behind the last one that is ready, in the order of their numbers, the first behind the
/// greatest.
fn next_ready(machine: &Machine, last: u32) -> Option<u32> {
    let cpus = cpus_of(machine);
    for step in 1..=cpus {
        let sum = last.wrapping_add(step);
        let cpu = if sum < cpus {
            sum
        } else {
            sum.wrapping_sub(cpus)
        };
        if is_ready(machine, cpu) {
            return Some(cpu);
        }
    }
    None
}

/// Turns that go round, until no CPU is ready.
fn go_round(machine: &mut Machine, outcomes: &mut Outcomes) -> Result<(), Fault> {
    let mut last = cpus_of(machine).wrapping_sub(1);
    for _ in 0..u64::MAX {
        let Some(cpu) = next_ready(machine, last) else {
            return Ok(());
        };
        count(machine, Event::Turn(cpu), outcomes)?;
        last = cpu;
    }
    Ok(())
}

/// Makes the events of a course, and counts their outcomes.
fn run(machine: &mut Machine, course: Course) -> Result<Outcomes, Fault> {
    let mut outcomes = Outcomes::none();
    match course {
        Course::Given(events) => follow(machine, events, &mut outcomes)?,
        Course::Round => go_round(machine, &mut outcomes)?,
    }
    Ok(outcomes)
}

/// Runs a machine, and adds how its events ended, what it shows then, and the history.
fn add_course(
    text: &mut String,
    alloc: Global,
    machine: &mut Machine,
    course: Course,
) -> Result<(), Fault> {
    let outcomes = run(machine, course)?;
    outcomes.add_to(text)?;
    add_shown(text, machine)?;
    add_history(text, alloc, machine.journal())
}

/// Adds what a case leaves: how its events ended, what the machine shows then, and the history.
pub fn add_run(text: &mut String, alloc: Global, case: &Case<'_>) -> Result<(), Fault> {
    let mut machine = opened(alloc, case)?;
    add_course(text, alloc, &mut machine, case.course)
}
