//! Machines of listings, and what they show behind a run.
ghost use Rattle.std.specs.Prelude.{◌≡◌, IfSome, count_by};
ghost use Rattle.tx_meaning.specs.Meaning.{is_external};
ghost use Rattle.tx_schedule.specs.Ran.{MayRun};

use crate::reports::{has_report, has_summary};
use crate::schedules::are_those_of;
use std::alloc::Global;
use std::sync::Arc;
use tx_journal::{Event, Image};
use tx_meaning::limits::{Limits, MOST_TURNS};
use tx_report::Machine;
use tx_schedule::{run_drawn, run_given, run_planned, run_round};
use z_assemble::assemble;

/// By which schedule a machine runs.
#[derive(Clone, Copy)]
pub enum Way {
    /// The listing's own.
    Given,
    /// Turns that are drawn from a number.
    Drawn(u64),
    /// Turns in the round.
    Round,
    /// The one that is planned, with a seed or none.
    Planned(Option<u64>),
}

/// What a machine is to show.
#[derive(Clone, Copy)]
pub enum Look {
    /// As its recorded events, those of a text.
    Events(&'static str),
    /// This report, and this status.
    Report(&'static str, u8),
    /// As that of the generator's listing for a number, this summary, and this status.
    Summary(u64, &'static str, u8),
}

/// How a machine runs, with so many turns for each CPU, and what it is to show then.
#[derive(Clone, Copy)]
pub struct Case {
    pub turns: u32,
    pub way: Way,
    pub look: Look,
}

/// The interruptions from outside.
fn externals_in(events: &[Event]) -> usize
    ensures { result ≡ count_by is_external events.now }
{
    events
        .iter()
        .filter(|event| matches!(event, Event::External(_)))
        .count()
}

/// A machine of an image, from which nothing has happened, with so many turns for each CPU.
fn open(alloc: Global, image: Image, turns: u32) -> Option<Machine>
    ensures { IfSome result (λ machine. MayRun machine) }
{
    if externals_in(image.schedule.as_slice()) > 10 || turns < 1 || turns > MOST_TURNS {
        return None;
    }
    let limits = Limits {
        turns,
        tick: 0,
        externals: 10,
    };
    Machine::open(alloc, Arc::new(alloc, image).ok()?, limits).ok()
}

/// The machine of a listing, from which nothing has happened, with so many turns for each CPU.
pub fn opened(alloc: Global, listing: &[u8], turns: u32) -> Option<Machine>
    ensures { IfSome result (λ machine. MayRun machine) }
{
    open(alloc, assemble(alloc, listing).ok()?, turns)
}

/// Runs a machine from which nothing has happened.
fn run(machine: &mut Machine, way: Way)
    requires { MayRun machine.old }
{
    match way {
        Way::Given => run_given(machine),
        Way::Drawn(number) => run_drawn(machine, number),
        Way::Round => run_round(machine),
        Way::Planned(seed) => run_planned(machine, seed),
    }
}

/// Whether a machine shows what it is to show.
fn looks(alloc: Global, machine: &Machine, look: Look) -> bool {
    match look {
        Look::Events(text) => are_those_of(machine.events(), text),
        Look::Report(text, number) => has_report(alloc, machine, text, number),
        Look::Summary(of, text, number) => has_summary(alloc, of, machine, text, number),
    }
}

/// Whether it does so behind its run.
fn shows(alloc: Global, machine: &mut Machine, case: Case) -> bool
    requires { MayRun machine.old }
{
    run(machine, case.way);
    looks(alloc, machine, case.look)
}

/// Whether the machine of a listing shows behind its run what it is to show.
pub fn is_shown(alloc: Global, listing: &[u8], case: Case) -> Option<bool> {
    let mut machine = opened(alloc, listing, case.turns)?;
    Some(shows(alloc, &mut machine, case))
}
