//! What is answered to a listing.
ghost use Rattle.std.specs.Prelude.{◌≡◌, ◌≤◌, IfOk, count_by};
ghost use Rattle.tx_meaning.specs.Limits.{external_limit};
ghost use Rattle.tx_meaning.specs.Meaning.{is_external};
ghost use Rattle.tx_schedule.specs.Ran.{MayRun};

use crate::words::Plan;
use std::alloc::{AllocError, Global};
use std::sync::Arc;
use tx_journal::{Event, Image};
use tx_machine::{Machine, NoMemory};
use tx_meaning::Limits;
use tx_picture::draw;
use tx_report::status;
use tx_schedule::run_planned;
use z_assemble::{AssembleFault, ListingFault, assemble, fault_line};

/// An exit status, and what is written.
#[derive(Drop)]
pub struct Answer {
    /// The status.
    pub status: u8,
    /// The bytes.
    pub text: Vec<u8>,
}

/// The line of a fault.
pub fn refuse(alloc: Global, fault: ListingFault) -> Result<Answer, AllocError> {
    let line = fault_line(alloc, fault)?;
    Ok(Answer {
        status: 5,
        text: line.into_bytes(),
    })
}

/// How many interruptions from outside the schedule of an image has.
fn externals_in(image: &Image) -> u32
    ensures value { result ≡ count_by is_external image.now.schedule }
    ensures few { result ≤ external_limit }
{
    let _cpus = image.cpu_count();
    let externals = image
        .schedule
        .iter()
        .filter(|event| matches!(event, Event::External(_)));
    externals.count() as u32
}

/// A machine of an image from which nothing has happened.
fn open(alloc: Global, image: Image, plan: Plan) -> Result<Machine, NoMemory>
    ensures { IfOk result MayRun }
{
    let limits = Limits {
        turns: plan.turns,
        tick: plan.tick,
        externals: externals_in(&image),
    };
    let shared = Arc::new(alloc, image)?;
    Machine::open(alloc, shared, limits)
}

/// The picture of a run. The status is 0 where every CPU is finished, else 6.
fn picture(alloc: Global, image: Image, plan: Plan) -> Result<Answer, NoMemory> {
    let mut machine = open(alloc, image, plan)?;
    run_planned(&mut machine, plan.seed);
    let drawing = draw(alloc, &machine, plan.window)?;
    Ok(Answer {
        status: status(&machine),
        text: drawing.text(alloc)?,
    })
}

/// The picture of a listing's run, or the line of its first fault.
pub fn answer_to(alloc: Global, input: &[u8], plan: Plan) -> Result<Answer, NoMemory> {
    match assemble(alloc, input) {
        Ok(image) => picture(alloc, image, plan),
        Err(AssembleFault::Memory) => Err(NoMemory),
        Err(AssembleFault::Listing(fault)) => Ok(refuse(alloc, fault)?),
    }
}
