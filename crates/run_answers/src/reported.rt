//! What is due to a listing that is run.
ghost use Rattle.std.specs.Prelude.{ℕ, List, IfOk};
ghost use Rattle.z_assemble.specs.Whole.{Stands};
ghost use Rattle.listing_answers.specs.Due.{IsStatus};
ghost use Rattle.run_answers.specs.Reports.{IsReport, IsDueToRun};
ghost use Rattle.run_answers.specs.Runs.{AreLimits};

use crate::machine::open;
use listing_answers::{Answer, NoMemory, refuse};
use std::alloc::Global;
use tx_journal::Image;
use tx_report::{report, status};
use tx_schedule::run_planned;
use z_assemble::assemble;

/// The report of an image that is run by its schedule, by one that is drawn, or in the round.
fn report_run(
    alloc: Global,
    image: Image,
    turns: u32,
    tick: u32,
    seed: Option<u64>,
) -> Result<Answer, NoMemory>
    requires { AreLimits turns tick }
    ensures due { IfOk result (λ answer. (input : List ℕ) → Stands input image
        → IsReport turns tick seed input answer.status answer.text.items) }
    ensures statuses { IfOk result (λ answer. IsStatus answer.status) }
{
    let mut machine = open(alloc, image, turns, tick)?;
    run_planned(&mut machine, seed);
    let written = report(alloc, &machine);
    let status = status(&machine);
    drop(machine);
    match written {
        Ok(text) => Ok(Answer { status, text }),
        Err(_) => Err(NoMemory),
    }
}

/// What `run` answers to the bytes of a listing: the report of its run, or its first fault. Each CPU has
/// at most `turns` counted turns, and a tick comes with each turn whose number is a multiple of `tick`,
/// where that is not 0. The listing's schedule is taken; where it has none, one is drawn from the seed, and
/// without a seed the CPUs take turns in the round.
pub fn run(
    alloc: Global,
    input: &[u8],
    turns: u32,
    tick: u32,
    seed: Option<u64>,
) -> Result<Answer, NoMemory>
    requires { AreLimits turns tick }
    ensures due { IfOk result (λ answer.
        IsDueToRun turns tick seed input.now answer.status answer.text.items) }
    ensures statuses { IfOk result (λ answer. IsStatus answer.status) }
{
    match assemble(alloc, input) {
        Ok(image) => report_run(alloc, image, turns, tick, seed),
        Err(fault) => refuse(alloc, fault),
    }
}
