//! What is due for a number whose listing is run: the short summary of its run.
ghost use Rattle.std.specs.Prelude.{IfOk};
ghost use Rattle.listing_answers.specs.Due.{IsStatus};
ghost use Rattle.run_answers.specs.Reports.{IsSummary};

use crate::machine::open;
use listing_answers::{Answer, NoMemory, image_for};
use std::alloc::Global;
use tx_meaning::limits::MOST_TURNS;
use tx_report::{status, summary as summary_text};
use tx_schedule::run_round;

/// What `summary` answers: the short summary of the generator's listing for the number, in which the CPUs
/// take turns in the round.
pub fn summary(alloc: Global, number: u64) -> Result<Answer, NoMemory>
    ensures due { IfOk result (λ answer. IsSummary number answer.status answer.text.items) }
    ensures statuses { IfOk result (λ answer. IsStatus answer.status) }
{
    let image = image_for(alloc, number)?;
    let mut machine = open(alloc, image, MOST_TURNS, 0)?;
    run_round(&mut machine);
    let written = summary_text(alloc, number, &machine);
    let status = status(&machine);
    drop(machine);
    match written {
        Ok(text) => Ok(Answer { status, text }),
        Err(_) => Err(NoMemory),
    }
}
