//! What is due to a listing whose conflicts are counted, line by line.
ghost use Rattle.std.specs.Prelude.{ℕ, List, IfOk};
ghost use Rattle.z_assemble.specs.Whole.{Stands};
ghost use Rattle.listing_answers.specs.Due.{IsStatus};
ghost use Rattle.run_answers.specs.Runs.{AreLimits};
ghost use Rattle.ztx_answers.specs.Heats.{IsDueToHeat, IsHeat};

use listing_answers::{Answer, NoMemory, refuse};
use run_answers::{open, run_planned_on, status};
use std::alloc::Global;
use tx_heat::Counting;
use tx_journal::Image;
use z_assemble::assemble;

/// The conflicts of an image that is run by its schedule, by one that is drawn, or in the round.
fn heat_image(
    alloc: Global,
    image: Image,
    turns: u32,
    tick: u32,
    seed: Option<u64>,
) -> Result<Answer, NoMemory>
    requires { AreLimits turns tick }
    ensures due { IfOk result (λ answer. (input : List ℕ) → Stands input image
        → IsHeat turns tick seed input answer.status answer.text.items) }
    ensures statuses { IfOk result (λ answer. IsStatus answer.status) }
{
    let machine = open(alloc, image, turns, tick)?;
    let mut counting = Counting::of(alloc, machine)?;
    run_planned_on(&mut counting, seed);
    let status = status(counting.machine());
    let text = counting.heat().text(alloc)?;
    Ok(Answer { status, text })
}

/// What `heat` answers to the bytes of a listing: the conflicts of the run that `run` would report with these
/// numbers, line by line, or its first fault.
pub fn heat_listing(
    alloc: Global,
    input: &[u8],
    turns: u32,
    tick: u32,
    seed: Option<u64>,
) -> Result<Answer, NoMemory>
    requires { AreLimits turns tick }
    ensures due { IfOk result (λ answer.
        IsDueToHeat turns tick seed input.now answer.status answer.text.items) }
    ensures statuses { IfOk result (λ answer. IsStatus answer.status) }
{
    match assemble(alloc, input) {
        Ok(image) => heat_image(alloc, image, turns, tick, seed),
        Err(fault) => refuse(alloc, fault),
    }
}
