//! What is due to a listing whose CPUs race: what comes before the race, and what behind it.
ghost use Rattle.std.specs.Prelude.{◌≡◌, ℕ, ◌<◌, [], List, length, IfOk, IfErr};
ghost use Rattle.tx_report.specs.Machine.{opened};
ghost use Rattle.listing_answers.specs.Due.{IsStatus};
ghost use Rattle.run_answers.specs.Races.{HasRaced, IsDueToRace, IsNoRace, MayRace, racing};
ghost use Rattle.run_answers.specs.Runs.{AreLimits};

use listing_answers::{Answer, NoMemory, refuse, refuse_long_listing};
use std::alloc::Global;
use std::sync::Arc;
use tx_journal::Image;
use tx_meaning::Limits;
use tx_report::{Machine, report, status};
use z_assemble::assemble;

/// Why no race begins.
#[derive(Drop)]
pub enum NoRace {
    /// There was no memory.
    Memory,
    /// The input is no listing. This is due to it.
    Refused(Answer),
}

impl From<NoMemory> for NoRace {
    ghost use Rattle.run_answers.specs.declared.raced.NoRace.TheVariants.{Memory};

    ghost from_gives = { λ _ e. e ≡ Memory };

    fn from(_error: NoMemory) -> NoRace {
        NoRace::Memory
    }
}

/// A machine of an image from which nothing has happened, and to which nothing comes from outside.
fn open_for_race(alloc: Global, image: Image, turns: u32, tick: u32) -> Result<Machine, NoMemory>
    requires { AreLimits turns tick }
    ensures { IfOk result (λ machine. machine ≡ opened image (racing image turns tick).limits) }
{
    let limits = Limits {
        turns,
        tick,
        externals: 0,
    };
    Machine::open(alloc, Arc::new(alloc, image)?, limits)
}

/// The machine of a listing whose CPUs are to race, from the listing's bytes; its schedule is passed over. Each
/// CPU has at most `turns` counted turns, and a tick comes with each turn whose number is a multiple of `tick`,
/// where that is not 0. Else the error says what is due, or that there was no memory.
pub fn prepare_race(alloc: Global, input: &[u8], turns: u32, tick: u32) -> Result<Machine, NoRace>
    requires { AreLimits turns tick }
    ensures machine { IfOk result (λ machine. MayRace turns tick input.now machine) }
    ensures unused { IfOk result (λ machine. machine.events ≡ []) }
    ensures externals { IfOk result (λ machine. machine.limits.externals ≡ 0) }
    ensures refused { IfErr result (λ e. IsNoRace input.now e) }
{
    match assemble(alloc, input) {
        Ok(image) => Ok(open_for_race(alloc, image, turns, tick)?),
        Err(fault) => Err(NoRace::Refused(refuse(alloc, fault)?)),
    }
}

/// What `race` answers to an input that has more bytes than a listing may have.
pub fn refuse_long_race(alloc: Global) -> Result<Answer, NoMemory>
    ensures due { IfOk result (λ answer. (turns tick : ℕ) (input : List ℕ) → 16777216 < length input
        → IsDueToRace turns tick input answer.status answer.text.items) }
    ensures status { IfOk result (λ answer. answer.status ≡ 5) }
{
    refuse_long_listing(alloc)
}

/// What `race` answers behind a race of a listing's machine: the report of the events that it has recorded.
pub fn report_race(alloc: Global, machine: &Machine) -> Result<Answer, NoMemory>
    ensures due { IfOk result (λ answer. (turns tick : ℕ) (input : List ℕ) → AreLimits turns tick
        → HasRaced turns tick input machine.now → IsDueToRace turns tick input answer.status answer.text.items) }
    ensures statuses { IfOk result (λ answer. IsStatus answer.status) }
{
    let _recorded = machine.events();
    let text = report(alloc, machine)?;
    Ok(Answer {
        status: status(machine),
        text,
    })
}
