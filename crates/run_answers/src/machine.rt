//! Machines of listings that are run.
ghost use Rattle.std.specs.Prelude.{◌≡◌, ◌≤◌, IfOk};
ghost use Rattle.tx_report.specs.Machine.{opened};
ghost use Rattle.tx_meaning.specs.Limits.{external_limit};
ghost use Rattle.run_answers.specs.Runs.{AreLimits, externals_in, running};

use listing_answers::NoMemory;
use std::alloc::Global;
use std::sync::Arc;
use tx_journal::{Event, Image};
use tx_meaning::Limits;
use tx_report::Machine;

/// How many interruptions from outside the schedule of an image has.
fn externals_in(image: &Image) -> u32
    ensures value { result ≡ externals_in image.now }
    ensures few { result ≤ external_limit }
{
    let _cpus = image.cpu_count();
    let externals = image
        .schedule
        .iter()
        .filter(|event| matches!(event, Event::External(_)));
    externals.count() as u32
}

/// A machine of an image from which nothing has happened, with so many counted turns for each CPU, and so
/// many from one tick to the next.
pub fn open(alloc: Global, image: Image, turns: u32, tick: u32) -> Result<Machine, NoMemory>
    requires { AreLimits turns tick }
    ensures { IfOk result (λ machine. machine ≡ opened image (running image turns tick).limits) }
{
    let limits = Limits {
        turns,
        tick,
        externals: externals_in(&image),
    };
    let shared = Arc::new(alloc, image)?;
    Machine::open(alloc, shared, limits)
}
