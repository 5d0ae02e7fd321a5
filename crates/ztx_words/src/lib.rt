//! The words of a command line, read by one simple command for each subcommand.
#![tactic(auto)]

mod arguments;
mod reading;

pub use reading::read_words;

/// What a command line asks for. `turns` are the counted turns that each CPU may take, and `tick` says how
/// often its timer interrupts it, 0 for never. A run goes by the listing's own schedule; where that has none,
/// it is drawn from the seed, and without a seed the CPUs take turns.
#[derive(Clone, Copy, Debug, PartialEq, Eq)]
pub enum Command {
    /// The instructions of a listing, as text.
    List,
    /// The report of a run.
    Run {
        turns: u64,
        tick: u64,
        seed: Option<u64>,
    },
    /// The report of a run in which the CPUs race.
    Race {
        turns: u64,
        tick: u64,
    },
    /// The generator's listing for a number.
    Generate {
        number: u64,
    },
    /// The short summary of a run of that listing.
    Summary {
        number: u64,
    },
    /// Whether a report behind a listing is one of a legal history.
    Check,
    /// The conflicts of a run, by line.
    Heat {
        turns: u64,
        tick: u64,
        seed: Option<u64>,
    },
    /// The object deck of a listing; or, with `read`, the listing of a deck, whose addresses count from the
    /// origin.
    Deck {
        read: bool,
        origin: u64,
    },
    /// The answers to commands behind a listing, which step through its run forward and back.
    Step {
        turns: u64,
        tick: u64,
        seed: Option<u64>,
    },
}
