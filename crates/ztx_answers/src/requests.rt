//! What is asked of the bytes of an input.
ghost use Rattle.std.specs.Prelude.{◌≡◌, ℕ, ◌<◌, ◌≤◌, List, IfOk, length};
ghost use Rattle.listing_answers.specs.Due.{IsAnyStatus};
ghost use Rattle.ztx_answers.specs.Requests.{IsAllowed, IsDue, most_of};

use crate::heated::heat_listing;
use crate::stepped::step;
use listing_answers::{
    Answer, NoMemory, list, read_deck_of, refuse_long_deck, refuse_long_listing, write_deck_of,
};
use run_answers::{check_report, run};
use std::alloc::Global;
use z_assemble::MOST_BYTES;

/// How many bytes a listing and the report behind it may have.
const MOST_WITH_REPORT: usize = 134_217_728;

/// What is asked of an input.
#[derive(Clone, Copy, Debug, PartialEq, Eq)]
pub enum Request {
    /// The instructions of a listing.
    List,
    /// The report of a listing's run: each CPU has at most `turns` counted turns, and a tick comes with each
    /// turn whose number is a multiple of `tick`, where that is not 0. The seed draws a schedule for a listing
    /// that has none.
    Run {
        turns: u32,
        tick: u32,
        seed: Option<u64>,
    },
    /// The object deck of a listing.
    Deck,
    /// The listing of an object deck, whose addresses count from the origin.
    ReadDeck {
        origin: u32,
    },
    /// What commands behind a listing show of its run, forward and back. The numbers are those of a run.
    Step {
        turns: u32,
        tick: u32,
        seed: Option<u64>,
    },
    /// The conflicts of a listing's run, line by line. The numbers are those of a run.
    Heat {
        turns: u32,
        tick: u32,
        seed: Option<u64>,
    },
    /// Whether the report behind a listing is sound: that of a legal history, and of what this leaves.
    Check,
}

/// How many bytes an input of the request may have.
pub fn most_bytes(request: Request) -> usize
    ensures { result ≡ most_of request }
{
    match request {
        Request::List
        | Request::Run { .. }
        | Request::Deck
        | Request::ReadDeck { .. }
        | Request::Step { .. }
        | Request::Heat { .. } => MOST_BYTES,
        Request::Check => MOST_WITH_REPORT,
    }
}

/// What is due to the request and an input that is not too long.
pub fn answer_to(alloc: Global, request: Request, input: &[u8]) -> Result<Answer, NoMemory>
    requires allowed { IsAllowed request }
    requires short { length input.now ≤ most_of request }
    ensures due { IfOk result (λ answer. IsDue request input.now answer.status answer.text.items) }
    ensures statuses { IfOk result (λ answer. IsAnyStatus answer.status) }
{
    match request {
        Request::List => list(alloc, input),
        Request::Run { turns, tick, seed } => run(alloc, input, turns, tick, seed),
        Request::Deck => write_deck_of(alloc, input),
        Request::ReadDeck { origin } => read_deck_of(alloc, origin, input),
        Request::Step { turns, tick, seed } => step(alloc, input, turns, tick, seed),
        Request::Heat { turns, tick, seed } => heat_listing(alloc, input, turns, tick, seed),
        Request::Check => check_report(alloc, input),
    }
}

/// What is due to the request and an input that is too long.
pub fn refuse_long(alloc: Global, request: Request) -> Result<Answer, NoMemory>
    ensures due { IfOk result (λ answer. (input : List ℕ) → most_of request < length input
        → IsDue request input answer.status answer.text.items) }
    ensures status { IfOk result (λ answer. answer.status ≡ 5) }
{
    match request {
        Request::ReadDeck { .. } => refuse_long_deck(alloc),
        _ => refuse_long_listing(alloc),
    }
}
