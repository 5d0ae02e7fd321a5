//! The answer of a holder.
ghost use Rattle.std.specs.Prelude.{◌≡◌, ◌<◌};
ghost use Rattle.tx_footprint.specs.LineTableSizes.{storage_lines};
ghost use Rattle.tx_footprint.specs.Touched.{sets_of};
ghost use Rattle.interrogate.specs.Replies.{conflicts, may_hold_out, cause_at, reply, after};

use crate::kinds::{Answer, Asker};
use tx_control::Why;
use tx_footprint::{Footprint, Mode};
use tx_ladder::Ladder;

/// Whether a request for the line conflicts with the holder's attempt.
fn is_conflict(live: bool, footprint: &Footprint, line: u32, mode: Mode) -> bool
    requires { line < storage_lines }
    ensures { result ≡
        conflicts live (sets_of footprint.now).fetched (sets_of footprint.now).stored line mode }
{
    if !live {
        return false;
    }
    match mode {
        Mode::Exclusive => footprint.fetched(line) || footprint.stored(line),
        Mode::Shared => footprint.stored(line),
    }
}

/// Whether the holder's attempt may reject a conflicting request of this asker.
fn is_firm(ladder: &Ladder, asker: Asker) -> bool
    ensures { result ≡ may_hold_out ladder.now asker }
{
    ladder.may_reject() && (!asker.head && !(asker.late && !ladder.is_constrained()))
}

/// The cause of an abort that a conflict over the line brings.
fn cause_of(footprint: &Footprint, line: u32) -> Why
    requires { line < storage_lines }
    ensures { result ≡ cause_at (sets_of footprint.now).stored line }
{
    if footprint.stored(line) {
        Why::StoreConflict(line)
    } else {
        Why::FetchConflict(line)
    }
}

/// What a holder of the line answers to a request for it in this mode. `live` says whether the holder has a
/// live attempt; footprint and ladder are the holder's.
///
/// Without a conflict it yields. With one it rejects as long as its ladder allows that, but never the head of
/// the stop queue, and a late asker only with a constrained attempt of its own. Else its attempt is aborted:
/// as a store conflict where it has stored the line, else as a fetch conflict. A reject is counted in the
/// ladder, which else stays as it is.
#[tactic(auto, unfolding(crate::specs::Replies::reply))]
pub fn answer(
    live: bool,
    footprint: &Footprint,
    ladder: &mut Ladder,
    line: u32,
    mode: Mode,
    asker: Asker,
) -> Answer
    requires { line < storage_lines }
    ensures value { result ≡
        reply live (sets_of footprint.now).fetched (sets_of footprint.now).stored ladder.old line mode asker }
    ensures counted { ladder.new ≡ after result ladder.old }
{
    if !is_conflict(live, footprint, line, mode) {
        return Answer::Yields;
    }
    if !is_firm(ladder, asker) {
        return Answer::Aborts(cause_of(footprint, line));
    }
    ladder.gave_reject();
    Answer::Rejects
}
