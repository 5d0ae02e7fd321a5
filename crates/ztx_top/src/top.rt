//! The top call, and the same over a source and a sink that never fail.
ghost use Rattle.std.specs.Prelude.{◌≡◌, ◌≢◌, ℕ, ◌≤◌, ◌⊎◌, IfSome, List, Option, map, string_bytes, true, false};
ghost use Rattle.std.specs.Io.KnownBytes.{IsAtEnd, Keeps};
ghost use Rattle.listing_answers.specs.Due.{IsGenerated};
ghost use Rattle.ztx_answers.specs.Reports.{IsSummary};
ghost use Rattle.ztx_io.specs.Faults.{Rose};
ghost use Rattle.ztx_top.specs.Answers.{IsDone, IsWhole, Tells, Wrote, WasCut};
ghost use Rattle.ztx_top.specs.Asked.{IsBadWords, IsReady, asked, due, is_settled, reads};

use crate::errand::{Errand, errand_of};
use crate::input::{answer_input, tell};
use crate::race::race_input;
use listing_answers::generate;
use std::alloc::Global;
use std::sync::Wait;
use std::thread::Threads;
use tx_race::Gate;
use ztx_answers::laws::one_answer_is_due;
use ztx_answers::summary;
use ztx_io::{Sink, Source, SureSink, SureSource};
use ztx_words::read_words;

const BAD_WORDS: &[u8] = b"ztx: bad words\n";

/// Writes the line that says that the words ask for nothing.
fn tell_bad_words<K: Sink>(sink: &mut K) -> u8
    ensures statuses { (result ≤ 6) × (result ≢ 2) }
    ensures whole { (left : Option (List ℕ)) → IsWhole result
        → Wrote (λ input. IsBadWords) left result (K.held sink.old) (K.held sink.new) }
    ensures cut { (left : Option (List ℕ)) → ((result ≡ 1) ⊎ (result ≡ 3))
        → WasCut (λ input. IsBadWords) left (K.held sink.old) (K.held sink.new) }
    ensures fault { result ≡ 3 → Rose (K.faults sink.old) (K.faults sink.new) }
    ensures count { K.faults sink.old ≤ K.faults sink.new }
{
    tell(sink, BAD_WORDS, 4)
}

/// Writes the generator's listing for a number.
fn tell_generated<K: Sink>(alloc: Global, number: u64, sink: &mut K) -> u8
    ensures statuses { (result ≤ 6) × (result ≢ 2) × (result ≢ 4) }
    ensures whole { (left : Option (List ℕ)) → IsWhole result
        → Wrote (λ input. IsGenerated number) left result (K.held sink.old) (K.held sink.new) }
    ensures cut { (left : Option (List ℕ)) → ((result ≡ 1) ⊎ (result ≡ 3))
        → WasCut (λ input. IsGenerated number) left (K.held sink.old) (K.held sink.new) }
    ensures fault { result ≡ 3 → Rose (K.faults sink.old) (K.faults sink.new) }
    ensures count { K.faults sink.old ≤ K.faults sink.new }
{
    match generate(alloc, number) {
        Ok(answer) => tell(sink, answer.text.as_slice(), answer.status),
        Err(_) => 1,
    }
}

/// Writes the short summary of that listing's run.
fn tell_summary<K: Sink>(alloc: Global, number: u64, sink: &mut K) -> u8
    ensures statuses { (result ≤ 6) × (result ≢ 2) × (result ≢ 4) }
    ensures whole { (left : Option (List ℕ)) → IsWhole result
        → Wrote (λ input. IsSummary number) left result (K.held sink.old) (K.held sink.new) }
    ensures cut { (left : Option (List ℕ)) → ((result ≡ 1) ⊎ (result ≡ 3))
        → WasCut (λ input. IsSummary number) left (K.held sink.old) (K.held sink.new) }
    ensures fault { result ≡ 3 → Rose (K.faults sink.old) (K.faults sink.new) }
    ensures count { K.faults sink.old ≤ K.faults sink.new }
{
    match summary(alloc, number) {
        Ok(answer) => tell(sink, answer.text.as_slice(), answer.status),
        Err(_) => 1,
    }
}

/// Does what the words ask for.
fn answer<R: Threads + Wait + Sync, S: Source, K: Sink, G: Gate>(
    rt: &R,
    alloc: Global,
    errand: Errand,
    source: &mut S,
    sink: &mut K,
    gate: &G,
) -> u8
    requires { IsReady errand }
    ensures statuses { result ≤ 7 }
    ensures whole { IsWhole result
        → Wrote (due errand) (S.left source.old) result (K.held sink.old) (K.held sink.new) }
    ensures cut { ((result ≡ 1) ⊎ (result ≡ 3))
        → WasCut (due errand) (S.left source.old) (K.held sink.old) (K.held sink.new) }
    ensures source { result ≡ 2 → (reads errand ≡ true)
        × Rose (S.faults source.old) (S.faults source.new) × Keeps (K.held sink.old) (K.held sink.new) }
    ensures sink { result ≡ 3 → Rose (K.faults sink.old) (K.faults sink.new) }
    ensures source_count { S.faults source.old ≤ S.faults source.new }
    ensures sink_count { K.faults sink.old ≤ K.faults sink.new }
    ensures read { reads errand ≡ true → IsDone result → IsAtEnd (S.left source.new) }
    ensures unread { reads errand ≡ false → Keeps (S.left source.old) (S.left source.new) }
{
    match errand {
        Errand::Input(request) => answer_input(alloc, request, source, sink),
        Errand::Race { turns, tick } => race_input(rt, alloc, turns, tick, source, sink, gate),
        Errand::Generate(number) => tell_generated(alloc, number, sink),
        Errand::Summary(number) => tell_summary(alloc, number, sink),
        Errand::Nothing => tell_bad_words(sink),
    }
}

/// Answers the words and the bytes of the source, and gives the exit status.
///
/// The words are those of the command line, without the program's name: `list`, `run` with `--turns`,
/// `--tick` and `--seed`, `step` and `heat` with the same, `race` with the first two, `deck` with `--read` and
/// `--origin`, `generate` and `summary` with a number, and `check`. Everything is written to the sink. `race` makes its threads
/// and waits for them by `rt`; its workers pass the gate.
///
/// | Status | Comes | Written |
/// |---|---|---|
/// | 0 | the command is done; in `run`, `race`, `summary`, `step` and `heat` every CPU is finished | the whole text |
/// | 1 | for want of memory | a beginning of what is due, perhaps nothing |
/// | 2 | only where the source's count of faults rose | nothing |
/// | 3 | only where the sink's count of faults rose | a beginning of what is due |
/// | 4 | the words are no command line | `ztx: bad words` |
/// | 5 | the input is no listing, no deck, or for `step` has a bad command | the line of its first fault |
/// | 6 | `run`, `race`, `summary`, `step` or `heat`, and some CPU is not finished | the whole text |
/// | 7 | `check`, and the report is not sound | the line or the entry at which it is refused |
///
/// The words are looked at first, then `list`, `run`, `race`, `deck`, `step`, `heat` and `check` read the source to
/// its end, and writing comes last; the first that fails gives the status, so 0, 4, 5, 6 and 7 come where the writing
/// succeeded. Two races of one listing may give two reports; each is that of the events that it prints.
pub fn ztx_top<R: Threads + Wait + Sync, S: Source, K: Sink, G: Gate>(
    rt: &R,
    alloc: Global,
    words: &[String],
    source: &mut S,
    sink: &mut K,
    gate: &G,
) -> u8
    ensures statuses { result ≤ 7 }

    // The whole text was written that is due with this status, to these words and this input.
    ensures whole { IsWhole result → Wrote (due (asked (map string_bytes words.now))) (S.left source.old)
        result (K.held sink.old) (K.held sink.new) }

    // Behind 1 and 3 nothing is written, or a beginning of what is due.
    ensures cut { ((result ≡ 1) ⊎ (result ≡ 3)) → WasCut (due (asked (map string_bytes words.now)))
        (S.left source.old) (K.held sink.old) (K.held sink.new) }

    // Faults of the source and of the sink.
    ensures source { result ≡ 2 → (reads (asked (map string_bytes words.now)) ≡ true)
        × Rose (S.faults source.old) (S.faults source.new) × Keeps (K.held sink.old) (K.held sink.new) }
    ensures sink { result ≡ 3 → Rose (K.faults sink.old) (K.faults sink.new) }
    ensures source_count { S.faults source.old ≤ S.faults source.new }
    ensures sink_count { K.faults sink.old ≤ K.faults sink.new }

    // What is read: an input to its end, and else nothing.
    ensures read { reads (asked (map string_bytes words.now)) ≡ true → IsDone result
        → IsAtEnd (S.left source.new) }
    ensures unread { reads (asked (map string_bytes words.now)) ≡ false
        → Keeps (S.left source.old) (S.left source.new) }
{
    match read_words(alloc, words) {
        Ok(command) => answer(rt, alloc, errand_of(command), source, sink, gate),
        Err(_) => 1,
    }
}

/// The same over a source and a sink that never fail. A text that is due came whole, or 1 for want of memory. But
/// for a race words and input alone say what comes: the one status and the one text that are due, or 1, with a
/// beginning of that text, perhaps nothing.
pub fn sure_top<R: Threads + Wait + Sync, G: Gate>(
    rt: &R,
    alloc: Global,
    words: &[String],
    source: &mut SureSource,
    sink: &mut SureSink,
    gate: &G,
) -> u8
    ensures statuses { (result ≤ 7) × (result ≢ 2) × (result ≢ 3) }
    ensures whole { result ≢ 1 → Wrote (due (asked (map string_bytes words.now)))
        (⟦<SureSource as Source>⟧.left source.old) result (⟦<SureSink as Sink>⟧.held sink.old)
        (⟦<SureSink as Sink>⟧.held sink.new) }
    ensures answer { is_settled (asked (map string_bytes words.now)) ≡ true → (status : ℕ) (text : List ℕ)
        → IfSome (⟦<SureSource as Source>⟧.left source.old) (λ input.
        due (asked (map string_bytes words.now)) input status text
        → Tells result status text (⟦<SureSink as Sink>⟧.held sink.old)
        (⟦<SureSink as Sink>⟧.held sink.new)) }
{
    one_answer_is_due();
    ztx_top(rt, alloc, words, source, sink, gate)
}
