//! Texts written to the sink, and requests on an input: it is read to its end, and then what is due to it is written.
ghost use Rattle.std.specs.Prelude.{◌≡◌, ◌≢◌, ℕ, ◌≤◌, ◌⊎◌, List, Option, length};
ghost use Rattle.std.specs.Io.KnownBytes.{Appends, IsAtEnd, Keeps};
ghost use Rattle.ztx_answers.specs.Requests.{IsAllowed, IsDue, most_of};
ghost use Rattle.ztx_io.specs.Faults.{Rose};
ghost use Rattle.ztx_io.specs.Writes.{AppendsPrefix};
ghost use Rattle.ztx_top.specs.Answers.{IsDone, IsInput, IsLong, IsWhole, Wrote, WasCut};

use std::alloc::Global;
use ztx_answers::{Request, answer_to, most_bytes, refuse_long};
use ztx_io::{InFault, OutFault, Sink, Source, read_all, write_all};

/// Writes a text, and answers the status, or 1 or 3 where it was not written whole.
pub fn tell<K: Sink>(sink: &mut K, text: &[u8], status: u8) -> u8
    requires { (status ≢ 1) × (status ≢ 3) }
    ensures statuses { (result ≡ status) ⊎ ((result ≡ 1) ⊎ (result ≡ 3)) }
    ensures done { result ≡ status → Appends (K.held sink.old) (K.held sink.new) text.now }
    ensures cut { ((result ≡ 1) ⊎ (result ≡ 3)) → AppendsPrefix (K.held sink.old) (K.held sink.new) text.now }
    ensures fault { result ≡ 3 → Rose (K.faults sink.old) (K.faults sink.new) }
    ensures count { K.faults sink.old ≤ K.faults sink.new }
{
    match write_all(sink, text) {
        Ok(()) => status,
        Err(OutFault::Memory) => 1,
        Err(OutFault::Write) => 3,
    }
}

/// Writes what is due to an input that is too long.
fn tell_long<K: Sink>(alloc: Global, request: Request, sink: &mut K) -> u8
    ensures statuses { (result ≡ 5) ⊎ ((result ≡ 1) ⊎ (result ≡ 3)) }
    ensures whole { (left : Option (List ℕ)) → IsLong (most_of request) left → IsWhole result
        → Wrote (IsDue request) left result (K.held sink.old) (K.held sink.new) }
    ensures cut { (left : Option (List ℕ)) → IsLong (most_of request) left → ((result ≡ 1) ⊎ (result ≡ 3))
        → WasCut (IsDue request) left (K.held sink.old) (K.held sink.new) }
    ensures fault { result ≡ 3 → Rose (K.faults sink.old) (K.faults sink.new) }
    ensures count { K.faults sink.old ≤ K.faults sink.new }
{
    match refuse_long(alloc, request) {
        Ok(answer) => tell(sink, answer.text.as_slice(), answer.status),
        Err(_) => 1,
    }
}

/// Writes what is due to an input that is not too long.
fn tell_due<K: Sink>(alloc: Global, request: Request, input: &[u8], sink: &mut K) -> u8
    requires allowed { IsAllowed request }
    requires short { length input.now ≤ most_of request }
    ensures statuses { (result ≤ 7) × (result ≢ 2) × (result ≢ 4) }
    ensures whole { (left : Option (List ℕ)) → IsInput left input.now → IsWhole result
        → Wrote (IsDue request) left result (K.held sink.old) (K.held sink.new) }
    ensures cut { (left : Option (List ℕ)) → IsInput left input.now → ((result ≡ 1) ⊎ (result ≡ 3))
        → WasCut (IsDue request) left (K.held sink.old) (K.held sink.new) }
    ensures fault { result ≡ 3 → Rose (K.faults sink.old) (K.faults sink.new) }
    ensures count { K.faults sink.old ≤ K.faults sink.new }
{
    match answer_to(alloc, request, input) {
        Ok(answer) => tell(sink, answer.text.as_slice(), answer.status),
        Err(_) => 1,
    }
}

/// Reads an input, and writes what is due to it.
pub fn answer_input<S: Source, K: Sink>(
    alloc: Global,
    request: Request,
    source: &mut S,
    sink: &mut K,
) -> u8
    requires { IsAllowed request }
    ensures statuses { (result ≤ 7) × (result ≢ 4) }
    ensures whole { IsWhole result
        → Wrote (IsDue request) (S.left source.old) result (K.held sink.old) (K.held sink.new) }
    ensures cut { ((result ≡ 1) ⊎ (result ≡ 3))
        → WasCut (IsDue request) (S.left source.old) (K.held sink.old) (K.held sink.new) }
    ensures source { result ≡ 2
        → Rose (S.faults source.old) (S.faults source.new) × Keeps (K.held sink.old) (K.held sink.new) }
    ensures sink { result ≡ 3 → Rose (K.faults sink.old) (K.faults sink.new) }
    ensures read { IsDone result → IsAtEnd (S.left source.new) }
    ensures source_count { S.faults source.old ≤ S.faults source.new }
    ensures sink_count { K.faults sink.old ≤ K.faults sink.new }
{
    match read_all(alloc, source, most_bytes(request)) {
        Ok(input) => tell_due(alloc, request, input.as_slice(), sink),
        Err(InFault::Memory) => 1,
        Err(InFault::Read) => 2,
        Err(InFault::TooLong) => tell_long(alloc, request, sink),
    }
}
