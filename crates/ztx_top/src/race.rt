//! `race`: a listing is read to its end, its CPUs race, and the report of what they did is written.
ghost use Rattle.std.specs.Prelude.{◌≡◌, ◌≢◌, ℕ, ◌≤◌, ◌⊎◌, [], List, Option, IfOk, length};
ghost use Rattle.std.specs.Io.KnownBytes.{IsAtEnd, Keeps};
ghost use Rattle.listing_answers.specs.Due.{IsRefusal, IsStatus};
ghost use Rattle.ztx_answers.specs.Races.{IsDueToRace, IsNoRace, MayRace};
ghost use Rattle.ztx_answers.specs.Runs.{AreLimits};
ghost use Rattle.ztx_io.specs.Faults.{Rose};
ghost use Rattle.ztx_top.specs.Answers.{IsInput, IsLong, IsWhole, Wrote, WasCut};

use crate::input::tell;
use listing_answers::{Answer, NoMemory};
use std::alloc::Global;
use std::sync::Wait;
use std::thread::Threads;
use tx_race::{Gate, Machine, race};
use z_assemble::MOST_BYTES;
use ztx_answers::{NoRace, prepare_race, refuse_long_race, report_race};
use ztx_io::{InFault, Sink, Source, read_all};

/// Lets the CPUs of a machine race, and gives the report of what they did.
fn race_machine<R: Threads + Wait + Sync, G: Gate>(
    rt: &R,
    alloc: Global,
    turns: u32,
    tick: u32,
    machine: Machine,
    gate: &G,
) -> Result<Answer, NoMemory>
    requires limits { AreLimits turns tick }
    requires unused { machine.events ≡ [] }
    requires externals { machine.limits.externals ≡ 0 }
    ensures due { IfOk result (λ answer. (input : List ℕ) → MayRace turns tick input machine
        → IsDueToRace turns tick input answer.status answer.text.items) }
    ensures statuses { IfOk result (λ answer. IsStatus answer.status) }
{
    match race(rt, alloc, machine, gate) {
        Ok(raced) => report_race(alloc, &raced.machine),
        Err(_) => Err(NoMemory),
    }
}

/// What is answered where no race begins.
fn answer_refusal(refusal: NoRace) -> Result<Answer, NoMemory>
    ensures { (input : List ℕ) → IsNoRace input refusal
        → IfOk result (λ answer. IsRefusal input answer.status answer.text.items) }
{
    match refusal {
        NoRace::Memory => Err(NoMemory),
        NoRace::Refused(answer) => Ok(answer),
    }
}

/// What `race` answers to the bytes of a listing.
fn answer_race<R: Threads + Wait + Sync, G: Gate>(
    rt: &R,
    alloc: Global,
    turns: u32,
    tick: u32,
    input: &[u8],
    gate: &G,
) -> Result<Answer, NoMemory>
    requires { AreLimits turns tick }
    ensures due { IfOk result (λ answer.
        IsDueToRace turns tick input.now answer.status answer.text.items) }
    ensures statuses { IfOk result (λ answer. IsStatus answer.status) }
{
    match prepare_race(alloc, input, turns, tick) {
        Ok(machine) => race_machine(rt, alloc, turns, tick, machine, gate),
        Err(refusal) => answer_refusal(refusal),
    }
}

/// Writes what is due to an input that is too long.
fn tell_long_race<K: Sink>(alloc: Global, sink: &mut K) -> u8
    ensures statuses { (result ≡ 5) ⊎ ((result ≡ 1) ⊎ (result ≡ 3)) }
    ensures whole { (turns tick : ℕ) (left : Option (List ℕ)) → IsLong 16777216 left → IsWhole result
        → Wrote (IsDueToRace turns tick) left result (K.held sink.old) (K.held sink.new) }
    ensures cut { (turns tick : ℕ) (left : Option (List ℕ)) → IsLong 16777216 left
        → ((result ≡ 1) ⊎ (result ≡ 3))
        → WasCut (IsDueToRace turns tick) left (K.held sink.old) (K.held sink.new) }
    ensures fault { result ≡ 3 → Rose (K.faults sink.old) (K.faults sink.new) }
    ensures count { K.faults sink.old ≤ K.faults sink.new }
{
    match refuse_long_race(alloc) {
        Ok(answer) => tell(sink, answer.text.as_slice(), answer.status),
        Err(_) => 1,
    }
}

/// Lets the CPUs of a listing race, and writes what is due.
fn tell_race<R: Threads + Wait + Sync, K: Sink, G: Gate>(
    rt: &R,
    alloc: Global,
    turns: u32,
    tick: u32,
    input: &[u8],
    sink: &mut K,
    gate: &G,
) -> u8
    requires { AreLimits turns tick }
    ensures statuses { (result ≤ 6) × (result ≢ 2) × (result ≢ 4) }
    ensures whole { (left : Option (List ℕ)) → IsInput left input.now → IsWhole result
        → Wrote (IsDueToRace turns tick) left result (K.held sink.old) (K.held sink.new) }
    ensures cut { (left : Option (List ℕ)) → IsInput left input.now → ((result ≡ 1) ⊎ (result ≡ 3))
        → WasCut (IsDueToRace turns tick) left (K.held sink.old) (K.held sink.new) }
    ensures fault { result ≡ 3 → Rose (K.faults sink.old) (K.faults sink.new) }
    ensures count { K.faults sink.old ≤ K.faults sink.new }
{
    match answer_race(rt, alloc, turns, tick, input, gate) {
        Ok(answer) => tell(sink, answer.text.as_slice(), answer.status),
        Err(_) => 1,
    }
}

/// Reads a listing, lets its CPUs race, and writes the report of the events that they have made.
pub fn race_input<R: Threads + Wait + Sync, S: Source, K: Sink, G: Gate>(
    rt: &R,
    alloc: Global,
    turns: u32,
    tick: u32,
    source: &mut S,
    sink: &mut K,
    gate: &G,
) -> u8
    requires { AreLimits turns tick }
    ensures statuses { (result ≤ 6) × (result ≢ 4) }
    ensures whole { IsWhole result
        → Wrote (IsDueToRace turns tick) (S.left source.old) result (K.held sink.old) (K.held sink.new) }
    ensures cut { ((result ≡ 1) ⊎ (result ≡ 3))
        → WasCut (IsDueToRace turns tick) (S.left source.old) (K.held sink.old) (K.held sink.new) }
    ensures source { result ≡ 2
        → Rose (S.faults source.old) (S.faults source.new) × Keeps (K.held sink.old) (K.held sink.new) }
    ensures sink { result ≡ 3 → Rose (K.faults sink.old) (K.faults sink.new) }
    ensures read { ((result ≡ 0) ⊎ (result ≡ 6)) → IsAtEnd (S.left source.new) }
    ensures source_count { S.faults source.old ≤ S.faults source.new }
    ensures sink_count { K.faults sink.old ≤ K.faults sink.new }
{
    match read_all(alloc, source, MOST_BYTES) {
        Ok(input) => tell_race(rt, alloc, turns, tick, input.as_slice(), sink, gate),
        Err(InFault::Memory) => 1,
        Err(InFault::Read) => 2,
        Err(InFault::TooLong) => tell_long_race(alloc, sink),
    }
}
