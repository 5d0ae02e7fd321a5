//! An event more of a run whose conflicts are counted.
ghost use Rattle.std.specs.Prelude.{◌≡◌, ◌≢◌, ℕ, ◌+◌, ◌^◌, ◌<◌, ◌≤◌, ◌++◌, ◌∷◌, [], List, Option, Some, true, false};
ghost use Rattle.std.specs.Prelude.{IfOk, length, drop, count_by, slice_get};
ghost use Rattle.std.specs.List.{flat_map};
ghost use Rattle.z_regs.specs.declared.ranges.Range.{Range};
ghost use Rattle.tx_journal.specs.Image.{cpu_of_event};
ghost use Rattle.tx_journal.specs.declared.events.Event.{Event};
ghost use Rattle.tx_meaning.specs.Limits.{Setting};
ghost use Rattle.tx_meaning.specs.Meaning.{IsSetting, is_external};
ghost use Rattle.tx_meaning.specs.Views.{GoesOnWith};
ghost use Rattle.tx_meaning.specs.State.{State, beginning, is_live, attempt_of};
ghost use Rattle.tx_schedule.specs.Machine.{setting_of, state_of, event_of, after};
ghost use Rattle.tx_schedule.specs.Wanted.{wanted};
ghost use Rattle.tx_heat.specs.Conflicts.{Conflict, line_of_cause, abort_of, reject_of};
ghost use Rattle.tx_heat.specs.Conflicts.{conflict, conflict_where, aborts_by, conflicts_in};
ghost use Rattle.tx_heat.specs.Octowords.{are_apart};
ghost use Rattle.tx_heat.specs.Watched.{Tracked, AreInside, AreTracks, IsTrack, SpeaksFor, AreCounted, HasRoom};
ghost use Rattle.tx_heat.specs.Watched.{Passes, IsReached, StaysBeside, Waits, aborts, is_abort};

use crate::counting::{Clash, LineHeat, count};
use crate::track::Track;
use std::alloc::{AllocError, Global};
use tx_control::Why;
use tx_journal::{Entry, Event};
use tx_meaning::Reject;
use tx_schedule::Machine;
use z_regs::Touches;

/// The lines of storage.
const LINES: u32 = 4096;

/// What is kept of so many CPUs before the first event: nothing is marked. The error is want of memory.
pub fn no_tracks(alloc: Global, cpus: u32) -> Result<Vec<Track>, AllocError>
    ensures tracks { IfOk result (λ tracks. (m : Setting) → AreTracks m beginning tracks.items) }
    ensures count { IfOk result (λ tracks. length tracks.items ≡ cpus) }
{
    let mut tracks = Vec::with_capacity(alloc, cpus as usize)?;
    for _cpu in 0..cpus {
        tracks.push(Track::none(alloc)?)?;
    }
    Ok(tracks)
}

/// The line of a cause that another CPU's request is.
fn line_of(why: Why) -> Option<u32>
    ensures { result ≡ line_of_cause why }
{
    match why {
        Why::FetchConflict(line) => Some(line),
        Why::StoreConflict(line) => Some(line),
        Why::External => None,
        Why::Program(_) => None,
        Why::FetchOverflow => None,
        Why::StoreOverflow => None,
        Why::Restricted => None,
        Why::Filtered(_) => None,
        Why::Depth => None,
        Why::Starved => None,
        Why::Tabort(_) => None,
    }
}

/// Whether what is asked for lies apart from what a CPU has touched of a line.
fn are_apart(tracks: &[Track], asked: &Touches, holder: u32, line: u32) -> bool
    requires inside { AreInside asked.now }
    requires line { line < 4096 }
    ensures { (m : Setting) (s : State) → AreTracks m s tracks.now
        → result ≡ are_apart asked.now (attempt_of m s holder).touched line }
{
    let at = holder as usize;
    if at < tracks.len() {
        return tracks[at].are_apart(asked, line);
    }
    true
}

/// Counts a conflict with this holder and line.
fn count_one(
    lines: &mut [LineHeat],
    tracks: &[Track],
    asked: &Touches,
    at: (u32, u32),
    rejected: bool,
)
    requires inside { AreInside asked.now }
    requires room { HasRoom lines.old 1 }
    ensures counted { (m : Setting) (s : State) (e : Event) (found : List Conflict) → AreTracks m s tracks.now
        → SpeaksFor m s (cpu_of_event e) asked.now → AreCounted lines.old found
        → AreCounted lines.new (found ++ conflict m s e at.0 at.1 rejected ∷ []) }
    ensures room { (n : ℕ) → HasRoom lines.old (n + 1) → HasRoom lines.new n }
{
    if at.1 < LINES {
        let clash = Clash {
            line: at.1,
            rejected,
            apart: are_apart(tracks, asked, at.0, at.1),
        };
        count(lines, clash);
    }
}

/// Counts a conflict with this holder and line, where there is one.
fn count_at(
    lines: &mut [LineHeat],
    tracks: &[Track],
    asked: &Touches,
    at: Option<(u32, u32)>,
    rejected: bool,
)
    requires inside { AreInside asked.now }
    requires room { HasRoom lines.old 1 }
    ensures counted { (m : Setting) (s : State) (e : Event) (found : List Conflict) → AreTracks m s tracks.now
        → SpeaksFor m s (cpu_of_event e) asked.now → AreCounted lines.old found
        → AreCounted lines.new (found ++ conflict_where m s e rejected at) }
    ensures room { (n : ℕ) → HasRoom lines.old (n + 1) → HasRoom lines.new n }
{
    if let Some(at) = at {
        count_one(lines, tracks, asked, at, rejected);
    }
}

/// The holder and the line of an abort by another CPU's request.
fn abort_in(entry: &Entry) -> Option<(u32, u32)>
    ensures { result ≡ abort_of entry.now }
{
    match entry {
        Entry::Abort(holder, _, why) => {
            let line = line_of(*why)?;
            Some((*holder, line))
        }
        Entry::Step(_) => None,
        Entry::Commit(_, _) => None,
        Entry::Tdb(_) => None,
        Entry::Interrupt(_) => None,
    }
}

/// Counts the aborts that entries tell of.
fn count_aborts(lines: &mut [LineHeat], tracks: &[Track], asked: &Touches, entries: &[Entry])
    requires inside { AreInside asked.now }
    requires room { HasRoom lines.old (length entries.now) }
    ensures counted { (m : Setting) (s : State) (e : Event) (found : List Conflict) → AreTracks m s tracks.now
        → SpeaksFor m s (cpu_of_event e) asked.now → AreCounted lines.old found
        → AreCounted lines.new (found ++ flat_map (aborts_by m s e) entries.now) }
    ensures room { (n : ℕ) → HasRoom lines.old (n + length entries.now) → HasRoom lines.new n }
{
    for entry in entries {
        count_at(lines, tracks, asked, abort_in(entry), false);
    }
}

/// The holder and the line of a reject.
fn reject_in(reject: Option<Reject>) -> Option<(u32, u32)>
    ensures { result ≡ reject_of reject }
{
    let reject = reject?;
    Some((reject.by, reject.line))
}

/// Counts the conflicts of an event: the aborts that its entries tell of, and its reject.
fn count_conflicts(
    lines: &mut [LineHeat],
    tracks: &[Track],
    cpu: u32,
    entries: &[Entry],
    reject: Option<Reject>,
)
    requires cpu { cpu < length tracks.now }
    requires room { HasRoom lines.old (1 + length entries.now) }
    ensures { (m : Setting) (s : State) (e : Event) (found : List Conflict) → AreTracks m s tracks.now
        → ((t : Tracked) → slice_get tracks.now cpu ≡ Some t → SpeaksFor m s (cpu_of_event e) t.asked)
        → AreCounted lines.old found
        → AreCounted lines.new ((found ++ flat_map (aborts_by m s e) entries.now)
        ++ conflict_where m s e true (reject_of reject)) }
{
    let asked = tracks[cpu as usize].asked();
    count_aborts(lines, tracks, asked, entries);
    count_at(lines, tracks, asked, reject_in(reject), true);
}

/// The CPU that an event is of.
fn cpu_of(e: Event) -> u32
    ensures { result ≡ cpu_of_event e }
{
    match e {
        Event::Turn(cpu) => cpu,
        Event::External(cpu) => cpu,
    }
}

/// How many instructions the live attempt of a CPU has completed; 0 exactly where none is live.
fn completed(machine: &Machine, cpu: u32) -> u32
    requires { cpu < length machine.now.image.cpus }
    ensures { result ≡ ((state_of machine.now).numbers cpu).completed }
{
    match machine.live(cpu) {
        None => 0,
        Some((_depth, completed)) => completed,
    }
}

/// What is kept of an event's CPU, behind the event.
#[inline(always)]
fn track_own(machine: &Machine, track: &mut Track, cpu: u32)
    requires { cpu < length machine.now.image.cpus }
    ensures { (s : State) → (is_live s cpu ≡ true → track.old.asked ≡ wanted (setting_of machine.now) s cpu)
        → Passes (setting_of machine.now) s (state_of machine.now) cpu track.old.asked cpu
        → IsTrack (setting_of machine.now) s cpu track.old
        → IsTrack (setting_of machine.now) (state_of machine.now) cpu track.new }
{
    let now = completed(machine, cpu);
    if now == track.completed() {
        track.stay();
    } else if now == 0 {
        track.clear();
    } else if track.completed() == 0 {
        track.begin(now);
    } else {
        track.go_on(now);
    }
}

/// What is kept of a CPU behind an event of another one.
fn track_other(machine: &Machine, track: &mut Track, cpu: u32)
    requires { cpu < length machine.now.image.cpus }
    ensures { (s : State) (asker : ℕ) (asked : List Range) → cpu ≢ asker
        → Passes (setting_of machine.now) s (state_of machine.now) asker asked cpu
        → IsTrack (setting_of machine.now) s cpu track.old
        → IsTrack (setting_of machine.now) (state_of machine.now) cpu track.new }
{
    if completed(machine, cpu) == 0 {
        track.clear();
    }
}

/// What is kept of a CPU behind an event of a CPU, of this one or of another one.
fn track_one(machine: &Machine, track: &mut Track, cpu: u32, asker: u32)
    requires { cpu < length machine.now.image.cpus }
    ensures { (s : State) (asked : List Range)
        → (cpu ≡ asker → track.old.asked ≡ asked)
        → (is_live s asker ≡ true → asked ≡ wanted (setting_of machine.now) s asker)
        → Passes (setting_of machine.now) s (state_of machine.now) asker asked cpu
        → IsTrack (setting_of machine.now) s cpu track.old
        → IsTrack (setting_of machine.now) (state_of machine.now) cpu track.new }
{
    if cpu == asker {
        track_own(machine, track, cpu);
    } else {
        track_other(machine, track, cpu);
    }
}

/// What is kept of all CPUs, behind an event of one of them.
fn track_all(machine: &Machine, tracks: &mut [Track], asker: u32)
    requires known { length tracks.old ≡ length machine.now.image.cpus }
    requires asker { asker < length machine.now.image.cpus }
    ensures { (s : State) (asked : List Range)
        → ((t : Tracked) → slice_get tracks.old asker ≡ Some t → t.asked ≡ asked)
        → (is_live s asker ≡ true → asked ≡ wanted (setting_of machine.now) s asker)
        → ((j : ℕ) → Passes (setting_of machine.now) s (state_of machine.now) asker asked j)
        → AreTracks (setting_of machine.now) s tracks.old
        → AreTracks (setting_of machine.now) (state_of machine.now) tracks.new }
{
    for cpu in 0..machine.image().cpu_count() {
        track_one(machine, &mut tracks[cpu as usize], cpu, asker);
    }
}

/// Whether an entry tells of an abort.
fn is_abort(entry: &Entry) -> bool
    ensures { result ≡ is_abort entry.now }
{
    matches!(entry, Entry::Abort(_, _, _))
}

/// Whether entries tell of an abort.
fn has_abort(entries: &[Entry]) -> bool
    ensures { result ≡ false → aborts entries.now ≡ 0 }
{
    for entry in entries {
        if is_abort(entry) {
            return true;
        }
    }
    false
}

/// What is kept of all CPUs, behind an event that adds these entries to the history. Where they tell of no abort, it is
/// the same of all others.
fn track(machine: &Machine, tracks: &mut [Track], entries: &[Entry], asker: u32)
    requires known { length tracks.old ≡ length machine.now.image.cpus }
    requires asker { asker < length machine.now.image.cpus }
    ensures { (s : State) (asked : List Range)
        → ((t : Tracked) → slice_get tracks.old asker ≡ Some t → t.asked ≡ asked)
        → (is_live s asker ≡ true → asked ≡ wanted (setting_of machine.now) s asker)
        → ((j : ℕ) → Passes (setting_of machine.now) s (state_of machine.now) asker asked j)
        → (aborts entries.now ≡ 0 → StaysBeside s (state_of machine.now) asker)
        → AreTracks (setting_of machine.now) s tracks.old
        → AreTracks (setting_of machine.now) (state_of machine.now) tracks.new }
{
    if has_abort(entries) {
        track_all(machine, tracks, asker);
        return;
    }
    track_own(machine, &mut tracks[asker as usize], asker);
}

/// How many entries the history has.
fn entry_count(machine: &Machine) -> usize
    ensures { result ≡ length (state_of machine.now).history }
{
    machine.journal().len()
}

/// The entries of the history behind the first so many.
fn entries_behind(machine: &Machine, before: usize) -> &[Entry]
    requires { before ≤ length (state_of machine.now).history }
    ensures { result.now ≡ drop before (state_of machine.now).history }
{
    &machine.journal()[before..]
}

/// Whether no CPU has a live attempt.
fn are_none_live(tracks: &[Track]) -> bool
    ensures { result ≡ true → (j : ℕ) (t : Tracked) → slice_get tracks.now j ≡ Some t → t.completed ≡ 0 }
{
    for track in tracks {
        if track.completed() > 0 {
            return false;
        }
    }
    true
}

/// Finds out what a CPU asks for next, unless that is known. Where no CPU has a live attempt, nobody needs it: what is
/// asked for lies apart from all that was touched.
fn hear(machine: &Machine, tracks: &mut [Track], cpu: u32)
    requires cpus { length tracks.old ≡ length machine.now.image.cpus }
    requires cpu { cpu < length machine.now.image.cpus }
    requires tracks { AreTracks (setting_of machine.now) (state_of machine.now) tracks.old }
    ensures tracks { AreTracks (setting_of machine.now) (state_of machine.now) tracks.new }
    ensures speaks { (t : Tracked) → slice_get tracks.new cpu ≡ Some t
        → SpeaksFor (setting_of machine.now) (state_of machine.now) cpu t.asked }
{
    let own = &tracks[cpu as usize];
    if own.is_known() {
        return;
    }
    if own.completed() == 0 && are_none_live(tracks) {
        return;
    }
    tracks[cpu as usize].ask(machine, cpu);
}

/// Whether an event is a turn in which the CPU does nothing but wait, unless it is idle or interrupted from outside.
fn waits(machine: &Machine, e: Event) -> bool
    requires { cpu_of_event e < length machine.now.image.cpus }
    ensures { result ≡ true → Waits (state_of machine.now) e }
{
    match e {
        Event::Turn(cpu) => machine.tally(cpu).delay > 0,
        Event::External(_) => false,
    }
}

/// Whether an event is such a turn, and its CPU has no live attempt.
fn rests(machine: &Machine, track: &Track, e: Event) -> bool
    requires { cpu_of_event e < length machine.now.image.cpus }
    ensures over { result ≡ true → track.now.completed ≡ 0 }
    ensures waits { result ≡ true → Waits (state_of machine.now) e }
{
    track.completed() == 0 && waits(machine, e)
}

/// One event more, in which nothing is asked for, and nothing that is kept changes.
fn wait(machine: &mut Machine, tracks: &[Track], e: Event)
    requires setting { IsSetting (setting_of machine.old) }
    requires reached { IsReached (setting_of machine.old) (state_of machine.old) }
    requires known { cpu_of_event e < length machine.old.image.cpus }
    requires external { is_external e ≡ true
        → count_by is_external machine.old.events < machine.old.limits.externals }
    requires tracks { AreTracks (setting_of machine.old) (state_of machine.old) tracks.now }
    requires over { is_live (state_of machine.old) (cpu_of_event e) ≡ false }
    requires waits { Waits (state_of machine.old) e }
    ensures machine { machine.new ≡ after machine.old e }
    ensures state { state_of machine.new ≡ (event_of machine.old e).state }
    ensures grows { GoesOnWith (state_of machine.old).history (state_of machine.new).history }
    ensures tracks { AreTracks (setting_of machine.old) (state_of machine.new) tracks.now }
    ensures none { conflicts_in (setting_of machine.old) (state_of machine.old) e ≡ [] }
{
    let _outcome = machine.event(e);
}

/// One event more, in front of which it was found out what its CPU asks for.
fn act(machine: &mut Machine, tracks: &mut [Track], lines: &mut [LineHeat], e: Event)
    requires setting { IsSetting (setting_of machine.old) }
    requires reached { IsReached (setting_of machine.old) (state_of machine.old) }
    requires known { cpu_of_event e < length machine.old.image.cpus }
    requires external { is_external e ≡ true
        → count_by is_external machine.old.events < machine.old.limits.externals }
    requires cpus { length tracks.old ≡ length machine.old.image.cpus }
    requires tracks { AreTracks (setting_of machine.old) (state_of machine.old) tracks.old }
    requires speaks { (t : Tracked) → slice_get tracks.old (cpu_of_event e) ≡ Some t
        → SpeaksFor (setting_of machine.old) (state_of machine.old) (cpu_of_event e) t.asked }
    requires room { HasRoom lines.old (2 ^ 33) }
    ensures machine { machine.new ≡ after machine.old e }
    ensures state { state_of machine.new ≡ (event_of machine.old e).state }
    ensures grows { GoesOnWith (state_of machine.old).history (state_of machine.new).history }
    ensures tracks { AreTracks (setting_of machine.old) (state_of machine.new) tracks.new }
    ensures counted { (found : List Conflict) → AreCounted lines.old found → AreCounted lines.new
        (found ++ conflicts_in (setting_of machine.old) (state_of machine.old) e) }
{
    let cpu = cpu_of(e);
    let before = entry_count(machine);
    let _outcome = machine.event(e);
    let _tally = machine.tally(cpu);
    let entries = entries_behind(machine, before);
    count_conflicts(lines, tracks, cpu, entries, machine.last_reject());
    track(machine, tracks, entries, cpu);
}

/// One event more.
pub fn follow(machine: &mut Machine, tracks: &mut [Track], lines: &mut [LineHeat], e: Event)
    requires setting { IsSetting (setting_of machine.old) }
    requires reached { IsReached (setting_of machine.old) (state_of machine.old) }
    requires known { cpu_of_event e < length machine.old.image.cpus }
    requires external { is_external e ≡ true
        → count_by is_external machine.old.events < machine.old.limits.externals }
    requires cpus { length tracks.old ≡ length machine.old.image.cpus }
    requires tracks { AreTracks (setting_of machine.old) (state_of machine.old) tracks.old }
    requires room { HasRoom lines.old (2 ^ 33) }
    ensures machine { machine.new ≡ after machine.old e }
    ensures state { state_of machine.new ≡ (event_of machine.old e).state }
    ensures grows { GoesOnWith (state_of machine.old).history (state_of machine.new).history }
    ensures tracks { AreTracks (setting_of machine.old) (state_of machine.new) tracks.new }
    ensures counted { (found : List Conflict) → AreCounted lines.old found → AreCounted lines.new
        (found ++ conflicts_in (setting_of machine.old) (state_of machine.old) e) }
{
    let cpu = cpu_of(e);
    if rests(machine, &tracks[cpu as usize], e) {
        wait(machine, tracks, e);
        return;
    }
    hear(machine, tracks, cpu);
    act(machine, tracks, lines, e);
}
