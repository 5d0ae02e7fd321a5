//! From a machine that has run to the marks of a picture: its recorded events happen once more, to another
//! machine, which is looked at behind each.
ghost use Rattle.std.specs.Prelude.{◌≡◌, ◌+◌, ◌<◌, ◌≤◌, IfOk, OnOk, Some, length, slice_get, true, count_by};
ghost use Rattle.tx_journal.specs.Image.{cpu_of_event};
ghost use Rattle.tx_meaning.specs.Meaning.{is_external};
ghost use Rattle.tx_step.specs.Machine.{setting_of, state_of, event_of, after};
ghost use Rattle.tx_watch.specs.Replay.{Replays};
ghost use Rattle.tx_watch.specs.Window.{start_of, turns_in, entries_in};

use crate::marks::{Answer, Arrow, Attempt, Deed, End, Mark, Picture, Placed};
use crate::window::Window;
use std::alloc::{AllocError, Global};
use tx_control::Why;
use tx_journal::{Entry, Event, Image};
use tx_meaning::{Outcome, Reject};
use tx_step::{Machine, NoMemory};
use z_decode::{decode, length_of};
use z_instr::instr::Instr;
use z_regs::STORAGE_SIZE;

/// The bytes of a page.
const PAGE: u64 = 4_096;

/// The abort code of an interruption from outside.
const FROM_OUTSIDE: u64 = 2;

/// The most entries that an event makes: an abort of each other CPU, and one of its own.
const MOST_ROWS: usize = 17;

/// The instruction in the text at an address; None where no text stands there.
fn instruction_at(image: &Image, address: u64) -> Option<Instr> {
    if address % 2 == 1 || address >= STORAGE_SIZE || !image.guard.has((address / PAGE) as u32) {
        return None;
    }
    let storage = image.storage.as_slice();
    let place = address as usize;
    let length = usize::from(length_of(*storage.get(place)?));
    if storage.len() - place < length {
        return None;
    }
    decode(&storage[place..place + length]).ok()
}

/// What the next turn of a CPU is about, if the CPU acts.
fn coming(machine: &Machine, cpu: u32) -> Deed
    requires { cpu < length machine.now.image.cpus }
{
    if let Some(address) = machine.pending(cpu) {
        return Deed::Block(address);
    }
    if let Some(code) = machine.interruption(cpu) {
        return Deed::Interruption(code);
    }
    let address = machine.cpu(cpu).address;
    Deed::Instruction(address, instruction_at(machine.image(), address))
}

/// What a turn was about, by its outcome.
fn deed_of(coming: Deed, outcome: Outcome) -> Deed {
    match outcome {
        Outcome::Delayed => Deed::Wait,
        Outcome::External => Deed::External,
        Outcome::Aborted { code } if code == FROM_OUTSIDE => Deed::External,
        _ => coming,
    }
}

/// The CPU of an event.
fn cpu_of(event: Event) -> u32
    ensures { result ≡ cpu_of_event event }
{
    match event {
        Event::Turn(cpu) | Event::External(cpu) => cpu,
    }
}

/// Adds the begin of an attempt, where the CPU has one now and had none before.
fn add_begin(
    attempts: &mut Vec<Attempt>,
    replay: &Machine,
    was_live: bool,
    begin: (u32, u32),
) -> Result<(), AllocError>
    requires { begin.0 < length replay.now.image.cpus }
{
    let (cpu, column) = begin;
    if was_live || replay.live(cpu).is_none() {
        return Ok(());
    }
    attempts.push(Attempt {
        cpu,
        begin: Some(column),
        end: End::Open,
    })?;
    Ok(())
}

/// Adds the arrow of a reject, where there was one.
fn add_reject(
    arrows: &mut Vec<Arrow>,
    reject: Option<Reject>,
    asker: u32,
    column: u32,
) -> Result<(), AllocError> {
    let Some(reject) = reject else {
        return Ok(());
    };
    arrows.push(Arrow {
        column,
        asker,
        holder: reject.by,
        line: reject.line,
        answer: Answer::Rejects,
    })?;
    Ok(())
}

/// Adds the arrows to holders whose attempts the turn has aborted.
fn add_aborts(
    arrows: &mut Vec<Arrow>,
    made: &[Entry],
    asker: u32,
    column: u32,
) -> Result<(), AllocError> {
    for entry in made {
        if let Entry::Abort(
            holder,
            _,
            Why::FetchConflict(line) | Why::StoreConflict(line),
        ) = *entry
        {
            arrows.push(Arrow {
                column,
                asker,
                holder,
                line,
                answer: Answer::Aborts,
            })?;
        }
    }
    Ok(())
}

/// Places the entries of a turn in its column, one below the other; so many stand before them in the history.
fn add_entries(
    entries: &mut Vec<Placed>,
    made: &[Entry],
    before: usize,
    column: u32,
) -> Result<(), AllocError>
    ensures { OnOk result (length entries.new.items ≡ length entries.old.items + length made.now) }
{
    for (row, entry) in made.iter().enumerate() {
        entries.push(Placed {
            number: before.saturating_add(row).saturating_add(1) as u64,
            column,
            row: row.min(MOST_ROWS) as u32,
            entry: *entry,
        })?;
    }
    Ok(())
}

/// Ends the open attempt of a CPU.
fn end_attempt(attempts: &mut [Attempt], cpu: u32, end: End) {
    for attempt in attempts {
        if attempt.cpu == cpu && matches!(attempt.end, End::Open) {
            attempt.end = end;
        }
    }
}

/// Ends the attempts that have ended by these entries.
fn end_attempts(attempts: &mut Vec<Attempt>, made: &[Entry], column: u32) {
    for entry in made {
        match *entry {
            Entry::Commit(cpu, _) => end_attempt(attempts, cpu, End::Commit(column)),
            Entry::Abort(cpu, _, why) => end_attempt(attempts, cpu, End::Abort(column, why.code())),
            _ => {}
        }
    }
}

/// Adds the attempts that are live before the first column.
fn add_live(attempts: &mut Vec<Attempt>, replay: &Machine) -> Result<(), AllocError> {
    for cpu in 0..replay.image().cpu_count() {
        if replay.live(cpu).is_some() {
            attempts.push(Attempt {
                cpu,
                begin: None,
                end: End::Open,
            })?;
        }
    }
    Ok(())
}

/// One event more, and what is drawn of it.
fn watch(
    replay: &mut Machine,
    event: Event,
    column: u32,
    picture: &mut Picture,
) -> Result<(), AllocError>
    requires known { cpu_of_event event < length replay.old.image.cpus }
    requires external { is_external event ≡ true
        → count_by is_external replay.old.events < replay.old.limits.externals }
    ensures machine { OnOk result (replay.new ≡ after replay.old event) }
    ensures state { OnOk result (state_of replay.new ≡ (event_of replay.old event).state) }
    ensures marks { OnOk result (length picture.new.marks.items ≡ length picture.old.marks.items + 1) }
    ensures entries { OnOk result (length picture.new.entries.items + length (state_of replay.old).history
        ≡ length picture.old.entries.items + length (state_of replay.new).history) }
    ensures more { OnOk result (length picture.old.entries.items ≤ length picture.new.entries.items) }
{
    let cpu = cpu_of(event);
    let before = replay.journal().len();
    let was_live = replay.live(cpu).is_some();
    let coming = coming(replay, cpu);
    let outcome = replay.event(event);
    picture.marks.push(Mark {
        turn: replay.events().len() as u64,
        column,
        cpu,
        deed: deed_of(coming, outcome),
        outcome,
    })?;
    add_begin(&mut picture.attempts, replay, was_live, (cpu, column))?;
    add_reject(&mut picture.arrows, replay.last_reject(), cpu, column)?;
    let made = &replay.journal()[before..];
    add_entries(&mut picture.entries, made, before, column)?;
    add_aborts(&mut picture.arrows, made, cpu, column)?;
    end_attempts(&mut picture.attempts, made, column);
    Ok(())
}

/// The event at a place among those that a machine has recorded.
fn event_at(machine: &Machine, place: usize) -> Event
    requires { place < length machine.now.events }
    ensures event { slice_get machine.now.events place ≡ Some result }
    ensures known { cpu_of_event result < length machine.now.image.cpus }
    ensures few { count_by is_external machine.now.events ≤ machine.now.limits.externals }
{
    let _left = machine.externals_left();
    machine.events()[place]
}

/// The first so many recorded events of a machine, on another one from which nothing has happened.
fn skip(machine: &Machine, replay: &mut Machine, count: u64)
    requires within { count ≤ length machine.now.events }
    requires fresh { Replays machine.now 0 replay.old }
    ensures { Replays machine.now count replay.new }
{
    for place in 0..count {
        let event = event_at(machine, place as usize);
        let _outcome = replay.event(event);
    }
}

/// The turns of the window happen, one in each column, on a machine to which those before it have happened.
fn watch_all(
    machine: &Machine,
    replay: &mut Machine,
    window: Window,
    picture: &mut Picture,
) -> Result<(), AllocError>
    requires { Replays machine.now (start_of window (length machine.now.events)) replay.old }
    ensures marks { OnOk result (length picture.new.marks.items
        ≡ length picture.old.marks.items + turns_in window (length machine.now.events)) }
    ensures entries { OnOk result (length picture.new.entries.items
        ≡ length picture.old.entries.items + entries_in window (setting_of machine.now) machine.now.events) }
{
    let recorded = machine.events().len() as u64;
    let start = window.start(recorded);
    for column in 0..window.turns(recorded) {
        let place = start + u64::from(column);
        watch(replay, event_at(machine, place as usize), column, picture)?;
    }
    Ok(())
}

/// A machine from which nothing has happened, of the same image and limits.
fn begun_again(alloc: Global, machine: &Machine) -> Result<Machine, NoMemory>
    ensures { IfOk result (λ replay. Replays machine.now 0 replay) }
{
    Machine::open(alloc, machine.shared_image()?, machine.limits())
}

/// What is live before the window, and then its turns, on a machine to which those before them have happened.
fn watch_window(
    machine: &Machine,
    replay: &mut Machine,
    window: Window,
    picture: &mut Picture,
) -> Result<(), AllocError>
    requires { Replays machine.now (start_of window (length machine.now.events)) replay.old }
    ensures marks { OnOk result (length picture.new.marks.items
        ≡ length picture.old.marks.items + turns_in window (length machine.now.events)) }
    ensures entries { OnOk result (length picture.new.entries.items
        ≡ length picture.old.entries.items + entries_in window (setting_of machine.now) machine.now.events) }
{
    add_live(&mut picture.attempts, replay)?;
    watch_all(machine, replay, window, picture)
}

/// The turns of the window, and what came of them, on a machine from which nothing has happened.
fn observe_on(
    alloc: Global,
    machine: &Machine,
    replay: &mut Machine,
    window: Window,
) -> Result<Picture, NoMemory>
    requires { Replays machine.now 0 replay.old }
    ensures turns { IfOk result (λ picture. length picture.marks.items
        ≡ turns_in window (length machine.now.events)) }
    ensures entries { IfOk result (λ picture. length picture.entries.items
        ≡ entries_in window (setting_of machine.now) machine.now.events) }
{
    skip(machine, replay, window.start(machine.events().len() as u64));
    let mut picture = Picture::blank(alloc, machine.image().cpu_count());
    watch_window(machine, replay, window, &mut picture)?;
    Ok(picture)
}

/// The turns of the window, and what came of them.
pub fn observe(alloc: Global, machine: &Machine, window: Window) -> Result<Picture, NoMemory>
    ensures turns { IfOk result (λ picture. length picture.marks.items
        ≡ turns_in window (length machine.now.events)) }
    ensures entries { IfOk result (λ picture. length picture.entries.items
        ≡ entries_in window (setting_of machine.now) machine.now.events) }
{
    let mut replay = begun_again(alloc, machine)?;
    observe_on(alloc, machine, &mut replay, window)
}
