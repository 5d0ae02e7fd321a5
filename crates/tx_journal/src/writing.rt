//! The texts of entries and of events.
ghost use Rattle.std.specs.Prelude.{◌≡◌, [], ◌∷◌, ◌++◌, ◌*◌, ◌+◌, ◌/◌, ◌^◌, ◌<◌, ◌≤◌, IfOk, OnOk, length, take, drop, codes, vec_len, vec_capacity};
ghost use Rattle.std.specs.Fmt.{decimal};
ghost use Rattle.tx_journal.specs.Lines.{detail_text, reason_text, words_text, line_text, entry_text};
ghost use Rattle.tx_journal.specs.Lines.{history_text};
ghost use Rattle.tx_journal.specs.declared.lines.Line.TheVariants.{Step, Commit};
ghost use Rattle.tx_journal.specs.Schedule.{event_text, further_text, events_text, row_text, rows_text};
ghost use Rattle.tx_journal.specs.Schedule.{schedule_text};

use crate::lines::{Detail, Line, Reason};
use crate::{Entry, Event};
use std::alloc::{AllocError, Global};
use z_regs::NoMemory;

/// Events in a line.
const ROW: usize = 16;

/// The bytes of a full line of events whose CPUs have two digits, each behind an X.
const ROW_ROOM: usize = 71;

/// The bytes of the longest line of an abort other than by TABORT, with a CPU of two digits and a count of
/// six.
const ENTRY_ROOM: usize = 32;

/// The bytes of the line of a commit with two numbers of two digits; that of a step is shorter.
const SMALL_ROOM: usize = 8;

/// The bytes of a turn of a CPU of two digits, behind a comma.
const TURN_ROOM: usize = 3;

/// The first number of more than two digits.
const SMALL: u32 = 100;

/// Adds a byte.
fn add_byte(text: &mut Vec<u8>, byte: u8) -> Result<(), AllocError>
    ensures { OnOk result (text.new.items ≡ text.old.items ++ byte ∷ []) }
{
    text.push(byte)?;
    Ok(())
}

/// Adds the tens of a number of one digit or two, if it has any, where there is room for them, and gives its
/// units.
#[inline(always)]
fn push_tens(text: &mut Vec<u8>, number: u32) -> u32
    requires small { number < 100 }
    requires room { vec_len text.old < vec_capacity text.old }
    ensures items { text.new.items ++ (48 + result) ∷ [] ≡ text.old.items ++ decimal number }
    ensures units { result < 10 }
    ensures len { vec_len text.new ≤ vec_len text.old + 1 }
    ensures capacity { vec_capacity text.new ≡ vec_capacity text.old }
{
    if number < 10 {
        return number;
    }
    text.push_reserved(b'0' + (number / 10) as u8);
    number % 10
}

/// Adds a number of one digit or two, where there is room for two bytes.
#[inline(always)]
fn push_small(text: &mut Vec<u8>, number: u32)
    requires small { number < 100 }
    requires room { vec_len text.old + 2 ≤ vec_capacity text.old }
    ensures items { text.new.items ≡ text.old.items ++ decimal number }
    ensures len { vec_len text.new ≤ vec_len text.old + 2 }
    ensures capacity { vec_capacity text.new ≡ vec_capacity text.old }
{
    let units = push_tens(text, number);
    text.push_reserved(b'0' + units as u8);
}

/// Adds a number in decimal, of any length.
#[inline(never)]
fn add_digits(text: &mut Vec<u8>, number: u64) -> Result<(), AllocError>
    ensures { OnOk result (text.new.items ≡ text.old.items ++ decimal number) }
{
    let mut digits = itoa::Buffer::new();
    text.extend_from_slice(digits.format(number).as_bytes())
}

/// Adds a number in decimal. Most numbers in a long report are those of CPUs, of one digit or two.
#[inline(always)]
fn add_number(text: &mut Vec<u8>, number: u32) -> Result<(), AllocError>
    ensures { OnOk result (text.new.items ≡ text.old.items ++ decimal number) }
{
    if number >= SMALL {
        return add_digits(text, u64::from(number));
    }
    text.reserve(2)?;
    push_small(text, number);
    Ok(())
}

/// Adds the detail of an abort.
fn add_detail(text: &mut Vec<u8>, detail: Detail) -> Result<(), AllocError>
    ensures { OnOk result (text.new.items ≡ text.old.items ++ detail_text detail) }
{
    match detail {
        Detail::Nothing => text.extend_from_slice(b"-"),
        Detail::Exception(code) => {
            let mut digits = [0u8; 4];
            match hex::encode_to_slice(code.to_be_bytes(), &mut digits) {
                Ok(()) => text.extend_from_slice(&digits),
                Err(_) => unreachable!(),
            }
        }
        Detail::Line(address) => {
            let mut digits = [0u8; 16];
            match hex::encode_to_slice(address.to_be_bytes(), &mut digits) {
                Ok(()) => text.extend_from_slice(&digits),
                Err(_) => unreachable!(),
            }
        }
    }
}

/// Adds the cause of an abort.
fn add_reason(text: &mut Vec<u8>, reason: Reason) -> Result<(), AllocError>
    ensures { OnOk result (text.new.items ≡ text.old.items ++ reason_text reason) }
{
    add_digits(text, reason.code)?;
    add_byte(text, b' ')?;
    add_detail(text, reason.detail)
}

/// Adds a byte and a number behind it.
#[inline(never)]
fn add_marked(text: &mut Vec<u8>, mark: u8, number: u32) -> Result<(), AllocError>
    ensures { OnOk result (text.new.items ≡ text.old.items ++ mark ∷ decimal number) }
{
    add_byte(text, mark)?;
    add_number(text, number)
}

/// Adds a letter, a blank and the number of a CPU.
fn add_step(text: &mut Vec<u8>, letter: u8, cpu: u32) -> Result<(), AllocError>
    ensures { OnOk result (text.new.items ≡ text.old.items ++ letter ∷ 32 ∷ decimal cpu) }
{
    add_byte(text, letter)?;
    add_marked(text, b' ', cpu)
}

/// Adds the words of a line, without its end.
fn add_words(text: &mut Vec<u8>, line: Line) -> Result<(), AllocError>
    ensures { OnOk result (text.new.items ≡ text.old.items ++ words_text line) }
{
    match line {
        Line::Step(cpu) => add_step(text, b'S', cpu),
        Line::Commit(cpu, count) => {
            add_step(text, b'C', cpu)?;
            add_marked(text, b' ', count)
        }
        Line::Abort(cpu, count, reason) => {
            add_step(text, b'A', cpu)?;
            add_marked(text, b' ', count)?;
            add_byte(text, b' ')?;
            add_reason(text, reason)
        }
        Line::Tdb(cpu) => add_step(text, b'T', cpu),
        Line::Interrupt(cpu) => add_step(text, b'I', cpu),
    }
}

/// Adds a line.
#[inline(never)]
fn add_line(text: &mut Vec<u8>, line: Line) -> Result<(), AllocError>
    ensures { OnOk result (text.new.items ≡ text.old.items ++ line_text line) }
{
    add_words(text, line)?;
    add_byte(text, b'\n')
}

/// Adds the line of an entry.
#[inline(never)]
fn add_entry(text: &mut Vec<u8>, entry: &Entry) -> Result<(), AllocError>
    ensures { OnOk result (text.new.items ≡ text.old.items ++ entry_text entry.now) }
{
    add_line(text, Line::of(entry))
}

/// Adds the line of a step of a CPU of one digit or two, where there is room for it.
#[inline(always)]
fn push_step(text: &mut Vec<u8>, cpu: u32)
    requires small { cpu < 100 }
    requires room { vec_len text.old + 5 ≤ vec_capacity text.old }
    ensures items { text.new.items ≡ text.old.items ++ line_text (Step cpu) }
    ensures len { vec_len text.new ≤ vec_len text.old + 5 }
    ensures capacity { vec_capacity text.new ≡ vec_capacity text.old }
{
    text.push_reserved(b'S');
    text.push_reserved(b' ');
    push_small(text, cpu);
    text.push_reserved(b'\n');
}

/// Adds the line of a commit whose numbers have one digit or two, where there is room for it.
#[inline(always)]
fn push_commit(text: &mut Vec<u8>, cpu: u32, count: u32)
    requires small { (cpu < 100) × (count < 100) }
    requires room { vec_len text.old + 8 ≤ vec_capacity text.old }
    ensures items { text.new.items ≡ text.old.items ++ line_text (Commit cpu count) }
    ensures len { vec_len text.new ≤ vec_len text.old + 8 }
    ensures capacity { vec_capacity text.new ≡ vec_capacity text.old }
{
    text.push_reserved(b'C');
    text.push_reserved(b' ');
    push_small(text, cpu);
    text.push_reserved(b' ');
    push_small(text, count);
    text.push_reserved(b'\n');
}

/// Adds the line of an entry, where there is room for a commit with small numbers. Behind it there is room for
/// so many more.
#[inline(never)]
fn add_other(text: &mut Vec<u8>, entry: &Entry, lines: usize) -> Result<(), AllocError>
    requires lines { 8 * lines < 2 ^ 64 }
    requires room { vec_len text.old + 8 + 8 * lines ≤ vec_capacity text.old }
    ensures items { OnOk result (text.new.items ≡ text.old.items ++ entry_text entry.now) }
    ensures room { OnOk result (vec_len text.new + 8 * lines ≤ vec_capacity text.new) }
{
    match *entry {
        Entry::Commit(cpu, count) if cpu < SMALL && count < SMALL => {
            push_commit(text, cpu, count);
            Ok(())
        }
        _ => {
            add_entry(text, entry)?;
            text.reserve(lines * SMALL_ROOM)
        }
    }
}

/// Adds the lines of entries. Most lines of a long report are steps and commits, with numbers of one digit or
/// two: there is always room for as many as may still come.
fn add_entries(text: &mut Vec<u8>, entries: &[Entry]) -> Result<(), AllocError>
    ensures { OnOk result (text.new.items ≡ text.old.items ++ history_text entries.now) }
{
    text.try_reserve(entries.len().saturating_mul(ENTRY_ROOM))?;
    let mut left = entries.len();
    for entry in entries {
        left -= 1;
        match *entry {
            Entry::Step(cpu) if cpu < SMALL => push_step(text, cpu),
            _ => add_other(text, entry, left)?,
        }
    }
    Ok(())
}

/// Adds an event.
#[inline(always)]
fn add_event(text: &mut Vec<u8>, event: Event) -> Result<(), AllocError>
    ensures { OnOk result (text.new.items ≡ text.old.items ++ event_text event) }
{
    match event {
        Event::Turn(cpu) => add_number(text, cpu),
        Event::External(cpu) => add_marked(text, b'X', cpu),
    }
}

/// Adds an event behind a comma, and makes room behind it for so many turns.
#[inline(never)]
fn add_other_event(text: &mut Vec<u8>, event: Event, turns: usize) -> Result<(), AllocError>
    requires { 3 * turns < 2 ^ 64 }
    ensures items { OnOk result (text.new.items ≡ text.old.items ++ 44 ∷ event_text event) }
    ensures room { OnOk result (vec_len text.new + 3 * turns ≤ vec_capacity text.new) }
{
    add_byte(text, b',')?;
    add_event(text, event)?;
    text.reserve(turns * TURN_ROOM)
}

/// Adds a turn of a CPU of one digit or two behind a comma, where there is room for it.
#[inline(always)]
fn push_turn(text: &mut Vec<u8>, cpu: u32)
    requires small { cpu < 100 }
    requires room { vec_len text.old + 3 ≤ vec_capacity text.old }
    ensures items { text.new.items ≡ text.old.items ++ 44 ∷ decimal cpu }
    ensures len { vec_len text.new ≤ vec_len text.old + 3 }
    ensures capacity { vec_capacity text.new ≡ vec_capacity text.old }
{
    text.push_reserved(b',');
    push_small(text, cpu);
}

/// Adds events, each behind a comma. There is always room for as many turns as may still come.
fn add_further(text: &mut Vec<u8>, events: &[Event]) -> Result<(), AllocError>
    ensures { OnOk result (text.new.items ≡ text.old.items ++ further_text events.now) }
{
    let mut left = events.len();
    text.reserve(left * TURN_ROOM)?;
    for event in events {
        left -= 1;
        match *event {
            Event::Turn(cpu) if cpu < SMALL => push_turn(text, cpu),
            _ => add_other_event(text, *event, left)?,
        }
    }
    Ok(())
}

/// Adds events with commas between them.
fn add_events(text: &mut Vec<u8>, events: &[Event]) -> Result<(), AllocError>
    ensures { OnOk result (text.new.items ≡ text.old.items ++ events_text events.now) }
{
    let Some((first, others)) = events.split_first() else {
        return Ok(());
    };
    add_event(text, *first)?;
    add_further(text, others)
}

/// The events of a line: sixteen, or what is left.
fn row_at(events: &[Event], row: usize) -> &[Event]
    requires { 16 * row < length events.now }
    ensures { result.now ≡ take 16 (drop (16 * row) events.now) }
{
    let rest = &events[ROW * row..];
    &rest[..rest.len().min(ROW)]
}

/// Adds a line of events.
fn add_row(text: &mut Vec<u8>, events: &[Event]) -> Result<(), AllocError>
    ensures { OnOk result (text.new.items ≡ text.old.items ++ row_text events.now) }
{
    text.extend_from_slice(b" SCHED ")?;
    add_events(text, events)?;
    add_byte(text, b'\n')
}

/// Adds the lines of events.
fn add_rows(text: &mut Vec<u8>, events: &[Event]) -> Result<(), AllocError>
    ensures { OnOk result (text.new.items ≡ text.old.items ++ schedule_text events.now) }
{
    let rows = events.len().div_ceil(ROW);
    text.try_reserve(rows.saturating_mul(ROW_ROOM))?;
    for row in 0..rows {
        add_row(text, row_at(events, row))?;
    }
    Ok(())
}

/// Adds the lines of a history to a text, in the order of its entries. `NoMemory` comes for want of memory;
/// what stands behind the text that was there is then unknown.
///
/// The room for all lines is reserved first, so that a long history is written without an allocation for each
/// line.
pub fn add_history(text: &mut Vec<u8>, entries: &[Entry]) -> Result<(), NoMemory>
    ensures { OnOk result (text.new.items ≡ text.old.items ++ history_text entries.now) }
{
    add_entries(text, entries)?;
    Ok(())
}

/// Adds events to a text as SCHED lines of the listing, sixteen events to a line. `NoMemory` comes for want
/// of memory; what stands behind the text that was there is then unknown.
pub fn add_schedule(text: &mut Vec<u8>, events: &[Event]) -> Result<(), NoMemory>
    ensures { OnOk result (text.new.items ≡ text.old.items ++ schedule_text events.now) }
{
    add_rows(text, events)?;
    Ok(())
}

/// The line of an entry, with its line feed. `NoMemory` comes for want of memory.
pub fn entry_text(alloc: Global, entry: &Entry) -> Result<Vec<u8>, NoMemory>
    ensures { IfOk result (λ text. text.items ≡ entry_text entry.now) }
{
    let mut text = Vec::new(alloc);
    add_entry(&mut text, entry)?;
    Ok(text)
}

/// Events as SCHED lines of the listing, sixteen events to a line, each with its line feed; no line where
/// there is no event. `NoMemory` comes for want of memory.
pub fn schedule_text(alloc: Global, events: &[Event]) -> Result<Vec<u8>, NoMemory>
    ensures { IfOk result (λ text. text.items ≡ schedule_text events.now) }
{
    let mut text = Vec::new(alloc);
    add_schedule(&mut text, events)?;
    Ok(text)
}
