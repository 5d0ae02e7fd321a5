//! The elements of the SVG, each as text.
ghost use Rattle.std.specs.Prelude.{◌<◌, ◌≤◌, ◌^◌};

use crate::escaping::escaped;
use crate::places::{address_of, column_x, entry_y, lane_y};
use crate::texts::{end_text, entry_title, label, mark_title, word_of};
use std::alloc::{AllocError, Global};
use std::fmt::Write;
use tx_journal::Entry;
use tx_watch::marks::{Answer, Arrow, Attempt, End, Mark, Placed};

/// A turn: its number above its column, and a box in its lane.
pub fn turn_element(alloc: Global, mark: &Mark) -> Result<String, AllocError> {
    let title = escaped(alloc, mark_title(alloc, mark)?.as_str())?;
    let label = escaped(alloc, label(alloc, &mark.deed)?.as_str())?;
    let word = word_of(mark.outcome);
    let turn = mark.turn;
    let left = column_x(mark.column) + 2;
    let middle = left + 22;
    let top = lane_y(mark.cpu) + 24;
    let foot = top + 16;
    let mut text = String::new(alloc);
    writeln!(text, "<g class='turn {word}'><title>{title}</title>")?;
    writeln!(
        text,
        "<text class='number' x='{middle}' y='44'>{turn}</text>"
    )?;
    writeln!(
        text,
        "<rect x='{left}' y='{top}' width='44' height='24' rx='3'/>"
    )?;
    writeln!(text, "<text x='{middle}' y='{foot}'>{label}</text></g>")?;
    Ok(text)
}

/// The letter of an entry and its CPU; and the class by which it is coloured.
fn letter_of(entry: &Entry) -> (char, u32, &'static str) {
    match *entry {
        Entry::Step(cpu) => ('S', cpu, "step"),
        Entry::Commit(cpu, _) => ('C', cpu, "commit"),
        Entry::Abort(cpu, _, _) => ('A', cpu, "abort"),
        Entry::Tdb(cpu) => ('T', cpu, "block"),
        Entry::Interrupt(cpu) => ('I', cpu, "interruption"),
    }
}

/// An entry of the history, below the lanes of so many CPUs.
pub fn entry_element(alloc: Global, placed: &Placed, cpus: u32) -> Result<String, AllocError> {
    let title = escaped(alloc, entry_title(alloc, &placed.entry)?.as_str())?;
    let (letter, cpu, class) = letter_of(&placed.entry);
    let number = placed.number;
    let left = column_x(placed.column) + 8;
    let middle = left + 16;
    let top = entry_y(cpus, placed.row);
    let foot = top + 12;
    let mut text = String::new(alloc);
    writeln!(
        text,
        "<g class='entry {class}'><title>entry {number}: {title}</title>"
    )?;
    writeln!(
        text,
        "<rect x='{left}' y='{top}' width='32' height='16' rx='3'/>"
    )?;
    writeln!(
        text,
        "<text x='{middle}' y='{foot}'>{letter} {cpu}</text></g>"
    )?;
    Ok(text)
}

/// An attempt's class, and where its bracket ends in a picture of so many columns.
fn end_of(attempt: &Attempt, columns: u32) -> (&'static str, u64)
    ensures { result.1 < 2 ^ 40 }
{
    match attempt.end {
        End::Open => ("open", column_x(columns)),
        End::Commit(column) => ("commit", column_x(column) + 20),
        End::Abort(column, _) => ("abort", column_x(column) + 20),
    }
}

/// Adds the bracket of an attempt, without its end.
fn add_bracket(text: &mut String, attempt: &Attempt, right: u64) -> Result<(), AllocError> {
    let line = lane_y(attempt.cpu) + 16;
    let foot = line + 6;
    match attempt.begin {
        Some(column) => {
            let left = column_x(column) + 8;
            writeln!(text, "<path d='M{left} {foot}V{line}H{right}'/>")
        }
        None => {
            let left = column_x(0);
            writeln!(text, "<path d='M{left} {line}H{right}'/>")
        }
    }
}

/// Adds the tick of a commit, or the cross of an abort with its code.
fn add_end(text: &mut String, attempt: &Attempt, right: u64) -> Result<(), AllocError>
    requires { right < 2 ^ 40 }
{
    let line = lane_y(attempt.cpu) + 16;
    match attempt.end {
        End::Open => Ok(()),
        End::Commit(_) => writeln!(text, "<path class='end' d='M{right} {line}l4 5l8 -10'/>"),
        End::Abort(_, code) => {
            let top = line - 4;
            let behind = right + 12;
            let foot = line - 1;
            writeln!(text, "<path class='end' d='M{right} {top}l9 9m0 -9l-9 9'/>")?;
            writeln!(text, "<text x='{behind}' y='{foot}'>{code}</text>")
        }
    }
}

/// An attempt, in a picture of so many columns.
pub fn attempt_element(
    alloc: Global,
    attempt: &Attempt,
    columns: u32,
) -> Result<String, AllocError> {
    let (class, right) = end_of(attempt, columns);
    let cpu = attempt.cpu;
    let end = end_text(alloc, attempt)?;
    let mut text = String::new(alloc);
    writeln!(
        text,
        "<g class='attempt {class}'><title>attempt of CPU {cpu}, {end}</title>"
    )?;
    add_bracket(&mut text, attempt, right)?;
    add_end(&mut text, attempt, right)?;
    writeln!(text, "</g>")?;
    Ok(text)
}

/// The class of an arrow, what it says, and how far from the left edge of its column it stands.
fn arrow_parts(answer: Answer) -> (&'static str, &'static str, u64)
    ensures { result.2 ≤ 10 }
{
    match answer {
        Answer::Rejects => ("reject", "rejects", 5),
        Answer::Aborts => ("abort", "is aborted by", 10),
    }
}

/// A question to a holder.
pub fn arrow_element(alloc: Global, arrow: &Arrow) -> Result<String, AllocError> {
    let (class, answer, shift) = arrow_parts(arrow.answer);
    let asker = arrow.asker;
    let holder = arrow.holder;
    let address = address_of(arrow.line);
    let left = column_x(arrow.column) + shift;
    let tip = column_x(arrow.column) + 13;
    let behind = tip + 6;
    let from = lane_y(asker) + if asker < holder { 48 } else { 24 };
    let line = lane_y(holder) + 36;
    let top = line - 3;
    let foot = line + 3;
    let mut text = String::new(alloc);
    writeln!(
        text,
        "<g class='arrow {class}'><title>CPU {holder} {answer} CPU {asker}, line {address:x}</title>"
    )?;
    writeln!(text, "<path d='M{left} {from}V{line}H{tip}'/>")?;
    writeln!(text, "<path class='point' d='M{tip} {top}v6l5 -3z'/>")?;
    writeln!(text, "<text x='{behind}' y='{foot}'>{address:x}</text></g>")?;
    Ok(text)
}
