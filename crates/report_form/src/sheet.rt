//! The form of a whole report.
ghost use Rattle.std.specs.Prelude.{◌≡◌, ◌++◌, ◌+◌, ◌<◌, ◌^◌, ◌≢◌, ℕ, IfOk, IfErr, IfSome, IfNone, OnOk};
ghost use Rattle.std.specs.List.{flat_map};
ghost use Rattle.report_form.specs.Sheet.{cpu_parts, cpus_parts, show_parts, head_parts, schedule_parts};
ghost use Rattle.report_form.specs.Sheet.{count_line, Counts, HasHead, HasHistory, HasForm, history_at};
ghost use Rattle.report_form.specs.Sheet.{schedule_at, IsRefused, IsSheet, HasPlaces};
ghost use Rattle.report_form.specs.Text.{lines_of, IsPlace, IsNext};

use crate::lines::{Part, follow};
use crate::places::{Place, line_at, start};
use crate::rows::Row;
use crate::spelling::cut;
use crate::words::Name;
use std::alloc::{AllocError, Global};
use tx_journal::{Image, Show, read_number};

/// Where the parts of a report begin that has its form.
#[derive(Clone, Copy, Debug, PartialEq, Eq)]
pub struct Sheet {
    /// The place of the count of entries.
    pub count: Place,
    /// The place of the first entry.
    pub history: Place,
    /// How many entries there are.
    pub entries: u64,
}

/// Why a report has not been read.
#[derive(Clone, Copy, Debug, PartialEq, Eq)]
pub enum FormFault {
    /// There was no memory.
    Memory,
    /// The line with this number, counted from 1, is missing, of another form, or too many.
    Line(u64),
}

/// Adds the rows of a CPU.
fn add_cpu(parts: &mut Vec<Part>) -> Result<(), AllocError>
    ensures { OnOk result (parts.new.items ≡ parts.old.items ++ cpu_parts) }
{
    let rows = [
        Part {
            row: Row::State,
            count: 1,
        },
        Part {
            row: Row::Psw,
            count: 1,
        },
        Part {
            row: Row::General(Name::From0),
            count: 1,
        },
        Part {
            row: Row::General(Name::From4),
            count: 1,
        },
        Part {
            row: Row::General(Name::From8),
            count: 1,
        },
        Part {
            row: Row::General(Name::From12),
            count: 1,
        },
        Part {
            row: Row::Access(Name::From0),
            count: 1,
        },
        Part {
            row: Row::Access(Name::From8),
            count: 1,
        },
        Part {
            row: Row::Attempt,
            count: 1,
        },
        Part {
            row: Row::Pending,
            count: 1,
        },
        Part {
            row: Row::Counts,
            count: 1,
        },
    ];
    parts.extend_from_slice(&rows)
}

/// Adds the rows of shown bytes.
fn add_show(parts: &mut Vec<Part>, show: Show) -> Result<(), AllocError>
    ensures { OnOk result (parts.new.items ≡ parts.old.items ++ show_parts show) }
{
    if show.fields {
        return parts.extend_from_slice(&[Part {
            row: Row::Block,
            count: 1,
        }]);
    }
    let rest = show.length % 16;
    let last = if rest == 0 { 0 } else { 1 };
    let rows = [
        Part {
            row: Row::Bytes(32),
            count: u64::from(show.length / 16),
        },
        Part {
            row: Row::Bytes(2 * rest),
            count: last,
        },
    ];
    parts.extend_from_slice(&rows)
}

/// Adds the rows of so many CPUs.
fn add_cpus(parts: &mut Vec<Part>, count: u32) -> Result<(), AllocError>
    ensures { OnOk result (parts.new.items ≡ parts.old.items ++ cpus_parts count) }
{
    for _cpu in 0..count {
        add_cpu(parts)?;
    }
    Ok(())
}

/// Adds the rows of all that is shown.
fn add_shows(parts: &mut Vec<Part>, shows: &[Show]) -> Result<(), AllocError>
    ensures { OnOk result (parts.new.items ≡ parts.old.items ++ flat_map show_parts shows.now) }
{
    for show in shows {
        add_show(parts, *show)?;
    }
    Ok(())
}

/// The rows of the state.
fn head_parts(alloc: Global, image: &Image) -> Result<Vec<Part>, AllocError>
    ensures { IfOk result (λ parts. parts.items ≡ head_parts image.now) }
{
    let mut parts = Vec::new(alloc);
    parts.extend_from_slice(&[
        Part {
            row: Row::Title,
            count: 1,
        },
        Part {
            row: Row::Status,
            count: 1,
        },
    ])?;
    add_cpus(&mut parts, image.cpu_count())?;
    add_shows(&mut parts, image.shows.as_slice())?;
    Ok(parts)
}

/// The rows of so many events, and the end.
fn schedule_parts(events: u64) -> [Part; 3]
    ensures { result ≡ schedule_parts events }
{
    let rest = (events % 16) as u32;
    let last = if rest == 0 { 0 } else { 1 };
    [
        Part {
            row: Row::Events(16),
            count: events / 16,
        },
        Part {
            row: Row::Events(rest),
            count: last,
        },
        Part {
            row: Row::End,
            count: 1,
        },
    ]
}

/// The count that a line gives behind a name; None exactly where it gives none.
fn count_in(name: Name, line: &[u8]) -> Option<u64>
    ensures some { IfSome result (λ n. line.now ≡ count_line name n) }
    ensures fits { IfSome result (λ n. n < 2 ^ 64) }
    ensures none { IfNone result ((n : ℕ) → n < 2 ^ 64 → line.now ≢ count_line name n) }
{
    let (word, rest) = cut(line, b' ')?;
    if word != name.text() {
        return None;
    }
    let (digits, behind) = cut(rest, b'\n')?;
    if !behind.is_empty() {
        return None;
    }
    read_number(digits)
}

/// A count, and the place behind its line.
#[derive(Clone, Copy)]
struct Counted {
    number: u64,
    behind: Place,
}

/// The count that the line at a place gives behind a name; None exactly where it gives none.
fn count_at(name: Name, text: &[u8], at: Place) -> Option<Counted>
    requires { IsPlace text.now at }
    ensures some { IfSome result (λ c. Counts name (lines_of text.now) at.line c.number) }
    ensures behind { IfSome result (λ c. IsNext text.now at c.behind) }
    ensures none { IfNone result ((n : ℕ) → ¬ Counts name (lines_of text.now) at.line n) }
{
    let line = line_at(text, at)?;
    let number = count_in(name, line.text)?;
    Some(Counted {
        number,
        behind: line.behind,
    })
}

/// Where the entries begin and how many they are, by the count in front of them.
fn read_head(alloc: Global, image: &Image, text: &[u8]) -> Result<Sheet, FormFault>
    ensures head { IfOk result (λ s. HasHead image.now (lines_of text.now) s.entries) }
    ensures begins { IfOk result (λ s. s.history.line ≡ history_at image.now + 1) }
    ensures places { IfOk result (λ s. HasPlaces text.now s) }
    ensures fault { IfErr result (λ f. IsRefused image.now (lines_of text.now) f) }
{
    let last = image.cpu_count() - 1;
    let Ok(parts) = head_parts(alloc, image) else {
        return Err(FormFault::Memory);
    };
    match follow(&parts, last, text, start(text)) {
        Err(line) => Err(FormFault::Line(line as u64 + 1)),
        Ok(place) => match count_at(Name::History, text, place) {
            None => Err(FormFault::Line(place.line as u64 + 1)),
            Some(entries) => Ok(Sheet {
                count: place,
                history: entries.behind,
                entries: entries.number,
            }),
        },
    }
}

/// Where the events begin and how many they are, by the count in front of them, behind so many entries.
fn read_history(image: &Image, text: &[u8], sheet: Sheet) -> Result<Counted, FormFault>
    requires head { HasHead image.now (lines_of text.now) sheet.entries }
    requires begins { sheet.history.line ≡ history_at image.now + 1 }
    requires place { IsPlace text.now sheet.history }
    ensures history { IfOk result (λ c. HasHistory image.now (lines_of text.now) sheet.entries c.number) }
    ensures begins { IfOk result (λ c. c.behind.line ≡ schedule_at image.now sheet.entries + 1) }
    ensures place { IfOk result (λ c. IsPlace text.now c.behind) }
    ensures fault { IfErr result (λ f. IsRefused image.now (lines_of text.now) f) }
{
    let last = image.cpu_count() - 1;
    let parts = [Part {
        row: Row::Entry,
        count: sheet.entries,
    }];
    match follow(&parts, last, text, sheet.history) {
        Err(line) => Err(FormFault::Line(line as u64 + 1)),
        Ok(place) => match count_at(Name::Schedule, text, place) {
            None => Err(FormFault::Line(place.line as u64 + 1)),
            Some(events) => Ok(events),
        },
    }
}

/// So many events stand from a place on, and then the end.
fn read_schedule(
    image: &Image,
    text: &[u8],
    entries: u64,
    at: Place,
    events: u64,
) -> Result<(), FormFault>
    requires history { HasHistory image.now (lines_of text.now) entries events }
    requires begins { at.line ≡ schedule_at image.now entries + 1 }
    requires place { IsPlace text.now at }
    ensures form { OnOk result (HasForm image.now (lines_of text.now) entries events) }
    ensures fault { IfErr result (λ f. IsRefused image.now (lines_of text.now) f) }
{
    let last = image.cpu_count() - 1;
    match follow(&schedule_parts(events), last, text, at) {
        Err(line) => Err(FormFault::Line(line as u64 + 1)),
        Ok(end) => {
            if end.byte < text.len() {
                return Err(FormFault::Line(end.line as u64 + 1));
            }
            Ok(())
        }
    }
}

/// Where the entries of a report begin, whose text this is. Otherwise the first line that is missing, of another form
/// or too many; the counts of entries and events are believed where they stand. No list of the lines is made.
pub fn read(alloc: Global, image: &Image, text: &[u8]) -> Result<Sheet, FormFault>
    ensures sheet { IfOk result (λ s. IsSheet image.now (lines_of text.now) s) }
    ensures places { IfOk result (λ s. HasPlaces text.now s) }
    ensures fault { IfErr result (λ f. IsRefused image.now (lines_of text.now) f) }
{
    let sheet = read_head(alloc, image, text)?;
    let events = read_history(image, text, sheet)?;
    read_schedule(image, text, sheet.entries, events.behind, events.number)?;
    Ok(sheet)
}
