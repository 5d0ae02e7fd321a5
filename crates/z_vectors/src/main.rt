//! Compares the instruction crates with vectors: what other software says of the same instructions.
//!
//! Standard input has lines of four forms. `NAME by=.. ia=.. .. => at=.. ..` is one instruction with the CPU
//! and storage before and after it; `LINE | BYTES` is a line of the listing and its bytes;
//! `BYTES | LINE | ..` is bytes and the line they read as, `-` for none; `NAME is KIND` is whose an operation
//! is. A line that begins with `#` says nothing. Each line that the program answers otherwise is written with
//! what differs, and then how many lines there were and how many differ.
//!
//! Behind a line `CHANGED` are lines that were changed so that they must be answered otherwise. The same is
//! written on them; of the lines before it no number is written but that of those that differ, so that a vector
//! more changes nothing that is written. The exit status is 0 where no line before it differs, and every one
//! behind it does.
#![tactic(auto)]

mod compare;
mod judge;
mod kind;
mod reading;
mod report;
mod trial;
mod view;
mod words;

use anyhow::{Context, Result, ensure};
use report::Report;
use std::alloc::Global;
use std::io;
use view::Watched;
use ztx_io::{ReaderSource, WriterSink, read_all, write_all};

/// The most bytes of input.
const LIMIT: usize = 16_777_216;

/// The line between the vectors and the changed lines.
const CHANGED: &str = "\nCHANGED\n";

/// The vectors, and the changed lines, if there are any.
fn halves(text: &str) -> (&str, &str) {
    match text.split_once(CHANGED) {
        Some((vectors, changed)) => (vectors, changed),
        None => (text, ""),
    }
}

/// Judges the input on storage that is zero: whether no vector differs, and whether every changed line does.
fn judge_both(report: &mut Report, alloc: Global, text: &str, view: &mut Watched) -> [bool; 2] {
    let (vectors, changed) = halves(text);
    let vectors = report.judge_all(alloc, vectors, view);
    if changed.is_empty() {
        report.add_counts(vectors);
    } else {
        report.add_mismatches(vectors);
    }
    let changed = report.judge_all(alloc, changed, view);
    if changed.cases > 0 {
        report.add_counts(changed);
    }
    [vectors.mismatches == 0, changed.mismatches == changed.cases]
}

/// Whether no vector of the input differs, and whether every changed line does.
fn verdict(report: &mut Report, alloc: Global, input: &[u8]) -> Result<[bool; 2]> {
    let text = str::from_utf8(input).ok().context("the input is no text")?;
    let mut view = Watched::open(alloc)?;
    Ok(judge_both(report, alloc, text, &mut view))
}

/// The program ends with a fault where a vector differs, or a changed line does not.
fn ended(verdict: [bool; 2]) -> Result<()> {
    ensure!(verdict[0], "there are mismatches");
    ensure!(verdict[1], "a changed line is answered alike");
    Ok(())
}

fn main(rt: HostRuntime) -> Result<()> {
    let mut source = ReaderSource::new(rt.reader());
    let input = read_all(rt.alloc(), &mut source, LIMIT)?;
    let mut report = Report::new(rt.alloc());
    let verdict = verdict(&mut report, rt.alloc(), input.as_slice())?;
    let mut sink = WriterSink::new(io::writer(&rt));
    write_all(&mut sink, report.text()?.as_bytes())?;
    ended(verdict)
}
