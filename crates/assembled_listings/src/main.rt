//! Assembles listings, and writes what comes of each.
//!
//! Standard input has a listing in each line, where a backslash begins an escape: `\n`, `\r` and `\t` are a
//! line feed, a carriage return and a tab; `\xHH` is the byte of these two hexadecimal digits (`\x5C` is a
//! backslash); `\*N;` says that the byte before it stands N times in all. So an empty line is the empty
//! listing, and a listing of 300 lines that say nothing is `\n\*300;`. A line that begins with `*` is a
//! heading, and no listing.
//!
//! For each line of input the program writes a line: a heading as it is; for a listing the parts of its
//! image, or the line of its first fault, the number of the kind, and the line that is printed for it. It
//! ends with a fault where the input has another form.
#![tactic(auto)]

mod escape;
mod fault;
mod parts;

use anyhow::{Context, Result, bail};
use escape::listing_of;
use fault::Fault;
use parts::add_image;
use std::alloc::{AllocError, Global};
use std::io;
use z_assemble::{AssembleFault, ListingFault, assemble, fault_line};
use ztx_io::{ReaderSource, WriterSink, read_all, write_all};

/// The most bytes of input.
const LIMIT: usize = 16_777_216;

/// Adds a fault: its line, its kind, and the line that is printed.
fn add_fault(text: &mut String, alloc: Global, fault: ListingFault) -> Result<(), AllocError> {
    let line = fault.line;
    let kind = fault.kind;
    write!(text, "{line} {kind} ")?;
    let printed = fault_line(alloc, fault)?;
    text.push_str(printed.as_str())
}

/// Adds what comes of a listing, in one line.
fn add_assembled(text: &mut String, alloc: Global, listing: &[u8]) -> Result<(), AllocError> {
    match assemble(alloc, listing) {
        Ok(image) => add_image(text, &image),
        Err(AssembleFault::Listing(fault)) => add_fault(text, alloc, fault),
        Err(AssembleFault::Memory) => Err(AllocError),
    }
}

/// Adds the line for a line of the input.
fn add_line(text: &mut String, alloc: Global, line: &str) -> Result<(), Fault> {
    if line.starts_with('*') {
        return Ok(writeln!(text, "{line}")?);
    }
    let listing = listing_of(alloc, line)?;
    Ok(add_assembled(text, alloc, listing.as_slice())?)
}

/// Adds a line for each line of the input.
fn add_lines(text: &mut String, alloc: Global, input: &str) -> Result<(), Fault> {
    for line in input.lines() {
        add_line(text, alloc, line)?;
    }
    Ok(())
}

/// The same, with faults in words.
fn add_answer(text: &mut String, alloc: Global, input: &[u8]) -> Result<()> {
    let input = str::from_utf8(input).ok().context("the input is no text")?;
    match add_lines(text, alloc, input) {
        Ok(()) => Ok(()),
        Err(Fault::NoMemory) => bail!("no memory"),
        Err(Fault::Wrong(words)) => bail!(words),
    }
}

/// A line for each line of the input.
fn answer(alloc: Global, input: &[u8]) -> Result<String> {
    let mut text = String::new(alloc);
    add_answer(&mut text, alloc, input)?;
    Ok(text)
}

fn main(rt: HostRuntime) -> Result<()> {
    let mut source = ReaderSource::new(rt.reader());
    let input = read_all(rt.alloc(), &mut source, LIMIT)?;
    let text = answer(rt.alloc(), &input)?;
    let mut sink = WriterSink::new(io::writer(&rt));
    write_all(&mut sink, text.as_bytes())?;
    Ok(())
}
