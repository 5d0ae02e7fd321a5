//! Runs machines on listings, and writes what they show.
//!
//! Standard input has cases. Each begins with a line `* case TURNS TICK EVENTS NAME`: how many counted turns
//! each CPU may have, how many there are from one tick to the next (0 for no ticks), how many events of the
//! listing's schedule happen (or `round`, where CPUs take turns until none is ready), and what the case shows.
//! The lines up to the next case are its listing. For each case the program writes its name, and then all that
//! the calls of the machine show. It ends with a fault where the input has another form, or a listing no image.
#![tactic(auto)]

mod case;
mod fault;
mod left;
mod outcomes;
mod running;

use anyhow::{Context, Result, bail};
use case::Case;
use fault::Fault;
use running::add_run;
use std::alloc::Global;
use std::io;
use ztx_io::{ReaderSource, WriterSink, read_all, write_all};

/// The most bytes of input.
const LIMIT: usize = 16_777_216;

/// What begins the first case.
const FIRST: &str = "* case ";

/// What begins each further case, with the end of the line before it.
const NEXT: &str = "\n* case ";

/// Adds what a case leaves, behind its name.
fn add_case(text: &mut String, alloc: Global, case: &str) -> Result<(), Fault> {
    let case = Case::read(case)?;
    let name = case.name;
    writeln!(text, "* {name}")?;
    add_run(text, alloc, &case)
}

/// Adds what each case of the input leaves.
fn add_cases(text: &mut String, alloc: Global, input: &str) -> Result<(), Fault> {
    if input.is_empty() {
        return Ok(());
    }
    let Some(cases) = input.strip_prefix(FIRST) else {
        return Err(Fault::Wrong("a line before the first case"));
    };
    for case in cases.split(NEXT) {
        add_case(text, alloc, case)?;
    }
    Ok(())
}

/// The same, with faults in words.
fn add_answer(text: &mut String, alloc: Global, input: &[u8]) -> Result<()> {
    let input = str::from_utf8(input).ok().context("the input is no text")?;
    match add_cases(text, alloc, input) {
        Ok(()) => Ok(()),
        Err(Fault::NoMemory) => bail!("no memory"),
        Err(Fault::Wrong(words)) => bail!(words),
    }
}

/// What each case of the input leaves.
fn answer(alloc: Global, input: &[u8]) -> Result<String> {
    let mut text = String::new(alloc);
    add_answer(&mut text, alloc, input)?;
    Ok(text)
}

fn main(rt: HostRuntime) -> Result<()> {
    let mut source = ReaderSource::new(rt.reader());
    let input = read_all(rt.alloc(), &mut source, LIMIT)?;
    let text = answer(rt.alloc(), &input)?;
    let mut sink = WriterSink::new(io::writer(&rt));
    write_all(&mut sink, text.as_bytes())?;
    Ok(())
}
