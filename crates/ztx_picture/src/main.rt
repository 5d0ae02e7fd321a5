//! The program: a listing on standard input, and the picture of its run, as an SVG, on standard output. The
//! words are the options of `ztx run`, and `--from` and `--to`, the first and the last turn that are drawn.
#![tactic(auto)]

mod answer;
mod words;

use answer::{Answer, answer_to, refuse};
use std::alloc::{AllocError, Global};
use std::io;
use std::process::ExitCode;
use tx_machine::NoMemory;
use words::{Plan, read};
use z_assemble::{ListingFault, MOST_BYTES};
use ztx_io::{InFault, OutFault, ReaderSource, Sink, Source, WriterSink, read_all, write_all};

/// What is written where the words are no command line.
const BAD_WORDS: &[u8] = b"ztx: bad words\n";

/// Writes a text, and gives the status, or 1 or 3 where it was not written whole.
fn tell<K: Sink>(sink: &mut K, text: &[u8], status: u8) -> u8 {
    match write_all(sink, text) {
        Ok(()) => status,
        Err(OutFault::Memory) => 1,
        Err(OutFault::Write) => 3,
    }
}

/// Writes an answer.
fn tell_answer<K: Sink>(sink: &mut K, answer: Result<Answer, NoMemory>) -> u8 {
    match answer {
        Ok(answer) => tell(sink, answer.text.as_slice(), answer.status),
        Err(_) => 1,
    }
}

/// The answer to a listing that is too long.
fn too_long(alloc: Global) -> Result<Answer, NoMemory> {
    Ok(refuse(alloc, ListingFault { line: 0, kind: 1 })?)
}

/// Reads the listing, and writes what is due to it.
fn draw_input<S: Source, K: Sink>(alloc: Global, plan: Plan, source: &mut S, sink: &mut K) -> u8 {
    match read_all(alloc, source, MOST_BYTES) {
        Ok(input) => tell_answer(sink, answer_to(alloc, input.as_slice(), plan)),
        Err(InFault::Memory) => 1,
        Err(InFault::Read) => 2,
        Err(InFault::TooLong) => tell_answer(sink, too_long(alloc)),
    }
}

/// The plan that the words of the command line say. Words that are no text say none.
fn plan(rt: &(impl std::rt::Env + AllocGlobal)) -> Result<Option<Plan>, AllocError> {
    let mut words = Vec::new(rt.alloc());
    match std::env::args(rt) {
        Ok(all) => {
            for word in all {
                words.push(word)?;
            }
            read(rt.alloc(), words.as_slice())
        }
        Err(error) if error.kind() == io::ErrorKind::OutOfMemory => Err(AllocError),
        Err(_) => Ok(None),
    }
}

fn main(rt: HostRuntime) -> ExitCode {
    let mut source = ReaderSource::new(rt.reader());
    let mut sink = WriterSink::new(io::writer(&rt));
    let status = match plan(&rt) {
        Ok(Some(plan)) => draw_input(rt.alloc(), plan, &mut source, &mut sink),
        Ok(None) => tell(&mut sink, BAD_WORDS, 4),
        Err(_) => 1,
    };
    ExitCode::from(status)
}
