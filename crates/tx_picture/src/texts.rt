//! What labels and titles say.

use crate::places::address_of;
use std::alloc::{AllocError, Global};
use tx_journal::{Entry, entry_text};
use tx_meaning::Outcome;
use tx_watch::marks::{Attempt, Deed, End, Mark};
use z_instr::instr::Instr;
use z_list::instruction_text;

/// The word for an outcome. Turns that are idle are not recorded.
pub fn word_of(outcome: Outcome) -> &'static str {
    match outcome {
        Outcome::Rejected { .. } => "rejected",
        Outcome::Delayed => "delayed",
        Outcome::Aborted { .. } => "aborted",
        Outcome::Interrupted { .. } => "interrupted",
        Outcome::External => "external",
        _ => "executed",
    }
}

/// An outcome, with what it tells.
fn outcome_text(alloc: Global, outcome: Outcome) -> Result<String, AllocError> {
    match outcome {
        Outcome::Rejected { by, line } => {
            let address = address_of(line);
            format!(in alloc; "rejected by CPU {by}, line {address:x}")
        }
        Outcome::Aborted { code } => format!(in alloc; "aborted, code {code}"),
        Outcome::Interrupted { code } => format!(in alloc; "interrupted, code {code:04x}"),
        _ => String::from_str(alloc, word_of(outcome)),
    }
}

/// Bytes that are text, as a string.
fn string_of(alloc: Global, bytes: &[u8]) -> Result<String, AllocError> {
    String::from_str(alloc, str::from_utf8(bytes).unwrap_or("?"))
}

/// An instruction as the listing has it.
fn instruction(alloc: Global, instr: &Instr) -> Result<String, AllocError> {
    match instruction_text(alloc, instr) {
        Ok(bytes) => string_of(alloc, bytes.as_slice()),
        Err(_) => Err(AllocError),
    }
}

/// What a turn is about.
fn deed_text(alloc: Global, deed: &Deed) -> Result<String, AllocError> {
    match deed {
        Deed::Instruction(address, Some(instr)) => {
            let text = instruction(alloc, instr)?;
            format!(in alloc; "{address:x} {text}")
        }
        Deed::Instruction(address, None) => format!(in alloc; "{address:x} no instruction"),
        Deed::Block(address) => format!(in alloc; "block at {address:x}"),
        Deed::Interruption(code) => format!(in alloc; "interruption {code:04x}"),
        Deed::External => String::from_str(alloc, "interruption from outside"),
        Deed::Wait => String::from_str(alloc, "waiting"),
    }
}

/// The same in a word: of an instruction, its mnemonic.
pub fn label(alloc: Global, deed: &Deed) -> Result<String, AllocError> {
    match deed {
        Deed::Instruction(_, Some(instr)) => {
            let text = instruction(alloc, instr)?;
            String::from_str(alloc, text.split(' ').next().unwrap_or("?"))
        }
        Deed::Instruction(_, None) => String::from_str(alloc, "?"),
        Deed::Block(_) => String::from_str(alloc, "block"),
        Deed::Interruption(_) => String::from_str(alloc, "taken"),
        Deed::External => String::from_str(alloc, "outside"),
        Deed::Wait => String::from_str(alloc, "wait"),
    }
}

/// A turn, in a line.
pub fn mark_title(alloc: Global, mark: &Mark) -> Result<String, AllocError> {
    let turn = mark.turn;
    let cpu = mark.cpu;
    let deed = deed_text(alloc, &mark.deed)?;
    let outcome = outcome_text(alloc, mark.outcome)?;
    format!(in alloc; "turn {turn}: CPU {cpu}, {deed}: {outcome}")
}

/// An entry, as the report has it.
pub fn entry_title(alloc: Global, entry: &Entry) -> Result<String, AllocError> {
    match entry_text(alloc, entry) {
        Ok(bytes) => string_of(alloc, bytes.as_slice().trim_ascii_end()),
        Err(_) => Err(AllocError),
    }
}

/// An attempt's end.
pub fn end_text(alloc: Global, attempt: &Attempt) -> Result<String, AllocError> {
    match attempt.end {
        End::Open => String::from_str(alloc, "goes on"),
        End::Commit(_) => String::from_str(alloc, "commits"),
        End::Abort(_, code) => format!(in alloc; "is aborted, code {code}"),
    }
}
