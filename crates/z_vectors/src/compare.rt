//! What differs between what an instruction leaves and what a vector says.
ghost use Rattle.std.specs.Prelude.{◌<◌};
ghost use Rattle.z_regs.specs.Prefix.{storage_size};

use crate::trial::{Answer, NobodysOperation, attempt};
use crate::view::Watched;
use crate::words::Words;
use std::alloc::Global;
use vector_lines::{Case, Fault, Piece, byte_in};
use z_regs::{Bytes, CpuImage, RunState};

/// Above the numbers of the states without an exception.
const INTERRUPTED: u64 = 65_536;

/// A number for each state: 0 running, 1 halted.
fn state_number(state: RunState) -> u64 {
    match state {
        RunState::Running => 0,
        RunState::Halted => 1,
        RunState::Interrupted(code) => INTERRUPTED + u64::from(code),
    }
}

/// What is compared.
#[derive(Clone, Copy)]
enum Place {
    /// A part of the CPU with a name of its own.
    Named(&'static str),
    /// A general register.
    General(usize),
    /// An access register.
    Access(usize),
    /// A byte of storage.
    Byte(u64),
}

/// Adds the name of a place.
fn add_place(words: &mut Words, place: Place) {
    match place {
        Place::Named(name) => words.add(name),
        Place::General(r) => {
            words.add("r");
            words.add_decimal(r as u64);
        }
        Place::Access(r) => {
            words.add("a");
            words.add_decimal(r as u64);
        }
        Place::Byte(address) => {
            words.add("m");
            words.add_hexadecimal(address);
        }
    }
}

/// Adds a difference behind what is there.
fn add_difference(words: &mut Words, place: Place, ours: u64, theirs: u64) {
    if !words.as_str().is_empty() {
        words.add("; ");
    }
    add_place(words, place);
    words.add(" is ");
    words.add_hexadecimal(ours);
    words.add(", not ");
    words.add_hexadecimal(theirs);
}

/// Adds a difference where the numbers are not the same.
fn add_where_not(words: &mut Words, place: Place, ours: u64, theirs: u64) {
    if ours != theirs {
        add_difference(words, place, ours, theirs);
    }
}

fn add_registers(words: &mut Words, ours: &CpuImage, theirs: &CpuImage) {
    for r in 0..16usize {
        add_where_not(words, Place::General(r), ours.general[r], theirs.general[r]);
    }
    for r in 0..16usize {
        let (ours, theirs) = (u64::from(ours.access[r]), u64::from(theirs.access[r]));
        add_where_not(words, Place::Access(r), ours, theirs);
    }
}

/// Address, code, mask, state and exception as numbers, in this order.
fn numbers_of(image: &CpuImage, exception: Option<u16>) -> [u64; 5] {
    [
        image.address,
        u64::from(image.condition),
        u64::from(image.mask),
        state_number(image.state),
        u64::from(exception.unwrap_or(0)),
    ]
}

/// The names of these numbers.
const NAMES: [&str; 5] = ["at", "cc", "pm", "state", "x"];

fn add_numbers(words: &mut Words, ours: &[u64; 5], theirs: &[u64; 5]) {
    for k in 0..5usize {
        add_where_not(words, Place::Named(NAMES[k]), ours[k], theirs[k]);
    }
}

/// Adds a difference where a byte of storage is not this one.
fn add_byte(words: &mut Words, view: &Watched, address: u64, theirs: u8)
    requires { address < storage_size }
{
    let ours = view.get(address);
    add_where_not(
        words,
        Place::Byte(address),
        u64::from(ours),
        u64::from(theirs),
    );
}

/// Bytes that were put, and that should be what they were before.
fn add_strays(words: &mut Words, view: &Watched, before: &[Piece], after: &[Piece]) {
    for address in view.puts() {
        if byte_in(after, *address).is_none() {
            add_byte(
                words,
                view,
                *address,
                byte_in(before, *address).unwrap_or(0),
            );
        }
    }
}

/// Bytes of a piece that should be new.
fn add_piece(words: &mut Words, view: &Watched, piece: &Piece) {
    for (k, byte) in piece.bytes.iter().enumerate() {
        add_byte(words, view, piece.first + k as u64, *byte);
    }
}

/// Bytes that should be new.
fn add_pieces(words: &mut Words, view: &Watched, pieces: &[Piece]) {
    for piece in pieces {
        add_piece(words, view, piece);
    }
}

/// Adds what differs, in words; nothing where all is as the case says.
fn add_differences(words: &mut Words, answer: &Answer, case: &Case, view: &Watched) {
    let ours = numbers_of(&answer.image, answer.exception);
    let theirs = numbers_of(&case.after.image, case.exception);
    add_numbers(words, &ours, &theirs);
    add_registers(words, &answer.image, &case.after.image);
    if view.has_forgotten() {
        words.cut_off();
    }
    add_strays(words, view, &case.before.pieces, &case.after.pieces);
    add_pieces(words, view, &case.after.pieces);
}

/// Executes the instruction of a case, and adds what differs.
fn add_attempt(words: &mut Words, case: &Case, view: &mut Watched) {
    match attempt(&case.code, case.before.image, view) {
        Ok(answer) => add_differences(words, &answer, case, view),
        Err(NobodysOperation) => words.add("no crate executes it"),
    }
}

/// Adds what differs in a case; nothing where all is as it says.
fn add_case(words: &mut Words, case: &Case, view: &mut Watched) {
    view.lay(&case.before.pieces);
    add_attempt(words, case, view);
    view.undo();
}

/// Adds what differs in a line that tells the effect of an instruction; nothing where all is as it says.
pub fn add_effect(
    words: &mut Words,
    alloc: Global,
    line: &str,
    view: &mut Watched,
) -> Result<(), Fault> {
    let case = Case::read(alloc, line)?;
    add_case(words, &case, view);
    Ok(())
}
