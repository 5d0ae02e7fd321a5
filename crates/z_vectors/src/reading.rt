//! Bytes and the line of the listing that they read as.

use crate::words::Words;
use std::alloc::Global;
use vector_lines::{Code, Fault, is_spelling};
use z_decode::encode;
use z_instr::instr::Instr;
use z_list::instruction_text;

/// Adds the instruction as the listing prints it.
fn add_listing(words: &mut Words, alloc: Global, instr: &Instr) {
    let Ok(line) = instruction_text(alloc, instr) else {
        return words.cut_off();
    };
    if let Ok(line) = str::from_utf8(line.as_slice()) {
        words.add(line);
    }
}

/// Whether the listing prints an instruction as this line; none where there was no memory.
fn is_listing(alloc: Global, line: &str, instr: &Instr) -> Option<bool> {
    let ours = instruction_text(alloc, instr).ok()?;
    Some(ours.as_slice() == line.as_bytes())
}

/// Adds what differs where an instruction does not have just these bytes; nothing where it does.
fn add_encoding(words: &mut Words, instr: &Instr, bytes: &[u8]) {
    let ours = encode(instr);
    let ours = &ours.bytes[..usize::from(ours.length)];
    if ours != bytes {
        words.add("encoded as ");
        words.add_bytes(ours);
    }
}

/// Adds what differs between the reading of bytes, which are given as they are written too, and a line of the
/// listing in any spelling; nothing where all is the same.
fn add_spelling(
    words: &mut Words,
    alloc: Global,
    (line, bytes): (&str, &str),
    code: &Code,
) -> Result<(), Fault> {
    let Some(instr) = code.instr() else {
        words.add(bytes);
        words.add(" has no reading");
        return Ok(());
    };
    if is_spelling(alloc, line, &instr)? {
        add_encoding(words, &instr, code.as_slice());
    } else {
        words.add(bytes);
        words.add(" reads as ");
        add_listing(words, alloc, &instr);
    }
    Ok(())
}

/// Adds what differs between the reading of bytes and a line of the listing in any spelling; nothing where all is
/// the same.
pub fn add_line(words: &mut Words, alloc: Global, line: &str, bytes: &str) -> Result<(), Fault> {
    let code = Code::read(alloc, bytes)?;
    add_spelling(words, alloc, (line, bytes), &code)
}

/// Adds what differs between the reading of bytes and a line as the listing is printed, `-` for none; nothing
/// where all is the same.
fn add_reading(words: &mut Words, alloc: Global, line: &str, code: &Code) {
    let Some(instr) = code.instr() else {
        if line != "-" {
            words.add("no reading");
        }
        return;
    };
    match is_listing(alloc, line, &instr) {
        Some(true) => add_encoding(words, &instr, code.as_slice()),
        Some(false) => {
            words.add("reads as ");
            add_listing(words, alloc, &instr);
        }
        None => words.cut_off(),
    }
}

/// Adds what differs between the reading of bytes and a line as the listing is printed, `-` for none; nothing
/// where all is the same.
pub fn add_bytes(words: &mut Words, alloc: Global, bytes: &str, line: &str) -> Result<(), Fault> {
    let code = Code::read(alloc, bytes)?;
    add_reading(words, alloc, line, &code);
    Ok(())
}
