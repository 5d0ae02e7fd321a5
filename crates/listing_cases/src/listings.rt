//! Instructions assembled, listed, and assembled again. What an outside assembler makes of each is the bytes
//! that are expected.
mod encodings;

use encodings::ENCODINGS;
use std::alloc::Global;
use std::test::Fail;
use z_assemble::assemble;
use z_list::listing;

/// The line of a CPU that stands first in a program.
const FIRST: &str = " CPU 16384\n";

/// Where the bytes of a program begin.
const START: usize = 16384;

/// The lines of the encodings as a program.
fn program(alloc: Global) -> Result<String, Fail> {
    let mut text = String::from_str(alloc, FIRST)?;
    for encoding in &ENCODINGS {
        let (line, _) = encoding.split_once(" | ").ok_or("a line")?;
        writeln!(text, " {line}")?;
    }
    Ok(text)
}

/// The bytes of all encodings in hexadecimal.
fn codes(alloc: Global) -> Result<String, Fail> {
    let mut text = String::new(alloc);
    for encoding in &ENCODINGS {
        let (_, code) = encoding.split_once(" | ").ok_or("bytes")?;
        text.push_str(code)?;
    }
    Ok(text)
}

/// The mnemonics and operands of a listing as a program.
fn program_of(alloc: Global, listed: &str) -> Result<String, Fail> {
    let mut text = String::from_str(alloc, FIRST)?;
    for line in listed.lines() {
        let words = line.get(21..).ok_or("a short line")?;
        writeln!(text, "{words}")?;
    }
    Ok(text)
}

#[test]
fn encodings_are_those_of_an_outside_assembler(rt: HostRuntime) -> Result<(), Fail> {
    let alloc = rt.alloc();
    let image = assemble(alloc, program(alloc)?.as_bytes())?;
    let wanted = codes(alloc)?;
    let mut made = String::new(alloc);
    for byte in image.storage.iter().skip(START).take(wanted.len() / 2) {
        write!(made, "{byte:02x}")?;
    }
    assert_eq!(rt; made.as_str(), wanted.as_str());
    assert_eq!(rt; image.starts.len(), ENCODINGS.len());
    Ok(())
}

#[test]
fn what_is_listed_assembles_to_the_same_image(rt: HostRuntime) -> Result<(), Fail> {
    let alloc = rt.alloc();
    let image = assemble(alloc, program(alloc)?.as_bytes())?;
    let listed = listing(alloc, &image)?;
    let again = program_of(alloc, str::from_utf8(listed.as_slice())?)?;
    let second = assemble(alloc, again.as_bytes())?;
    assert!(rt; image.same(&second));
    Ok(())
}
