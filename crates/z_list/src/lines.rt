//! The lines of the listing.
ghost use Rattle.std.specs.Prelude.{◌≡◌, ◌≤◌, ◌++◌, IfOk, OnOk, All, length, slice_index};
ghost use Rattle.std.specs.Int.{to_be_bytes};
ghost use Rattle.std.specs.List.{flat_map};
ghost use mir.Syntax.{w32};
ghost use Rattle.hex.specs.Hex.{encode_lower};
ghost use Rattle.z_instr.specs.Layout.{length_by};
ghost use Rattle.z_instr.specs.Reading.{Reads};
ghost use Rattle.z_instr.specs.declared.instr.Instr.{Instr};
ghost use Rattle.tx_journal.specs.Image.{HasReading};
ghost use Rattle.z_list.specs.Listing.{code_at, code_field, line_text, line_at, list_of};

use crate::spelling::add_instruction;
use std::alloc::{AllocError, Global};
use tx_journal::{Image, NoMemory};
use z_decode::{decode, length_of};
use z_instr::instr::Instr;

/// The bytes of the longest line, which has two operands in storage.
const LINE_ROOM: usize = 48;

/// Adds an address in eight hexadecimal digits.
fn add_address(text: &mut Vec<u8>, address: u32) -> Result<(), AllocError>
    ensures { OnOk result (text.new.items ≡ text.old.items ++ encode_lower (to_be_bytes w32 address)) }
{
    let mut digits = [0u8; 8];
    match hex::encode_to_slice(address.to_be_bytes(), &mut digits) {
        Ok(()) => text.extend_from_slice(&digits),
        Err(_) => unreachable!(),
    }
}

/// Adds the bytes of an instruction in hexadecimal, with blanks up to twelve places.
fn add_code(text: &mut Vec<u8>, code: &[u8]) -> Result<(), AllocError>
    requires { length code.now ≤ 6 }
    ensures { OnOk result (text.new.items ≡ text.old.items ++ code_field code.now) }
{
    let mut field = [b' '; 12];
    match hex::encode_to_slice(code, &mut field[..2 * code.len()]) {
        Ok(()) => text.extend_from_slice(&field),
        Err(_) => unreachable!(),
    }
}

/// The bytes of the instruction at an address.
fn code_at(storage: &[u8], start: usize) -> &[u8]
    requires { HasReading storage.now start }
    ensures value { result.now ≡ code_at storage.now start }
    ensures whole { length result.now ≡ length_by (slice_index result.now 0) }
    ensures short { length result.now ≤ 6 }
    ensures readable { (i : Instr) × Reads result.now i }
{
    let length = usize::from(length_of(storage[start]));
    &storage[start..start + length]
}

/// The instruction that bytes read as.
fn instruction_of(code: &[u8]) -> Instr
    requires length { length code.now ≡ length_by (slice_index code.now 0) }
    requires readable { (i : Instr) × Reads code.now i }
    ensures { Reads code.now result }
{
    match decode(code) {
        Ok(instr) => instr,
        Err(_) => unreachable!(),
    }
}

/// Adds a line: an address, bytes and the instruction that they are.
pub(crate) fn add_parts(
    text: &mut Vec<u8>,
    start: u32,
    code: &[u8],
    instr: &Instr,
) -> Result<(), AllocError>
    requires { length code.now ≤ 6 }
    ensures { OnOk result (text.new.items ≡ text.old.items ++ line_text start code.now instr.now) }
{
    add_address(text, start)?;
    text.extend_from_slice(b" ")?;
    add_code(text, code)?;
    text.extend_from_slice(b" ")?;
    add_instruction(text, instr)?;
    text.extend_from_slice(b"\n")
}

/// Adds the line of the instruction at an address.
fn add_line(text: &mut Vec<u8>, storage: &[u8], start: u32) -> Result<(), AllocError>
    requires { HasReading storage.now start }
    ensures { OnOk result (text.new.items ≡ text.old.items ++ line_at storage.now start) }
{
    let code = code_at(storage, start as usize);
    let instr = instruction_of(code);
    add_parts(text, start, code, &instr)
}

/// Adds the lines of the instructions at addresses.
fn add_lines(text: &mut Vec<u8>, storage: &[u8], starts: &[u32]) -> Result<(), AllocError>
    requires { All (HasReading storage.now) starts.now }
    ensures { OnOk result (text.new.items ≡ text.old.items ++ flat_map (line_at storage.now) starts.now) }
{
    text.try_reserve(starts.len().saturating_mul(LINE_ROOM))?;
    for start in starts {
        add_line(text, storage, *start)?;
    }
    Ok(())
}

/// The listing of an image: a line for each assembled instruction, in rising order of their addresses.
/// `NoMemory` comes for want of memory.
///
/// A line has the address in 8 hexadecimal digits, the bytes in hexadecimal, filled with blanks to 12 places,
/// the mnemonic and the operands, with a blank between them and a line feed at the end. Room for the longest
/// lines is reserved first.
pub fn listing(alloc: Global, image: &Image) -> Result<Vec<u8>, NoMemory>
    ensures { IfOk result (λ text. text.items ≡ list_of image.now) }
{
    let mut text = Vec::new(alloc);
    let _cpus = image.cpu_count();
    add_lines(&mut text, image.storage.as_slice(), image.starts.as_slice())?;
    Ok(text)
}
