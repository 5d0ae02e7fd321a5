//! Instructions from bytes.
ghost use Rattle.std.specs.Prelude.{◌≡◌, length, slice_index, IfOk, IfErr};
ghost use Rattle.z_instr.specs.Layout.{length_by};
ghost use Rattle.z_instr.specs.Reading.{Reads};
ghost use Rattle.z_instr.specs.declared.instr.Instr.{Instr};

use crate::finding::find_row;
use crate::read::{fields_from, numbers_in};
use z_instr::instr::Instr;
use z_instr::layout::digits_of;
use z_instr::lookup::line;

/// The bytes read as no instruction: no row has their opcode, or bits that no field uses are not zero.
#[derive(Clone, Copy, PartialEq, Eq, Debug)]
pub struct NoReading;

/// How many bytes an instruction has, by its first one: 2, 4 or 6.
pub fn length_of(first: u8) -> u8
    ensures { result ≡ length_by first }
{
    if first < 64 {
        2
    } else if first < 192 {
        4
    } else {
        6
    }
}

/// The number of bits that no field uses, among the numbers of the fields.
const SPARE: usize = 11;

/// The instruction that the bytes read as, by a search of nine steps and no memory; NoReading exactly where
/// they have no reading.
pub fn decode(bytes: &[u8]) -> Result<Instr, NoReading>
    requires { length bytes.now ≡ length_by (slice_index bytes.now 0) }
    ensures found { IfOk result (λ i. Reads bytes.now i) }
    ensures none { IfErr result (λ _. (i : Instr) → Reads bytes.now i → ⊥) }
{
    let Some(op) = find_row(bytes) else {
        return Err(NoReading);
    };
    let numbers = numbers_in(digits_of(&line(op)), bytes);
    if numbers[SPARE] != 0 {
        return Err(NoReading);
    }
    match Instr::new(op, fields_from(op, numbers)) {
        Some(instr) => Ok(instr),
        None => Err(NoReading),
    }
}
