//! The bytes of an instruction, by the layout of its row.
ghost use Rattle.std.specs.Prelude.{◌≡◌, ℕ, ◌<◌, ◌≤◌, true, get_or, length};
ghost use Rattle.std.specs.List.{list_all};
ghost use Rattle.z_instr.specs.Ranges.{is_within, bounds};
ghost use Rattle.z_instr.specs.Reading.{modulo, numbers, number_of, code};
ghost use Rattle.z_instr.specs.Made.{fields_of};
ghost use Rattle.z_instr.specs.Layouts.{digit, spelled};
ghost use Rattle.z_instr.specs.Table.{entry_at};
ghost use Rattle.z_decode.specs.Code.{is_small, six};

use z_instr::instr::Instr;
use z_instr::layout::{Digit, rank_of};

/// The last 32 bits of a number.
fn last_bits(number: i64) -> u32
    requires { is_within (bounds 2147483648 4294967296) number ≡ true }
    ensures { result ≡ modulo 32 number }
{
    if number < 0 {
        (number + 0x1_0000_0000) as u32
    } else {
        number as u32
    }
}

/// The numbers of the fields of an instruction, by their ranks.
#[tactic(auto, using(crate::proofs::Rows::wide_immediate))]
fn numbers_of(opcode: u16, instr: &Instr) -> [u32; 12]
    ensures { result ≡ numbers opcode (fields_of instr.now) }
{
    [
        u32::from(opcode),
        u32::from(instr.r1),
        u32::from(instr.r2),
        u32::from(instr.r3),
        u32::from(instr.x),
        u32::from(instr.b),
        last_bits(i64::from(instr.d)),
        u32::from(instr.b2),
        last_bits(i64::from(instr.d2)),
        last_bits(instr.imm),
        u32::from(instr.mask),
        0,
    ]
}

/// The digit of a number.
fn digit_in(numbers: &[u32; 12], wanted: Digit) -> u8
    requires { wanted.index < 8 }
    ensures digit { result ≡ digit (λ rank. get_or numbers.now rank 0) wanted }
    ensures few { result < 16 }
{
    ((numbers[usize::from(rank_of(wanted.field))] >> (4 * wanted.index)) % 16) as u8
}

/// The byte of a place, 0 behind the last one.
fn byte_at(layout: &[Digit], numbers: &[u32; 12], place: usize) -> u8
    requires small { list_all is_small layout.now ≡ true }
    requires few { place < 6 }
    ensures { result ≡ get_or (spelled layout.now (λ rank. get_or numbers.now rank 0)) place 0 }
{
    if 2 * place + 1 < layout.len() {
        digit_in(numbers, layout[2 * place]) * 16 + digit_in(numbers, layout[2 * place + 1])
    } else {
        0
    }
}

/// The bytes of an instruction, by the layout of its row and its opcode, and zeros behind them.
pub fn spell(layout: &[Digit], opcode: u16, instr: &Instr) -> [u8; 6]
    requires small { list_all is_small layout.now ≡ true }
    ensures { result ≡ six (spelled layout.now (number_of opcode (fields_of instr.now))) }
{
    let numbers = numbers_of(opcode, instr);
    [
        byte_at(layout, &numbers, 0),
        byte_at(layout, &numbers, 1),
        byte_at(layout, &numbers, 2),
        byte_at(layout, &numbers, 3),
        byte_at(layout, &numbers, 4),
        byte_at(layout, &numbers, 5),
    ]
}
