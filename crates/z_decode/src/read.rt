//! The fields that the bytes of an instruction hold, by the layout of its row, which is gone over once.
ghost use Rattle.std.specs.Prelude.{◌≡◌, ℕ, ◌<◌, ◌≤◌, ◌+◌, ◌*◌, ◌^◌, true, get_or, length};
ghost use Rattle.std.specs.List.{list_all};
ghost use Rattle.z_instr.specs.Layouts.{taken};
ghost use Rattle.z_instr.specs.Table.{entry_at};
ghost use Rattle.z_decode.specs.Code.{is_small, part, among, fields_by, AreSmall};

use z_instr::instr::Fields;
use z_instr::layout::{Digit, rank_of};
use z_instr::limits::{Bounds, field_limits};
use z_instr::op::Op;

/// What half a byte is in the place of a digit.
fn part_of(digit: Digit, half: u8) -> u64
    requires small { digit.index < 8 }
    requires half { half < 16 }
    ensures part { result ≡ half * 16 ^ digit.index }
    ensures small { result < 2 ^ 32 }
{
    u64::from(half) << (4 * digit.index)
}

/// Adds a digit to the number of its field.
fn add_digit(numbers: &mut [u64; 12], digit: Digit, half: u8)
    requires small { digit.index < 8 }
    requires half { half < 16 }
    requires room { (rank : ℕ) → get_or numbers.old rank 0 < 2 ^ 40 }
    ensures part { (rank : ℕ) → get_or numbers.new rank 0 ≡ get_or numbers.old rank 0 + part digit half rank }
    ensures small { (rank : ℕ) → get_or numbers.new rank 0 < get_or numbers.old rank 0 + 2 ^ 32 }
{
    let rank = usize::from(rank_of(digit.field));
    numbers[rank] += part_of(digit, half);
}

/// The numbers of the fields by their ranks.
pub fn numbers_in(layout: &[Digit], bytes: &[u8]) -> [u64; 12]
    requires small { list_all is_small layout.now ≡ true }
    requires length { length layout.now ≡ 2 * length bytes.now }
    requires few { length bytes.now ≤ 6 }
    ensures { (rank : ℕ) → get_or result rank 0 ≡ taken layout.now bytes.now rank }
{
    let mut numbers = [0u64; 12];
    for place in 0..bytes.len() {
        add_digit(&mut numbers, layout[2 * place], bytes[place] / 16);
        add_digit(&mut numbers, layout[2 * place + 1], bytes[place] % 16);
    }
    numbers
}

/// The number among bounds of so many bits.
fn number_among(bounds: Bounds, bits: u64) -> i64
    requires few { bounds.above ≤ 2 ^ 32 }
    requires inside { bits < bounds.above + bounds.below }
    ensures { result ≡ among bounds bits }
{
    if bits < bounds.above {
        bits as i64
    } else {
        bits as i64 - (bounds.above as i64 + i64::from(bounds.below))
    }
}

/// The displacement among bounds of so many bits.
fn displacement(bounds: Bounds, bits: u64) -> i32
    requires few { bounds.above ≤ 2 ^ 20 }
    requires many { bounds.below ≤ 2 ^ 20 }
    requires inside { bits < bounds.above + bounds.below }
    ensures { result ≡ among bounds bits }
{
    number_among(bounds, bits) as i32
}

/// The fields of an operation's instruction of such numbers.
pub fn fields_from(op: Op, numbers: [u64; 12]) -> Fields
    requires { AreSmall (entry_at op.number) (λ rank. get_or numbers rank 0) }
    ensures { result ≡ fields_by (entry_at op.number) (λ rank. get_or numbers rank 0) }
{
    let limits = field_limits(op);
    Fields {
        r1: numbers[1] as u8,
        r2: numbers[2] as u8,
        r3: numbers[3] as u8,
        x: numbers[4] as u8,
        b: numbers[5] as u8,
        d: displacement(limits.d, numbers[6]),
        b2: numbers[7] as u8,
        d2: displacement(limits.d2, numbers[8]),
        imm: number_among(limits.imm, numbers[9]),
        mask: numbers[10] as u8,
    }
}
