//! Bit patterns and the numbers that they stand for, at either width.
ghost use Rattle.std.specs.Prelude.{◌≡◌, ◌<◌, ◌≤◌, ◌^◌, ◌↔◌, ◌-◌, ◌%◌, IsTrue, if◌then◌else◌};
ghost use Rattle.z_arith.specs.Whole.{bits, signed, modulo, sign_code};

use crate::{Answer, Width};

/// The rightmost bits of a doubleword, as many as an operand has.
pub fn low(w: Width, pattern: u64) -> u64
    ensures { result ≡ pattern % 2 ^ bits w }
{
    match w {
        Width::Word => pattern % 0x1_0000_0000,
        Width::Double => pattern,
    }
}

/// The worth of the leftmost bit of an operand.
pub fn sign_bit(w: Width) -> u64
    ensures { result ≡ 2 ^ (bits w - 1) }
{
    match w {
        Width::Word => 0x8000_0000,
        Width::Double => 0x8000_0000_0000_0000,
    }
}

/// How many bits an operand has.
pub fn size(w: Width) -> u32
    ensures { result ≡ bits w }
{
    match w {
        Width::Word => 32,
        Width::Double => 64,
    }
}

/// Whether the leftmost bit is one.
pub fn has_sign(w: Width, pattern: u64) -> bool
    ensures { IsTrue result ↔ (2 ^ (bits w - 1) ≤ pattern) }
{
    pattern >= sign_bit(w)
}

/// The number with a sign that an operand stands for.
pub fn number(w: Width, pattern: u64) -> i64
    requires { pattern < 2 ^ bits w }
    ensures { result ≡ signed (bits w) pattern }
{
    match w {
        Width::Word => (pattern as u32).cast_signed() as i64,
        Width::Double => pattern.cast_signed(),
    }
}

/// The doubleword that stands for a number.
pub fn doubleword(number: i64) -> u64
    ensures { result ≡ modulo 64 number }
{
    number.cast_unsigned()
}

/// The rightmost word of that doubleword.
pub fn word(number: i64) -> u32
    ensures { result ≡ modulo 32 number }
{
    low(Width::Word, doubleword(number)) as u32
}

/// The answer with this value; its code is that of the value's sign, or 3 where there is overflow.
pub fn settled(w: Width, value: u64, overflow: bool) -> Answer
    requires { value < 2 ^ bits w }
    ensures value { result.value ≡ value }
    ensures condition { result.condition ≡ (if overflow then 3 else sign_code (signed (bits w) value)) }
    ensures overflow { result.overflow ≡ overflow }
{
    let condition = if overflow {
        3
    } else if has_sign(w, value) {
        1
    } else if value == 0 {
        0
    } else {
        2
    };
    Answer {
        value,
        condition,
        overflow,
    }
}
