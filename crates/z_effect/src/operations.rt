//! Operations on numbers, by their kinds.
ghost use Rattle.std.specs.Prelude.{◌≡◌, ◌<◌, ◌^◌, ℕ};
ghost use Rattle.z_arith.specs.Whole.{bits, signed, modulo, sign_code, plain_answer};
ghost use Rattle.z_instr.specs.Kinds.{size_of};
ghost use Rattle.z_effect.specs.Operations.{logic_of, logic_answer as answer_of, zero_code as code_of, combined, compared, extended, bits_in, shifted};

use z_arith::shifts::shift as shift_bits;
use z_arith::{self, Answer, Shift, Width, doubleword, low, number, word};
use z_instr::kind::{Logic, Operation, Order, Part};
use z_instr::operand::Size;

/// An operation on bits. Of operands of so many bits the result has no more.
pub fn logic(logic: Logic, a: u64, b: u64) -> u64
    ensures value { result ≡ logic_of logic a b }
    ensures fits { (k : ℕ) → a < 2 ^ k → b < 2 ^ k → result < 2 ^ k }
{
    match logic {
        Logic::And => a & b,
        Logic::Or => a | b,
        Logic::ExclusiveOr => a ^ b,
    }
}

/// The code of an operation on bits: whether the result is zero.
pub fn zero_code(value: u64) -> u8
    ensures code { result ≡ code_of value }
    ensures small { result < 4 }
{
    if value == 0 { 0 } else { 1 }
}

/// A value and its code, without overflow.
fn plain(value: u64, condition: u8) -> Answer
    ensures { result ≡ plain_answer value condition }
{
    Answer {
        value,
        condition,
        overflow: false,
    }
}

/// A result that is zero, negative or positive.
fn tested(w: Width, value: u64) -> Answer
    requires { value < 2 ^ bits w }
    ensures value { result ≡ plain_answer value (sign_code (signed (bits w) value)) }
    ensures code { result.condition < 4 }
{
    let condition = match number(w, value).signum() {
        0 => 0,
        1 => 2,
        _ => 1,
    };
    plain(value, condition)
}

/// The result of an operation on bits, and its code.
fn logic_answer(kind: Logic, w: Width, a: u64, b: u64) -> Answer
    requires a_in { a < 2 ^ bits w }
    requires b_in { b < 2 ^ bits w }
    ensures value { result ≡ answer_of (logic_of kind a b) }
    ensures fits { result.value < 2 ^ bits w }
    ensures code { result.condition < 4 }
{
    let value = logic(kind, a, b);
    plain(value, zero_code(value))
}

/// The result of an operation on its two operands, where the condition code was `condition` before. Operands
/// and result are patterns of the width.
#[tactic(auto, unfolding(crate::specs::Operations::combined))]
pub fn combine(operation: Operation, w: Width, condition: u8, a: u64, b: u64) -> Answer
    requires a_in { a < 2 ^ bits w }
    requires b_in { b < 2 ^ bits w }
    requires condition_in { condition < 4 }
    ensures value { result ≡ combined operation w condition a b }
    ensures fits { result.value < 2 ^ bits w }
    ensures code { result.condition < 4 }
{
    match operation {
        Operation::Add => z_arith::add(w, a, b),
        Operation::Subtract => z_arith::subtract(w, a, b),
        Operation::AddLogical => z_arith::add_logical(w, a, b, false),
        Operation::SubtractLogical => z_arith::subtract_logical(w, a, b, false),
        Operation::AddWithCarry => z_arith::add_logical(w, a, b, condition >= 2),
        Operation::SubtractWithBorrow => z_arith::subtract_logical(w, a, b, condition < 2),
        Operation::Multiply => plain(z_arith::multiply_low(w, a, b), condition),
        Operation::Logic(kind) => logic_answer(kind, w, a, b),
        Operation::Load => plain(b, condition),
        Operation::LoadAndTest => tested(w, b),
        Operation::LoadPositive => z_arith::positive(w, b),
        Operation::LoadNegative => z_arith::negative(w, b),
        Operation::LoadComplement => z_arith::complement(w, b),
    }
}

/// The condition code of a comparison: 0 equal, 1 where the first is low, 2 where it is high.
pub fn compare(order: Order, w: Width, a: u64, b: u64) -> u8
    requires a_in { a < 2 ^ bits w }
    requires b_in { b < 2 ^ bits w }
    ensures value { result ≡ compared order w a b }
    ensures code { result < 4 }
{
    match order {
        Order::Signed => z_arith::compare_signed(w, a, b),
        Order::Logical => z_arith::compare_logical(w, a, b),
    }
}

/// The number with a sign in the rightmost bits of a pattern, as many as an item has.
fn signed_item(size: Size, pattern: u64) -> i64
    requires { pattern < 2 ^ bits_in size }
    ensures { result ≡ signed (bits_in size) pattern }
{
    match size {
        Size::Byte => i64::from((pattern as u8).cast_signed()),
        Size::Halfword => i64::from((pattern as u16).cast_signed()),
        Size::Word => number(Width::Word, pattern),
        Size::Doubleword => number(Width::Double, pattern),
    }
}

/// A number with a sign, as a pattern.
pub fn immediate(w: Width, number: i64) -> u64
    ensures value { result ≡ modulo (bits w) number }
    ensures fits { result < 2 ^ bits w }
{
    match w {
        Width::Word => u64::from(word(number)),
        Width::Double => doubleword(number),
    }
}

/// A piece, brought to a width.
pub fn extend(w: Width, part: Part, pattern: u64) -> u64
    requires { pattern < 2 ^ bits_in (size_of part) }
    ensures value { result ≡ extended w part pattern }
    ensures fits { result < 2 ^ bits w }
{
    match part {
        Part::Plain(_) => low(w, pattern),
        Part::Signed(size) => immediate(w, signed_item(size, pattern)),
    }
}

/// A shift or a rotation by `amount` bits, where the condition code was `condition` before.
#[tactic(auto, unfolding(crate::specs::Operations::shifted))]
pub fn shift(kind: Shift, w: Width, condition: u8, value: u64, amount: u32) -> Answer
    requires value_in { value < 2 ^ bits w }
    requires amount_in { amount < 64 }
    requires condition_in { condition < 4 }
    ensures value { result ≡ shifted kind w condition value amount }
    ensures fits { result.value < 2 ^ bits w }
    ensures code { result.condition < 4 }
{
    let moved = shift_bits(kind, w, value, amount);
    match kind {
        Shift::LeftSigned | Shift::RightSigned => moved,
        Shift::LeftLogical | Shift::RightLogical | Shift::Rotate => Answer { condition, ..moved },
    }
}
