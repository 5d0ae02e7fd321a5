//! Shifts and rotations.
ghost use Rattle.std.specs.Prelude.{◌≡◌, ◌≢◌, ◌<◌, ◌≤◌, ◌^◌, ◌↔◌, ◌*◌, ◌/◌, ◌%◌, IsTrue, false, not, nat_eq};
ghost use Rattle.std.specs.Prelude.{nat_lt, ◌+◌, ◌-◌, if◌then◌else◌};
ghost use Rattle.z_arith.specs.Whole.{bits};
ghost use Rattle.z_arith.specs.Shifted.{shift_of, left_signed_of, right_signed_of, rotated, kept_bits};
ghost use Rattle.z_arith.specs.Shifted.{lost_bits, sign_copies, LosesUnlike};

use crate::numbers::{doubleword, has_sign, low, number, settled, sign_bit, size};
use crate::{Answer, Shift, Width};

/// The value moved by `amount` places, below 64, as `kind` says.
///
/// `LeftLogical`: SLL, and for doublewords SLLG. `RightLogical`: SRL and SRLG. `Rotate`: RLL and RLLG; a
/// word is rotated by the amount modulo 32. These leave the condition code of the CPU unchanged, and the
/// answer's is 0.
///
/// `LeftSigned`: SLA and SLAG. There is overflow exactly where some bit is lost that is unlike the sign;
/// the value keeps its sign all the same. `RightSigned`: SRA and SRAG. The code of these two is 0 for a
/// value of zero, 1 below zero, 2 above, and 3 with overflow.
#[tactic(auto, unfolding(crate::specs::Shifted::shift_of))]
pub fn shift(kind: Shift, w: Width, value: u64, amount: u32) -> Answer
    requires value_in { value < 2 ^ bits w }
    requires amount_in { amount < 64 }
    ensures value { result ≡ shift_of kind w value amount }
    ensures lost { kind ≡ Shift.LeftSigned → (IsTrue result.overflow ↔ LosesUnlike (bits w) value amount) }
    ensures fits { result.value < 2 ^ bits w }
    ensures code { result.condition < 4 }
{
    match kind {
        Shift::LeftLogical => unsigned(low(w, value << amount)),
        Shift::RightLogical => unsigned(value >> amount),
        Shift::LeftSigned => left_signed(w, value, amount),
        Shift::RightSigned => right_signed(w, value, amount),
        Shift::Rotate => unsigned(rotate(w, value, amount)),
    }
}

// The answer of an operation that sets no code.
fn unsigned(value: u64) -> Answer
    ensures value { result.value ≡ value }
    ensures condition { result.condition ≡ 0 }
    ensures overflow { result.overflow ≡ false }
{
    Answer {
        value,
        condition: 0,
        overflow: false,
    }
}

// A doubleword moved left, with nothing lost.
fn moved(value: u64, amount: u32) -> u128
    requires { amount < 64 }
    ensures { result ≡ value * 2 ^ amount }
{
    u128::from(value) << amount
}

// Whether a shift of the bits right of the sign to the left loses one that is unlike the sign.
fn loses(w: Width, value: u64, amount: u32) -> bool
    requires value_in { value < 2 ^ bits w }
    requires amount_in { amount < 64 }
    ensures { result ≡ not (nat_eq (lost_bits (bits w) value amount) (sign_copies (bits w) value amount)) }
{
    let sign = sign_bit(w);
    let lost = moved(value % sign, amount) / u128::from(sign);
    let alike = if has_sign(w, value) {
        moved(1, amount) - 1
    } else {
        0
    };
    lost != alike
}

// The sign bit as it is, and beside it what a shift to the left keeps of the other bits.
fn kept(w: Width, value: u64, amount: u32) -> u64
    requires value_in { value < 2 ^ bits w }
    requires amount_in { amount < 64 }
    ensures value { result ≡ kept_bits (bits w) value amount }
    ensures fits { result < 2 ^ bits w }
{
    let sign = sign_bit(w);
    let others = (moved(value, amount) % u128::from(sign)) as u64;
    if has_sign(w, value) {
        sign + others
    } else {
        others
    }
}

#[tactic(auto, unfolding(crate::specs::Shifted::LosesUnlike))]
fn left_signed(w: Width, value: u64, amount: u32) -> Answer
    requires value_in { value < 2 ^ bits w }
    requires amount_in { amount < 64 }
    ensures value { result ≡ left_signed_of (bits w) value amount }
    ensures lost { IsTrue result.overflow ↔ LosesUnlike (bits w) value amount }
    ensures fits { result.value < 2 ^ bits w }
    ensures code { result.condition < 4 }
{
    settled(w, kept(w, value, amount), loses(w, value, amount))
}

#[tactic(auto, unfolding(crate::specs::Shifted::right_signed_of))]
fn right_signed(w: Width, value: u64, amount: u32) -> Answer
    requires value_in { value < 2 ^ bits w }
    requires amount_in { amount < 64 }
    ensures value { result ≡ right_signed_of (bits w) value amount }
    ensures fits { result.value < 2 ^ bits w }
    ensures code { result.condition < 4 }
{
    let shifted = number(w, value) >> amount;
    settled(w, low(w, doubleword(shifted)), false)
}

// The bits that leave on the left come in on the right.
#[tactic(auto, using(crate::proofs::ShiftLemmas::rotated_below), unfolding(crate::specs::Shifted::rotated))]
fn rotate(w: Width, value: u64, amount: u32) -> u64
    requires value_in { value < 2 ^ bits w }
    ensures value { result ≡ rotated (bits w) value (amount % bits w) }
    ensures fits { result < 2 ^ bits w }
{
    let all = u128::from(sign_bit(w)) * 2;
    let moved = moved(value, amount % size(w));
    (moved % all + moved / all) as u64
}
