//! Sums and differences, with a sign and without.
ghost use Rattle.std.specs.Prelude.{◌≡◌, ◌<◌, ◌^◌, nat_eq};
ghost use Rattle.z_arith.specs.Whole.{bits};
ghost use Rattle.z_arith.specs.Sum.{add_of, subtract_of, add_logical_of, carry_code, subtract_logical_of};
ghost use Rattle.z_arith.specs.Sum.{positive_of, negative_of, complement_of};

use crate::numbers::{has_sign, low, settled, sign_bit};
use crate::{Answer, Width};

/// The sum of two numbers with a sign. Words: AR, ARK, A, AH, AHI, AFI, ASI, LAA. Doublewords: AGR, AGRK,
/// AG, AGF, AGFR, AGHI, AGFI, AGSI, LAAG. The code is 0 where the sum is zero, 1 where it is below zero,
/// 2 where it is above, and 3 with overflow, where it does not fit the width.
#[tactic(auto, unfolding(crate::specs::Sum::add_of))]
pub fn add(w: Width, a: u64, b: u64) -> Answer
    requires a_in { a < 2 ^ bits w }
    requires b_in { b < 2 ^ bits w }
    ensures value { result ≡ add_of w a b }
    ensures fits { result.value < 2 ^ bits w }
    ensures code { result.condition < 4 }
{
    let value = low(w, a.wrapping_add(b));
    let signs_agree = has_sign(w, a) == has_sign(w, b);
    let overflow = signs_agree && has_sign(w, value) != has_sign(w, a);
    settled(w, value, overflow)
}

/// The first operand less the second, both with a sign. Words: SR, SRK, S, SH. Doublewords: SGR, SGRK,
/// SG, SGFR. The code is that of [`add`], of the exact difference.
#[tactic(auto, unfolding(crate::specs::Sum::subtract_of))]
pub fn subtract(w: Width, a: u64, b: u64) -> Answer
    requires a_in { a < 2 ^ bits w }
    requires b_in { b < 2 ^ bits w }
    ensures value { result ≡ subtract_of w a b }
    ensures fits { result.value < 2 ^ bits w }
    ensures code { result.condition < 4 }
{
    let value = low(w, a.wrapping_sub(b));
    let signs_differ = has_sign(w, a) != has_sign(w, b);
    let overflow = signs_differ && has_sign(w, value) != has_sign(w, a);
    settled(w, value, overflow)
}

// The code after an addition without sign.
fn logical_code(carries: bool, value: u64) -> u8
    ensures { result ≡ carry_code carries (nat_eq value 0) }
{
    u8::from(carries) * 2 + u8::from(value != 0)
}

/// The sum of two numbers without a sign, and 1 more where `carry` is set. Words: ALR, AL. Doublewords:
/// ALGR, ALG, and with a carry ALCGR. The code is 0 or 1 where the sum fits the width and 2 or 3 where
/// it carries; 0 and 2 go with a value of zero, 1 and 3 with any other. There is no overflow.
#[tactic(auto, unfolding(crate::specs::Sum::add_logical_of))]
pub fn add_logical(w: Width, a: u64, b: u64, carry: bool) -> Answer
    requires a_in { a < 2 ^ bits w }
    requires b_in { b < 2 ^ bits w }
    ensures value { result ≡ add_logical_of w a b carry }
    ensures fits { result.value < 2 ^ bits w }
    ensures code { result.condition < 4 }
{
    let (value, carries) = match w {
        Width::Word => {
            let sum = a + b + u64::from(carry);
            (low(w, sum), sum >= 0x1_0000_0000)
        }
        Width::Double => a.carrying_add(b, carry),
    };
    Answer {
        value,
        condition: logical_code(carries, value),
        overflow: false,
    }
}

/// The first operand less the second, both without a sign, and 1 less where `borrow` is set. Words: SLR,
/// SL. Doublewords: SLGR, SLG, and with a borrow SLBGR. The code is 0 or 1 where the exact difference is
/// below zero, which borrows, and 2 or 3 where it is not; 0 and 2 go with a value of zero, 1 and 3 with
/// any other. Code 0 comes with a borrow in alone. There is no overflow.
#[tactic(auto, unfolding(crate::specs::Sum::subtract_logical_of))]
pub fn subtract_logical(w: Width, a: u64, b: u64, borrow: bool) -> Answer
    requires a_in { a < 2 ^ bits w }
    requires b_in { b < 2 ^ bits w }
    ensures value { result ≡ subtract_logical_of w a b borrow }
    ensures fits { result.value < 2 ^ bits w }
    ensures code { result.condition < 4 }
{
    let (difference, borrows) = a.borrowing_sub(b, borrow);
    let value = low(w, difference);
    Answer {
        value,
        condition: logical_code(!borrows, value),
        overflow: false,
    }
}

/// The negative of a number with a sign. Words: LCR. Doublewords: LCGR. The code is that of [`add`]; only
/// the lowest number of the width overflows.
#[tactic(auto, unfolding(crate::specs::Sum::complement_of))]
pub fn complement(w: Width, a: u64) -> Answer
    requires { a < 2 ^ bits w }
    ensures value { result ≡ complement_of w a }
    ensures fits { result.value < 2 ^ bits w }
    ensures code { result.condition < 4 }
{
    settled(w, low(w, 0u64.wrapping_sub(a)), a == sign_bit(w))
}

/// The absolute value of a number with a sign. Words: LPR. Doublewords: LPGR. The code is 0 for zero, 2
/// above zero, and 3 with overflow for the lowest number of the width.
#[tactic(auto, unfolding(crate::specs::Sum::positive_of, crate::specs::Sum::complement_of))]
pub fn positive(w: Width, a: u64) -> Answer
    requires { a < 2 ^ bits w }
    ensures value { result ≡ positive_of w a }
    ensures fits { result.value < 2 ^ bits w }
    ensures code { result.condition < 4 }
{
    if has_sign(w, a) {
        complement(w, a)
    } else {
        settled(w, a, false)
    }
}

/// The negative of the absolute value of a number with a sign. Words: LNR. Doublewords: LNGR. The code is
/// 0 for zero and 1 below it. There is no overflow.
#[tactic(auto, unfolding(crate::specs::Sum::negative_of, crate::specs::Sum::complement_of))]
pub fn negative(w: Width, a: u64) -> Answer
    requires { a < 2 ^ bits w }
    ensures value { result ≡ negative_of w a }
    ensures fits { result.value < 2 ^ bits w }
    ensures code { result.condition < 4 }
{
    if has_sign(w, a) {
        settled(w, a, false)
    } else {
        complement(w, a)
    }
}
