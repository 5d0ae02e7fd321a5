//! Products, with a sign and without.
ghost use Rattle.std.specs.Prelude.{◌≡◌, ◌<◌, ◌^◌};
ghost use Rattle.z_arith.specs.Whole.{bits};
ghost use Rattle.z_arith.specs.Product.{multiply_low_of, multiply_word_of, multiply_logical_of};

use crate::Width;
use crate::numbers::{doubleword, low};

/// As many rightmost bits of the product as the width has; they are the same with a sign and without.
/// Words: MSR, MS, MHI. Doublewords: MSGR, MSG, MGHI. The condition code is unchanged.
#[tactic(auto, unfolding(crate::specs::Product::multiply_low_of))]
pub fn multiply_low(w: Width, a: u64, b: u64) -> u64
    requires a_in { a < 2 ^ bits w }
    requires b_in { b < 2 ^ bits w }
    ensures value { result ≡ multiply_low_of w a b }
    ensures fits { result < 2 ^ bits w }
{
    low(w, a.wrapping_mul(b))
}

/// The product of two words with a sign, as a doubleword: MR. It always fits, and the condition code is
/// unchanged.
#[tactic(auto, unfolding(crate::specs::Product::multiply_word_of))]
pub fn multiply_word(a: u32, b: u32) -> u64
    ensures { result ≡ multiply_word_of a b }
{
    doubleword(i64::from(a.cast_signed()) * i64::from(b.cast_signed()))
}

/// The product of two doublewords without a sign, 128 bits as their left and their right doubleword:
/// MLGR. The condition code is unchanged.
#[tactic(auto, unfolding(crate::specs::Product::multiply_logical_of))]
pub fn multiply_logical(a: u64, b: u64) -> (u64, u64)
    ensures { result ≡ multiply_logical_of a b }
{
    let (low, high) = a.carrying_mul(b, 0);
    (high, low)
}
