//! Comparisons, tests of bits, and the search for the first one.
ghost use Rattle.std.specs.Prelude.{◌≡◌, ◌<◌, ◌^◌};
ghost use Rattle.std.specs.Int.{bit_at};
ghost use Rattle.z_arith.specs.Whole.{bits};
ghost use Rattle.z_arith.specs.Comparison.{order_code, compare_signed_of, compare_logical_of};
ghost use Rattle.z_arith.specs.Comparison.{test_under_mask_of, test_halfword_of, leftmost_one_of};
ghost use Rattle.z_arith.specs.Comparison.{HasFirstOne};

use crate::Width;
use crate::numbers::number;
use std::cmp::Ordering;

// The code of a comparison.
fn code_of(order: Ordering) -> u8
    ensures value { result ≡ order_code order }
    ensures code { result < 4 }
{
    match order {
        Ordering::Equal => 0,
        Ordering::Less => 1,
        Ordering::Greater => 2,
    }
}

/// Compares two numbers with a sign. Words: CR, C, CH, CHI, CFI, CHSI, CRJ. Doublewords: CGR, CG, CGHI,
/// CGFI, CGHSI, CGRJ, CGIJ. The code is 0 where they are equal, 1 where the first is low, and 2 where the
/// first is high.
#[tactic(auto, unfolding(crate::specs::Comparison::compare_signed_of))]
pub fn compare_signed(w: Width, a: u64, b: u64) -> u8
    requires a_in { a < 2 ^ bits w }
    requires b_in { b < 2 ^ bits w }
    ensures value { result ≡ compare_signed_of w a b }
    ensures code { result < 4 }
{
    code_of(number(w, a).cmp(&number(w, b)))
}

/// Compares two numbers without a sign, with the codes of [`compare_signed`]. Words: CLR, CL, and the
/// bytes of CLI and CLC. Doublewords: CLGR, CLG, CLGFI, CLGRJ.
#[tactic(auto, unfolding(crate::specs::Comparison::compare_logical_of))]
pub fn compare_logical(w: Width, a: u64, b: u64) -> u8
    requires a_in { a < 2 ^ bits w }
    requires b_in { b < 2 ^ bits w }
    ensures value { result ≡ compare_logical_of a b }
    ensures code { result < 4 }
{
    code_of(a.cmp(&b))
}

/// Tests the bits of a byte in the places where the mask has a one: TM. The code is 0 where all of them are
/// zeros or the mask is zero, 3 where all are ones, and else 1.
#[tactic(auto, using(crate::proofs::BitLemmas::test_by_and), unfolding(crate::specs::Comparison::test_under_mask_of))]
pub fn test_under_mask(byte: u8, mask: u8) -> u8
    ensures value { result ≡ test_under_mask_of byte mask }
    ensures code { result < 4 }
{
    let ones = byte & mask;
    if ones == 0 {
        0
    } else if ones == mask {
        3
    } else {
        1
    }
}

/// Tests the bits of a halfword in the places where the mask has a one: TMLL. The code is 0 where all of
/// them are zeros or the mask is zero, and 3 where all are ones. With both kinds it is 1 where the leftmost
/// of them is a zero, and 2 where it is a one.
#[tactic(auto, using(crate::proofs::BitLemmas::test_by_and, crate::proofs::BitLemmas::leftmost_is), unfolding(crate::specs::Comparison::test_halfword_of))]
pub fn test_halfword(value: u16, mask: u16) -> u8
    ensures value { result ≡ test_halfword_of value mask }
    ensures code { result < 4 }
{
    let ones = value & mask;
    if ones == 0 {
        0
    } else if ones == mask {
        3
    } else {
        1 + bit(value, mask.ilog2())
    }
}

// The bit in a place, counted from the right.
fn bit(value: u16, place: u32) -> u8
    requires { place < 16 }
    ensures value { result ≡ bit_at value place }
    ensures below { result < 2 }
{
    ((value >> place) % 2) as u8
}

/// How many zeros stand left of the first one, the value without that one, and the condition code, in this
/// order: FLOGR. The code is 2 where there is a one; else it is 0, and the number is 64.
#[tactic(auto, using(crate::proofs::BitLemmas::zeros_left_is), unfolding(crate::specs::Comparison::leftmost_one_of, crate::specs::Comparison::HasFirstOne))]
pub fn leftmost_one(value: u64) -> (u64, u64, u8)
    ensures value { result ≡ leftmost_one_of value }
    ensures code { result.2 < 4 }
    ensures first { 0 < value → HasFirstOne value result.0 result.1 }
{
    if value == 0 {
        return (64, 0, 0);
    }
    let place = value.ilog2();
    (u64::from(63 - place), value - power(place), 2)
}

// The worth of a bit, by its place from the right.
fn power(place: u32) -> u64
    requires { place < 64 }
    ensures { result ≡ 2 ^ place }
{
    1 << place
}
