//! Corner cases of each call: 0, 1, -1 and the extremes of each width. What is expected was computed
//! outside, in whole numbers of any size.
ghost use Rattle.std.specs.Prelude.{◌<◌, ◌^◌, ◌↔◌, IsTrue};
ghost use Rattle.z_arith.specs.Whole.{bits};

use z_arith::Shift::*;
use z_arith::Width::*;
use z_arith::shifts::shift;
use z_arith::*;

// As a doubleword with a sign -1, the highest number and the lowest.
const ONES: u64 = 0xffff_ffff_ffff_ffff;

const HIGHEST: u64 = 0x7fff_ffff_ffff_ffff;

const LOWEST: u64 = 0x8000_0000_0000_0000;

// Whether a pattern is an operand of this width.
fn is_operand(w: Width, pattern: u64) -> bool
    ensures { IsTrue result ↔ (pattern < 2 ^ bits w) }
{
    match w {
        Word => pattern < 0x1_0000_0000,
        Double => true,
    }
}

// The answer of an operation that overflows exactly with code 3.
fn signed(value: u64, condition: u8) -> Answer {
    Answer {
        value,
        condition,
        overflow: condition == 3,
    }
}

// The answer of an operation that never overflows.
fn plain(value: u64, condition: u8) -> Answer {
    Answer {
        value,
        condition,
        overflow: false,
    }
}

// An addition that overflows, one that carries, a subtraction that borrows, -7 by 2, a bit lost that is
// unlike the sign, no first one and the last, and a leftmost selected bit of zero.
#[test]
fn known_answers(rt: HostRuntime) {
    assert!(rt; answers());
}

fn answers() -> bool {
    add(Word, 0x7fff_ffff, 1) == signed(0x8000_0000, 3)
        && add_logical(Double, ONES, 1, false) == plain(0, 2)
        && subtract_logical(Double, 0, 1, false) == plain(ONES, 1)
        && divide_word(0xffff_ffff_ffff_fff9, 2) == Ok((0xffff_ffff, 0xffff_fffd))
        && shift(LeftSigned, Word, 0x4000_0000, 1) == signed(0, 3)
        && leftmost_one(0) == (64, 0, 0)
        && leftmost_one(1) == (63, 0, 2)
        && test_halfword(0x4000, 0xc000) == 1
}

#[test]
fn corners_of_sums(rt: HostRuntime) {
    let right = [
        sums(),
        differences(),
        logical_sums(),
        logical_differences(),
        signs(),
    ];
    assert_eq!(rt; right, [true; 5]);
}

#[test]
fn corners_of_products(rt: HostRuntime) {
    let right = [
        low_products(),
        word_products(),
        logical_products(),
        word_quotients(),
        quotients(),
        logical_quotients(),
    ];
    assert_eq!(rt; right, [true; 6]);
}

#[test]
fn corners_of_bits(rt: HostRuntime) {
    let right = [
        orders(),
        shifted(),
        byte_tests(),
        halfword_tests(),
        first_ones(),
    ];
    assert_eq!(rt; right, [true; 5]);
}

// Operands, value and code.
static SUMS: [(Width, u64, u64, u64, u8); 24] = [
    (Word, 0, 0, 0, 0),
    (Word, 0, 1, 1, 2),
    (Word, 1, 0xffff_ffff, 0, 0),
    (Word, 0xffff_ffff, 0xffff_ffff, 0xffff_fffe, 1),
    (Word, 0x7fff_ffff, 1, 0x8000_0000, 3),
    (Word, 0x7fff_ffff, 0x7fff_ffff, 0xffff_fffe, 3),
    (Word, 0x8000_0000, 0xffff_ffff, 0x7fff_ffff, 3),
    (Word, 0x8000_0000, 0x8000_0000, 0, 3),
    (Word, 0x8000_0000, 1, 0x8000_0001, 1),
    (Word, 0, 0x8000_0000, 0x8000_0000, 1),
    (Word, 0x7fff_ffff, 0x8000_0000, 0xffff_ffff, 1),
    (Word, 0xffff_ffff, 0x7fff_ffff, 0x7fff_fffe, 2),
    (Double, 0, 0, 0, 0),
    (Double, 0, 1, 1, 2),
    (Double, 1, ONES, 0, 0),
    (Double, ONES, ONES, 0xffff_ffff_ffff_fffe, 1),
    (Double, HIGHEST, 1, LOWEST, 3),
    (Double, HIGHEST, HIGHEST, 0xffff_ffff_ffff_fffe, 3),
    (Double, LOWEST, ONES, HIGHEST, 3),
    (Double, LOWEST, LOWEST, 0, 3),
    (Double, LOWEST, 1, 0x8000_0000_0000_0001, 1),
    (Double, 0, LOWEST, LOWEST, 1),
    (Double, HIGHEST, LOWEST, ONES, 1),
    (Double, ONES, HIGHEST, 0x7fff_ffff_ffff_fffe, 2),
];

fn sums() -> bool {
    SUMS.iter().all(|&(w, a, b, value, code)| {
        is_operand(w, a) && is_operand(w, b) && add(w, a, b) == signed(value, code)
    })
}

// Operands, value and code.
static DIFFERENCES: [(Width, u64, u64, u64, u8); 24] = [
    (Word, 0, 0, 0, 0),
    (Word, 0, 1, 0xffff_ffff, 1),
    (Word, 1, 0xffff_ffff, 2, 2),
    (Word, 0xffff_ffff, 0xffff_ffff, 0, 0),
    (Word, 0x7fff_ffff, 1, 0x7fff_fffe, 2),
    (Word, 0x7fff_ffff, 0x7fff_ffff, 0, 0),
    (Word, 0x8000_0000, 0xffff_ffff, 0x8000_0001, 1),
    (Word, 0x8000_0000, 0x8000_0000, 0, 0),
    (Word, 0x8000_0000, 1, 0x7fff_ffff, 3),
    (Word, 0, 0x8000_0000, 0x8000_0000, 3),
    (Word, 0x7fff_ffff, 0x8000_0000, 0xffff_ffff, 3),
    (Word, 0xffff_ffff, 0x7fff_ffff, 0x8000_0000, 1),
    (Double, 0, 0, 0, 0),
    (Double, 0, 1, ONES, 1),
    (Double, 1, ONES, 2, 2),
    (Double, ONES, ONES, 0, 0),
    (Double, HIGHEST, 1, 0x7fff_ffff_ffff_fffe, 2),
    (Double, HIGHEST, HIGHEST, 0, 0),
    (Double, LOWEST, ONES, 0x8000_0000_0000_0001, 1),
    (Double, LOWEST, LOWEST, 0, 0),
    (Double, LOWEST, 1, HIGHEST, 3),
    (Double, 0, LOWEST, LOWEST, 3),
    (Double, HIGHEST, LOWEST, ONES, 3),
    (Double, ONES, HIGHEST, LOWEST, 1),
];

fn differences() -> bool {
    DIFFERENCES.iter().all(|&(w, a, b, value, code)| {
        is_operand(w, a) && is_operand(w, b) && subtract(w, a, b) == signed(value, code)
    })
}

// Operands, carry, value and code.
static LOGICAL_SUMS: [(Width, u64, u64, bool, u64, u8); 20] = [
    (Word, 0, 0, false, 0, 0),
    (Word, 0, 0, true, 1, 1),
    (Word, 0xffff_ffff, 1, false, 0, 2),
    (Word, 0xffff_ffff, 0xffff_ffff, true, 0xffff_ffff, 3),
    (Word, 0xffff_ffff, 0, true, 0, 2),
    (Word, 0x7fff_ffff, 0x8000_0000, false, 0xffff_ffff, 1),
    (Word, 0x7fff_ffff, 0x8000_0000, true, 0, 2),
    (Word, 0x8000_0000, 0x8000_0000, false, 0, 2),
    (Word, 1, 0x7fff_ffff, false, 0x8000_0000, 1),
    (Word, 0xffff_ffff, 0xffff_ffff, false, 0xffff_fffe, 3),
    (Double, 0, 0, false, 0, 0),
    (Double, 0, 0, true, 1, 1),
    (Double, ONES, 1, false, 0, 2),
    (Double, ONES, ONES, true, ONES, 3),
    (Double, ONES, 0, true, 0, 2),
    (Double, HIGHEST, LOWEST, false, ONES, 1),
    (Double, HIGHEST, LOWEST, true, 0, 2),
    (Double, LOWEST, LOWEST, false, 0, 2),
    (Double, 1, HIGHEST, false, LOWEST, 1),
    (Double, ONES, ONES, false, 0xffff_ffff_ffff_fffe, 3),
];

fn logical_sums() -> bool {
    LOGICAL_SUMS.iter().all(|&(w, a, b, carry, value, code)| {
        is_operand(w, a) && is_operand(w, b) && add_logical(w, a, b, carry) == plain(value, code)
    })
}

// Operands, borrow, value and code.
static LOGICAL_DIFFERENCES: [(Width, u64, u64, bool, u64, u8); 22] = [
    (Word, 0, 0, false, 0, 2),
    (Word, 0, 0, true, 0xffff_ffff, 1),
    (Word, 0, 1, false, 0xffff_ffff, 1),
    (Word, 0, 0xffff_ffff, true, 0, 0),
    (Word, 0xffff_ffff, 0xffff_ffff, true, 0xffff_ffff, 1),
    (Word, 0xffff_ffff, 0xffff_ffff, false, 0, 2),
    (Word, 0xffff_ffff, 0, true, 0xffff_fffe, 3),
    (Word, 0x8000_0000, 0x7fff_ffff, true, 0, 2),
    (Word, 0x7fff_ffff, 0x8000_0000, false, 0xffff_ffff, 1),
    (Word, 0, 0xffff_ffff, false, 1, 1),
    (Word, 0x8000_0000, 0x8000_0000, false, 0, 2),
    (Double, 0, 0, false, 0, 2),
    (Double, 0, 0, true, ONES, 1),
    (Double, 0, 1, false, ONES, 1),
    (Double, 0, ONES, true, 0, 0),
    (Double, ONES, ONES, true, ONES, 1),
    (Double, ONES, ONES, false, 0, 2),
    (Double, ONES, 0, true, 0xffff_ffff_ffff_fffe, 3),
    (Double, LOWEST, HIGHEST, true, 0, 2),
    (Double, HIGHEST, LOWEST, false, ONES, 1),
    (Double, 0, ONES, false, 1, 1),
    (Double, LOWEST, LOWEST, false, 0, 2),
];

fn logical_differences() -> bool {
    LOGICAL_DIFFERENCES.iter().all(|&(w, a, b, borrow, value, code)| {
        is_operand(w, a)
            && is_operand(w, b)
            && subtract_logical(w, a, b, borrow) == plain(value, code)
    })
}

// Operand, and value and code of its absolute value, of the negative of that, and of its negative.
static SIGNS: [(Width, u64, (u64, u8), (u64, u8), (u64, u8)); 10] = [
    (Word, 0, (0, 0), (0, 0), (0, 0)),
    (Word, 1, (1, 2), (0xffff_ffff, 1), (0xffff_ffff, 1)),
    (Word, 0xffff_ffff, (1, 2), (0xffff_ffff, 1), (1, 2)),
    (
        Word,
        0x7fff_ffff,
        (0x7fff_ffff, 2),
        (0x8000_0001, 1),
        (0x8000_0001, 1),
    ),
    (
        Word,
        0x8000_0000,
        (0x8000_0000, 3),
        (0x8000_0000, 1),
        (0x8000_0000, 3),
    ),
    (Double, 0, (0, 0), (0, 0), (0, 0)),
    (Double, 1, (1, 2), (ONES, 1), (ONES, 1)),
    (Double, ONES, (1, 2), (ONES, 1), (1, 2)),
    (
        Double,
        HIGHEST,
        (HIGHEST, 2),
        (0x8000_0000_0000_0001, 1),
        (0x8000_0000_0000_0001, 1),
    ),
    (Double, LOWEST, (LOWEST, 3), (LOWEST, 1), (LOWEST, 3)),
];

fn signs() -> bool {
    SIGNS.iter().all(|&(w, a, above, below, other)| {
        is_operand(w, a)
            && positive(w, a) == signed(above.0, above.1)
            && negative(w, a) == signed(below.0, below.1)
            && complement(w, a) == signed(other.0, other.1)
    })
}

// Operands, and the codes with a sign and without.
static ORDERS: [(Width, u64, u64, u8, u8); 24] = [
    (Word, 0, 0, 0, 0),
    (Word, 0, 1, 1, 1),
    (Word, 1, 0xffff_ffff, 2, 1),
    (Word, 0xffff_ffff, 0xffff_ffff, 0, 0),
    (Word, 0x7fff_ffff, 1, 2, 2),
    (Word, 0x7fff_ffff, 0x7fff_ffff, 0, 0),
    (Word, 0x8000_0000, 0xffff_ffff, 1, 1),
    (Word, 0x8000_0000, 0x8000_0000, 0, 0),
    (Word, 0x8000_0000, 1, 1, 2),
    (Word, 0, 0x8000_0000, 2, 1),
    (Word, 0x7fff_ffff, 0x8000_0000, 2, 1),
    (Word, 0xffff_ffff, 0x7fff_ffff, 1, 2),
    (Double, 0, 0, 0, 0),
    (Double, 0, 1, 1, 1),
    (Double, 1, ONES, 2, 1),
    (Double, ONES, ONES, 0, 0),
    (Double, HIGHEST, 1, 2, 2),
    (Double, HIGHEST, HIGHEST, 0, 0),
    (Double, LOWEST, ONES, 1, 1),
    (Double, LOWEST, LOWEST, 0, 0),
    (Double, LOWEST, 1, 1, 2),
    (Double, 0, LOWEST, 2, 1),
    (Double, HIGHEST, LOWEST, 2, 1),
    (Double, ONES, HIGHEST, 1, 2),
];

fn orders() -> bool {
    ORDERS.iter().all(|&(w, a, b, number, pattern)| {
        is_operand(w, a)
            && is_operand(w, b)
            && compare_signed(w, a, b) == number
            && compare_logical(w, a, b) == pattern
    })
}

// Operands and product.
static LOW_PRODUCTS: [(Width, u64, u64, u64); 24] = [
    (Word, 0, 0, 0),
    (Word, 0, 1, 0),
    (Word, 1, 0xffff_ffff, 0xffff_ffff),
    (Word, 0xffff_ffff, 0xffff_ffff, 1),
    (Word, 0x7fff_ffff, 1, 0x7fff_ffff),
    (Word, 0x7fff_ffff, 0x7fff_ffff, 1),
    (Word, 0x8000_0000, 0xffff_ffff, 0x8000_0000),
    (Word, 0x8000_0000, 0x8000_0000, 0),
    (Word, 0x8000_0000, 1, 0x8000_0000),
    (Word, 0, 0x8000_0000, 0),
    (Word, 0x7fff_ffff, 0x8000_0000, 0x8000_0000),
    (Word, 0xffff_ffff, 0x7fff_ffff, 0x8000_0001),
    (Double, 0, 0, 0),
    (Double, 0, 1, 0),
    (Double, 1, ONES, ONES),
    (Double, ONES, ONES, 1),
    (Double, HIGHEST, 1, HIGHEST),
    (Double, HIGHEST, HIGHEST, 1),
    (Double, LOWEST, ONES, LOWEST),
    (Double, LOWEST, LOWEST, 0),
    (Double, LOWEST, 1, LOWEST),
    (Double, 0, LOWEST, 0),
    (Double, HIGHEST, LOWEST, LOWEST),
    (Double, ONES, HIGHEST, 0x8000_0000_0000_0001),
];

fn low_products() -> bool {
    LOW_PRODUCTS.iter().all(|&(w, a, b, product)| {
        is_operand(w, a) && is_operand(w, b) && multiply_low(w, a, b) == product
    })
}

// Operands and product.
static WORD_PRODUCTS: [(u32, u32, u64); 9] = [
    (0, 0xffff_ffff, 0),
    (1, 1, 1),
    (1, 0xffff_ffff, ONES),
    (0xffff_ffff, 0xffff_ffff, 1),
    (0x7fff_ffff, 0x7fff_ffff, 0x3fff_ffff_0000_0001),
    (0x7fff_ffff, 0x8000_0000, 0xc000_0000_8000_0000),
    (0x8000_0000, 0x8000_0000, 0x4000_0000_0000_0000),
    (0x8000_0000, 0xffff_ffff, 0x8000_0000),
    (0x8000_0000, 1, 0xffff_ffff_8000_0000),
];

fn word_products() -> bool {
    WORD_PRODUCTS
        .iter()
        .all(|&(a, b, product)| multiply_word(a, b) == product)
}

// Operands, and the left and right doubleword of the product.
static LOGICAL_PRODUCTS: [(u64, u64, u64, u64); 8] = [
    (0, ONES, 0, 0),
    (1, 1, 0, 1),
    (1, ONES, 0, ONES),
    (ONES, ONES, 0xffff_ffff_ffff_fffe, 1),
    (HIGHEST, HIGHEST, 0x3fff_ffff_ffff_ffff, 1),
    (HIGHEST, LOWEST, 0x3fff_ffff_ffff_ffff, LOWEST),
    (LOWEST, LOWEST, 0x4000_0000_0000_0000, 0),
    (LOWEST, ONES, HIGHEST, LOWEST),
];

fn logical_products() -> bool {
    LOGICAL_PRODUCTS
        .iter()
        .all(|&(a, b, high, low)| multiply_logical(a, b) == (high, low))
}

// Dividend and divisor, and remainder and quotient.
static WORD_QUOTIENTS: [(u64, u32, Result<(u32, u32), DivideFault>); 20] = [
    (0, 0, Err(DivideFault)),
    (0, 1, Ok((0, 0))),
    (1, 0, Err(DivideFault)),
    (1, 0xffff_ffff, Ok((0, 0xffff_ffff))),
    (0xffff_ffff_ffff_fff9, 2, Ok((0xffff_ffff, 0xffff_fffd))),
    (7, 0xffff_fffe, Ok((1, 0xffff_fffd))),
    (0xffff_ffff_ffff_fff9, 0xffff_fffe, Ok((0xffff_ffff, 3))),
    (0x7fff_ffff, 1, Ok((0, 0x7fff_ffff))),
    (0x8000_0000, 1, Err(DivideFault)),
    (0xffff_ffff_8000_0000, 1, Ok((0, 0x8000_0000))),
    (0xffff_ffff_7fff_ffff, 1, Err(DivideFault)),
    (0xffff_ffff_8000_0000, 0xffff_ffff, Err(DivideFault)),
    (0x7fff_ffff, 0xffff_ffff, Ok((0, 0x8000_0001))),
    (HIGHEST, 0x7fff_ffff, Err(DivideFault)),
    (LOWEST, 0x8000_0000, Err(DivideFault)),
    (0x3fff_ffff_ffff_ffff, 0x7fff_ffff, Err(DivideFault)),
    (LOWEST, 1, Err(DivideFault)),
    (HIGHEST, 0x8000_0000, Err(DivideFault)),
    (
        0x3fff_ffff_ffff_ffff,
        0x8000_0000,
        Ok((0x7fff_ffff, 0x8000_0001)),
    ),
    (
        0xc000_0000_7fff_ffff,
        0x7fff_ffff,
        Ok((0xffff_ffff, 0x8000_0000)),
    ),
];

fn word_quotients() -> bool {
    WORD_QUOTIENTS.iter().all(|&(dividend, divisor, expected)| divide_word(dividend, divisor)
        == expected)
}

// Dividend and divisor, and remainder and quotient.
static QUOTIENTS: [(u64, u64, Result<(u64, u64), DivideFault>); 16] = [
    (0, 0, Err(DivideFault)),
    (0, 1, Ok((0, 0))),
    (1, 0, Err(DivideFault)),
    (1, ONES, Ok((0, ONES))),
    (0xffff_ffff_ffff_fff9, 2, Ok((ONES, 0xffff_ffff_ffff_fffd))),
    (7, 0xffff_ffff_ffff_fffe, Ok((1, 0xffff_ffff_ffff_fffd))),
    (0xffff_ffff_ffff_fff9, 0xffff_ffff_ffff_fffe, Ok((ONES, 3))),
    (HIGHEST, 1, Ok((0, HIGHEST))),
    (HIGHEST, ONES, Ok((0, 0x8000_0000_0000_0001))),
    (LOWEST, 1, Ok((0, LOWEST))),
    (LOWEST, ONES, Err(DivideFault)),
    (LOWEST, HIGHEST, Ok((ONES, ONES))),
    (HIGHEST, LOWEST, Ok((HIGHEST, 0))),
    (LOWEST, LOWEST, Ok((0, 1))),
    (LOWEST, 0, Err(DivideFault)),
    (ONES, LOWEST, Ok((ONES, 0))),
];

fn quotients() -> bool {
    QUOTIENTS.iter().all(|&(dividend, divisor, expected)| divide_double(dividend, divisor)
        == expected)
}

// The two doublewords of the dividend and the divisor, and remainder and quotient.
static LOGICAL_QUOTIENTS: [(u64, u64, u64, Result<(u64, u64), DivideFault>); 16] = [
    (0, 0, 0, Err(DivideFault)),
    (0, 0, 1, Ok((0, 0))),
    (0, ONES, 1, Ok((0, ONES))),
    (1, 0, 1, Err(DivideFault)),
    (0, 7, 2, Ok((1, 3))),
    (1, 0, 2, Ok((0, LOWEST))),
    (1, ONES, 2, Ok((1, ONES))),
    (2, 0, 2, Err(DivideFault)),
    (
        0xffff_ffff_ffff_fffe,
        ONES,
        ONES,
        Ok((0xffff_ffff_ffff_fffe, ONES)),
    ),
    (ONES, 0, ONES, Err(DivideFault)),
    (ONES, ONES, ONES, Err(DivideFault)),
    (ONES, ONES, 0, Err(DivideFault)),
    (0, ONES, ONES, Ok((0, 1))),
    (HIGHEST, ONES, LOWEST, Ok((HIGHEST, ONES))),
    (LOWEST, 0, LOWEST, Err(DivideFault)),
    (0, 1, ONES, Ok((1, 0))),
];

fn logical_quotients() -> bool {
    LOGICAL_QUOTIENTS.iter().all(|&(high, low, divisor, expected)| divide_logical(
        high, low, divisor,
    ) == expected)
}

// Kind, operand, amount, value and code.
static SHIFTS: [(Shift, Width, u64, u32, u64, u8); 83] = [
    (LeftLogical, Word, 0xffff_ffff, 0, 0xffff_ffff, 0),
    (LeftLogical, Word, 0xffff_ffff, 1, 0xffff_fffe, 0),
    (LeftLogical, Word, 1, 31, 0x8000_0000, 0),
    (LeftLogical, Word, 0x8000_0000, 1, 0, 0),
    (LeftLogical, Word, 0x7fff_ffff, 16, 0xffff_0000, 0),
    (LeftLogical, Word, 0xffff_ffff, 32, 0, 0),
    (LeftLogical, Word, 0xffff_ffff, 63, 0, 0),
    (RightLogical, Word, 0xffff_ffff, 0, 0xffff_ffff, 0),
    (RightLogical, Word, 0xffff_ffff, 1, 0x7fff_ffff, 0),
    (RightLogical, Word, 0x8000_0000, 31, 1, 0),
    (RightLogical, Word, 0x7fff_ffff, 1, 0x3fff_ffff, 0),
    (RightLogical, Word, 1, 1, 0, 0),
    (RightLogical, Word, 0xffff_ffff, 32, 0, 0),
    (RightLogical, Word, 0xffff_ffff, 63, 0, 0),
    (LeftSigned, Word, 0, 0, 0, 0),
    (LeftSigned, Word, 0, 63, 0, 0),
    (LeftSigned, Word, 1, 30, 0x4000_0000, 2),
    (LeftSigned, Word, 1, 31, 0, 3),
    (LeftSigned, Word, 0x4000_0000, 1, 0, 3),
    (LeftSigned, Word, 0xc000_0000, 1, 0x8000_0000, 1),
    (LeftSigned, Word, 0xc000_0000, 2, 0x8000_0000, 3),
    (LeftSigned, Word, 0xffff_ffff, 31, 0x8000_0000, 1),
    (LeftSigned, Word, 0x8000_0000, 0, 0x8000_0000, 1),
    (LeftSigned, Word, 0x8000_0000, 1, 0x8000_0000, 3),
    (LeftSigned, Word, 0x7fff_ffff, 1, 0x7fff_fffe, 3),
    (LeftSigned, Word, 0xffff_ffff, 1, 0xffff_fffe, 1),
    (LeftSigned, Word, 0xffff_ffff, 32, 0x8000_0000, 3),
    (LeftSigned, Word, 1, 63, 0, 3),
    (RightSigned, Word, 0, 1, 0, 0),
    (RightSigned, Word, 1, 1, 0, 0),
    (RightSigned, Word, 0x7fff_ffff, 1, 0x3fff_ffff, 2),
    (RightSigned, Word, 0x7fff_ffff, 30, 1, 2),
    (RightSigned, Word, 0x8000_0000, 1, 0xc000_0000, 1),
    (RightSigned, Word, 0x8000_0000, 31, 0xffff_ffff, 1),
    (RightSigned, Word, 0xffff_ffff, 1, 0xffff_ffff, 1),
    (RightSigned, Word, 0x8000_0000, 32, 0xffff_ffff, 1),
    (RightSigned, Word, 0x7fff_ffff, 63, 0, 0),
    (Rotate, Word, 0x8000_0000, 0, 0x8000_0000, 0),
    (Rotate, Word, 0x8000_0000, 1, 1, 0),
    (Rotate, Word, 1, 31, 0x8000_0000, 0),
    (Rotate, Word, 0x7fff_ffff, 16, 0xffff_7fff, 0),
    (Rotate, Word, 0x1234_5678, 8, 0x3456_7812, 0),
    (Rotate, Word, 1, 63, 0x8000_0000, 0),
    (Rotate, Word, 1, 32, 1, 0),
    (Rotate, Word, 0x8000_0000, 33, 1, 0),
    (LeftLogical, Double, ONES, 0, ONES, 0),
    (LeftLogical, Double, ONES, 1, 0xffff_ffff_ffff_fffe, 0),
    (LeftLogical, Double, 1, 63, LOWEST, 0),
    (LeftLogical, Double, LOWEST, 1, 0, 0),
    (LeftLogical, Double, HIGHEST, 32, 0xffff_ffff_0000_0000, 0),
    (LeftLogical, Double, ONES, 63, LOWEST, 0),
    (RightLogical, Double, ONES, 0, ONES, 0),
    (RightLogical, Double, ONES, 1, HIGHEST, 0),
    (RightLogical, Double, LOWEST, 63, 1, 0),
    (RightLogical, Double, HIGHEST, 1, 0x3fff_ffff_ffff_ffff, 0),
    (RightLogical, Double, 1, 1, 0, 0),
    (RightLogical, Double, ONES, 63, 1, 0),
    (LeftSigned, Double, 0, 0, 0, 0),
    (LeftSigned, Double, 0, 63, 0, 0),
    (LeftSigned, Double, 1, 62, 0x4000_0000_0000_0000, 2),
    (LeftSigned, Double, 1, 63, 0, 3),
    (LeftSigned, Double, 0x4000_0000_0000_0000, 1, 0, 3),
    (LeftSigned, Double, 0xc000_0000_0000_0000, 1, LOWEST, 1),
    (LeftSigned, Double, 0xc000_0000_0000_0000, 2, LOWEST, 3),
    (LeftSigned, Double, ONES, 63, LOWEST, 1),
    (LeftSigned, Double, LOWEST, 0, LOWEST, 1),
    (LeftSigned, Double, LOWEST, 1, LOWEST, 3),
    (LeftSigned, Double, HIGHEST, 1, 0x7fff_ffff_ffff_fffe, 3),
    (LeftSigned, Double, ONES, 1, 0xffff_ffff_ffff_fffe, 1),
    (RightSigned, Double, 0, 1, 0, 0),
    (RightSigned, Double, 1, 1, 0, 0),
    (RightSigned, Double, HIGHEST, 1, 0x3fff_ffff_ffff_ffff, 2),
    (RightSigned, Double, HIGHEST, 62, 1, 2),
    (RightSigned, Double, LOWEST, 1, 0xc000_0000_0000_0000, 1),
    (RightSigned, Double, LOWEST, 63, ONES, 1),
    (RightSigned, Double, ONES, 1, ONES, 1),
    (RightSigned, Double, LOWEST, 63, ONES, 1),
    (Rotate, Double, LOWEST, 0, LOWEST, 0),
    (Rotate, Double, LOWEST, 1, 1, 0),
    (Rotate, Double, 1, 63, LOWEST, 0),
    (Rotate, Double, HIGHEST, 32, 0xffff_ffff_7fff_ffff, 0),
    (
        Rotate,
        Double,
        0x1234_5678_9abc_def0,
        8,
        0x3456_789a_bcde_f012,
        0,
    ),
    (Rotate, Double, 1, 63, LOWEST, 0),
];

fn shifted() -> bool {
    SHIFTS.iter().all(|&(kind, w, value, amount, moved, code)| {
        is_operand(w, value) && amount < 64 && shift(kind, w, value, amount) == signed(moved, code)
    })
}

// Byte, mask and code.
static BYTE_TESTS: [(u8, u8, u8); 11] = [
    (0, 0, 0),
    (0xff, 0, 0),
    (0, 0xff, 0),
    (0xff, 0xff, 3),
    (0x7f, 0x80, 0),
    (0x80, 0x80, 3),
    (0x80, 0xff, 1),
    (0x7f, 0xff, 1),
    (1, 0x81, 1),
    (1, 1, 3),
    (0xfe, 1, 0),
];

fn byte_tests() -> bool {
    BYTE_TESTS
        .iter()
        .all(|&(byte, mask, code)| test_under_mask(byte, mask) == code)
}

// Halfword, mask and code.
static HALFWORD_TESTS: [(u16, u16, u8); 16] = [
    (0, 0, 0),
    (0xffff, 0, 0),
    (0, 0xffff, 0),
    (0xffff, 0xffff, 3),
    (0x8000, 0xffff, 2),
    (0x7fff, 0xffff, 1),
    (0x4000, 0xc000, 1),
    (0x8000, 0xc000, 2),
    (1, 3, 1),
    (2, 3, 2),
    (0xfffd, 3, 1),
    (0x8001, 0x101, 1),
    (0x100, 0x101, 2),
    (1, 1, 3),
    (0x8000, 0x8000, 3),
    (0x7fff, 0x8000, 0),
];

fn halfword_tests() -> bool {
    HALFWORD_TESTS
        .iter()
        .all(|&(value, mask, code)| test_halfword(value, mask) == code)
}

// Operand, and what is found.
static FIRST_ONES: [(u64, (u64, u64, u8)); 9] = [
    (0, (64, 0, 0)),
    (1, (63, 0, 2)),
    (2, (62, 0, 2)),
    (3, (62, 1, 2)),
    (HIGHEST, (1, 0x3fff_ffff_ffff_ffff, 2)),
    (LOWEST, (0, 0, 2)),
    (ONES, (0, HIGHEST, 2)),
    (0x1_0000_0000, (31, 0, 2)),
    (0x1234_0000_0000, (19, 0x234_0000_0000, 2)),
];

fn first_ones() -> bool {
    FIRST_ONES
        .iter()
        .all(|&(value, found)| leftmost_one(value) == found)
}

/// The low bits of all ones in both widths, -1 as a doubleword, and two words.
fn patterns() -> ([u64; 3], [u32; 2]) {
    let wide = [low(Word, ONES), low(Double, ONES), doubleword(-1)];
    (wide, [word(-1), word(0x1_0000_0007)])
}

/// The lowest number of a word, and the highest of a doubleword.
fn numbers() -> [i64; 2] {
    [number(Word, 0x8000_0000), number(Double, HIGHEST)]
}

#[test]
fn patterns_and_numbers(rt: HostRuntime) {
    let wanted = ([0xffff_ffff, ONES, ONES], [0xffff_ffff, 7]);
    assert_eq!(rt; (patterns(), numbers()), (wanted, [-0x8000_0000, i64::MAX]));
}
