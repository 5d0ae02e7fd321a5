//! The fixed-point arithmetic of z/Architecture (Principles of Operation, SA22-7832, "General
//! Instructions"), in whole numbers: what the general and the storage instructions compute of their
//! operands, apart from registers, storage and program mask.
//
// Operands and results are bit patterns. A word is a number below 2^32, in a `u64`; a doubleword is any
// `u64`. Where a call reads a pattern with a sign, one whose leftmost bit is one stands for the number
// that is 2^32 or 2^64 less. Each result is the exact whole number, brought into range once at the end.
#![tactic(auto)]

mod comparisons;
mod numbers;
mod products;
mod quotients;
pub mod shifts;
mod sums;

pub use comparisons::{
    compare_logical, compare_signed, leftmost_one, test_halfword, test_under_mask,
};
pub use numbers::{doubleword, low, number, word};
pub use products::{multiply_logical, multiply_low, multiply_word};
pub use quotients::{divide_double, divide_logical, divide_word};
pub use sums::{add, add_logical, complement, negative, positive, subtract, subtract_logical};

/// How many bits the operands and the result of an operation have.
#[derive(Clone, Copy, PartialEq, Eq, Debug)]
pub enum Width {
    /// A word: 32 bits.
    Word,
    /// A doubleword: 64 bits.
    Double,
}

/// What an operation gives.
#[derive(Clone, Copy, PartialEq, Eq, Debug)]
pub struct Answer {
    /// The result as a bit pattern of the operation's width.
    pub value: u64,
    /// The condition code, from 0 to 3.
    pub condition: u8,
    /// Whether there is fixed-point overflow: the code is then 3, and the value is what is left of the
    /// exact result. It depends on the program mask whether an exception follows.
    pub overflow: bool,
}

/// The fixed-point divide exception: the divisor is 0, or the quotient does not fit its place.
#[derive(Clone, Copy, PartialEq, Eq, Debug)]
pub struct DivideFault;

/// What [`shifts::shift`] does with the bits.
#[derive(Clone, Copy, PartialEq, Eq, Debug)]
pub enum Shift {
    /// All bits go left, and zeros come in from the right.
    LeftLogical,
    /// All bits go right, and zeros come in from the left.
    RightLogical,
    /// All bits but the sign go left, and zeros come in from the right.
    LeftSigned,
    /// All bits but the sign go right, and copies of the sign come in from the left.
    RightSigned,
    /// All bits go left, and those that leave come in from the right.
    Rotate,
}
