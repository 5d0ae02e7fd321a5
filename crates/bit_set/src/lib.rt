//! Sets of small numbers, as words of 64 bits: membership and change in constant time, the next
//! member, comparison and copy by words.
#![tactic(auto)]

mod set;
mod word;

pub use set::BitSet;
