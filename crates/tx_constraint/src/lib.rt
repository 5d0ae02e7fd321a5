//! The constraints of constrained transactions: how many instructions, where they stand and which they may
//! be, and where their operands lie. The constraints are those of the constrained-transactional-execution
//! facility (z/Architecture Principles of Operation, SA22-7832); which operations are permitted is this
//! machine's choice.
#![tactic(auto)]

mod constraint;
mod laws;
mod octowords;
mod operations;
mod pieces;

pub use constraint::Constraint;
pub use laws::{
    octowords_are_counted_once, pages_are_those_of_the_bytes, the_list_decides,
    units_hold_all_bytes,
};
