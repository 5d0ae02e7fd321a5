//! What one instruction does, and the steps that the instruction crates share.
//!
//! The effects are those of z/Architecture (Principles of Operation, SA22-7832, "General Instructions" and
//! "Transactional-Execution Facility").
#![tactic(auto)]

pub mod laws;
mod operations;
mod steps;
mod transactions;

pub use operations::{combine, compare, extend, immediate, logic, shift, zero_code};
pub use steps::{
    advance, after, conclude, exception, next_address, operand, put, put_pair, register, settle,
    target,
};
pub use transactions::{delay, interrupt, opened, transact};
