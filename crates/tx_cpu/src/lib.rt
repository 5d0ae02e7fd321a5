//! One CPU: its registers, its attempt, the block that is pending for it and the interruption that it has still
//! to take. Each call is one equation with the definitions of tx_progress.
#![tactic(auto)]

mod executing;
mod interruption;
pub mod laws;
mod one;
mod outside;
mod paired;
mod pending;
mod plain;
mod plan;

pub use one::Cpu;
pub use paired::Pair;
pub use plain::{Plain, add_operand, operands_at};
pub use plan::Plan;
pub use tx_program::{Program, Ready, Shape, Touch};
pub use tx_progress::done::Done;
