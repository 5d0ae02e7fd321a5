//! Instructions without an operand in storage that do not branch: what each does to a CPU.
//!
//! The effects are those of z/Architecture (Principles of Operation, SA22-7832, "General Instructions").
#![tactic(auto)]

mod controls;
mod halfwords;
mod operands;
mod pairs;
mod results;
mod run;

pub use run::{execute, execute_kind, is_mine};
