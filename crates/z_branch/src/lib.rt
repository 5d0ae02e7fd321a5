//! Instructions that say where to go on: branches on the condition code, on a count and on a comparison,
//! branches that save the next address, and the supervisor call (z/Architecture, Principles of Operation,
//! SA22-7832, "General Instructions").
#![tactic(auto)]

mod families;
mod run;

pub use run::{execute, execute_kind, is_mine};
