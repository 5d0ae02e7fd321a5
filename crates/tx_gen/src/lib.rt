//! The generator: a listing for each number, in which CPUs count up counters in transactions.
#![tactic(auto)]

mod draws;
mod programs;

pub use programs::{counters, generate};
pub use z_regs::NoMemory;
