//! Runs: turns of a CPU that are made away from its machine, on storage of their own.
#![tactic(auto)]

mod giving;
mod reason;
mod run;
mod steps;

pub use reason::{Reason, RunStep};
pub use run::{Difference, Room, Run};
pub use tx_cpu::{Cpu, Done, Pair, Plain, Plan, Program, Shape, Touch, add_operand, operands_at};
pub use tx_marks::lent_turns_are_turns;
