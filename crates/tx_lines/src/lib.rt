//! The lines of a machine: the bytes of storage and who holds which line, kept together, so that nothing else
//! touches a byte or a mode.
#![tactic(auto)]

pub mod laws;
pub mod lending;
pub mod lines;
mod windows;

pub use lines::Lines;
pub use tx_run::{
    Cpu, Done, Pair, Plain, Plan, Program, Reason, Room, Run, RunStep, Shape, Touch, add_operand,
    lent_turns_are_turns, operands_at,
};
pub use z_regs::NoMemory;
