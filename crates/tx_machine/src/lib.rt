//! The machine: up to sixteen CPUs that share one storage. What happens to it is one event after the other: a
//! turn of a CPU, or an interruption of it from outside.
#![tactic(auto)]

pub mod homing;
pub mod lending;
pub mod machine;
pub mod opening;
mod runs;

pub use lending::{Home, Lend};
pub use machine::Machine;
pub use tx_home::{Place, Reason, Refusal, Run, RunStep, Tally};
pub use tx_meaning::Counts;
pub use z_regs::NoMemory;
