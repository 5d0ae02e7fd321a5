//! The report of a machine, and its short summary: what it shows, as text.
#![tactic(auto)]

mod bytes;
mod counters;
mod ends;
mod processors;
mod whole;

pub use tx_machine::{Home, Lend, Machine, Place, Reason, Refusal, Run, RunStep};
pub use whole::{report, status, summary};
pub use z_regs::NoMemory;
