//! Runs of a machine by a planned schedule: the one that the listing gives, turns that are drawn, or turns in
//! the round.
#![tactic(auto)]

mod choosing;
mod runnable;
mod running;

pub use runnable::Runnable;
pub use running::{run_drawn, run_given, run_planned, run_planned_on, run_round};
pub use tx_machine::{Home, Lend, Machine, NoMemory, Run, RunStep};
