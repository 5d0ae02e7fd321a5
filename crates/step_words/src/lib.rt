//! The commands of `step`, which look at the run of the listing before them.
#![tactic(auto)]

mod command;
mod fault;
pub mod laws;
mod reading;

pub use command::StepCommand;
pub use fault::{CommandFault, fault_line};
pub use reading::read_commands;
