//! A run of a machine that can be looked at behind each of its recorded events, forward and back.
#![tactic(auto)]

pub mod laws;
pub mod shown;
pub mod trace;

pub use trace::{NoMemory, Trace};
pub use tx_machine::Machine;
