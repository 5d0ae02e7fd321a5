//! All that a machine keeps, and what happens to it in a turn or by an interruption from outside.
#![tactic(auto)]

pub mod acting;
pub mod asking;
pub mod ending;
pub mod events;
pub mod executing;
pub mod getting;
pub mod idle;
pub mod places;
pub mod plain;
pub mod slot;
pub mod turning;
pub mod works;

pub use events::is_tick;
pub use slot::{Slot, Tally};
pub use tx_lines::{Cpu, Lines, Program, Reason, Room, Run, RunStep, lent_turns_are_turns};
pub use works::Works;
