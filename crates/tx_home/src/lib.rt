//! Runs that are lent by a machine and come home to it: what a run has to agree in with the machine, and how its turns are
//! taken.
#![tactic(auto)]

pub mod comparing;
pub mod homing;
pub mod lending;
pub mod place;
pub mod storage;
pub mod taking;

pub use homing::home;
pub use lending::{Refusal, allowance, lend, why_kept};
pub use place::{Place, Unlike};
pub use tx_works::{Cpu, Lines, Program, Reason, Room, Run, RunStep, Slot, Tally, Works};
