//! The bytes of instructions: which instruction they read as, and which bytes an instruction has.
#![tactic(auto)]

mod encoding;
mod finding;
mod read;
mod reading;
mod spell;

pub use encoding::{Code, encode};
pub use reading::{NoReading, decode, length_of};
