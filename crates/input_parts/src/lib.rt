//! Inputs that have a listing, and behind it, from a line that is a mark on, something else.
#![tactic(auto)]

mod cutting;
pub mod laws;
mod parting;

pub use cutting::cut;
pub use parting::{Parts, part};
