//! The report of every machine is sound, and accepted.
#![tactic(auto)]

mod facts;
pub mod laws;
