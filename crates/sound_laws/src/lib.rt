//! What every machine writes down is sound, and so told by its text.
#![tactic(auto)]

pub mod laws;
