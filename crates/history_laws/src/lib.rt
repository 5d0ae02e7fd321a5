//! What the text of a history tells.
#![tactic(auto)]

pub mod laws;
