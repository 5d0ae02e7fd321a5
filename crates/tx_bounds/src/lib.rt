//! What the retry ladder bounds in the machine over events. The definitions are those of the machine and of
//! what it keeps.
#![tactic(auto)]

pub mod laws;
