//! The assembler takes the schedules that reports print.
#![tactic(auto)]

pub mod laws;
