//! How far one CPU has come: all of its private run that later steps need, and what each thing that it does
//! makes of that and of storage. The definitions are in `specs/`; a machine keeps these parts of each CPU,
//! and never makes a run again.
#![tactic(auto)]

pub mod done;
pub mod laws;
