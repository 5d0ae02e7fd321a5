//! Laws that join the assembler with the listings that this repository writes itself.
#![tactic(auto)]

pub mod laws;
