//! What each line of a listing says stands in its image: laws of the definitions that the assembler meets.
#![tactic(auto)]

pub mod laws;
