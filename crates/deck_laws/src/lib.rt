//! The assembler reads the listings of decks.
#![tactic(auto)]

pub mod laws;
