//! The machine that keeps storage, each CPU's part of it, its attempt and its standing beside the state, and the
//! proof that it says what the meaning of the events says. The definitions are in `specs/`.
#![tactic(auto)]

pub mod laws;
