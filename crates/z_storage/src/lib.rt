//! Instructions with operands in storage.
//!
//! Their effects are those of z/Architecture (Principles of Operation, SA22-7832, "General Instructions").
#![tactic(auto)]

mod access;
mod fetched;
mod lists;
mod registers;
mod run;
mod stored;

pub use run::{execute, execute_kind, is_mine};
