//! The operands that an instruction has in storage, and the exceptions that come before it is executed.
#![tactic(auto)]

mod access;
mod demands;
mod fetch;
pub mod laws;
mod operands;
mod pages;

pub use access::{accessible, ranges, touches};
pub use demands::specified;
pub use fetch::fetchable;
