//! Programs: images whose assembled instructions have been read, with what is known of each instruction.
#![tactic(auto)]

mod program;
mod ready;

pub use program::{Program, read};
pub use ready::{Ready, Shape, Touch};
