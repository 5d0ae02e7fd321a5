//! Copies of lines of storage, as a cache close to one CPU keeps them. Contracts see a finite map from line
//! numbers to lists of 256 bytes.
#![tactic(auto)]

mod copies;
pub mod laws;

pub use copies::{L1, LINE_SIZE, LINES, MOST_COPIES};
pub use z_regs::NoMemory;
