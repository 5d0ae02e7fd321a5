//! Copies of lines: each CPU has copies of the lines that it holds, and storage is seen through those that
//! are held exclusively.
#![tactic(auto)]

mod access;
mod directory;
mod lines;
mod parts;
mod window;

pub use lines::CoherentLines;
pub use window::{Handback, Held, Window};
pub use z_regs::NoMemory;
