//! The lines that a turn needs, and how it needs each.
#![tactic(auto)]

pub mod needs;

pub use needs::{MOST_NEEDS, lines_needed, need_for};
