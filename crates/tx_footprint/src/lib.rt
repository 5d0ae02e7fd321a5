//! The footprint of an attempt: the lines that it fetched, the lines that it stored and the blocks
//! that it stored, within their limits. The fetch and store footprints are those of the
//! transactional-execution facility (z/Architecture Principles of Operation, SA22-7832); the limits are
//! this project's.
//!
//! All ranges are by absolute addresses: a caller whose CPU has a prefix hands over the absolute ranges of
//! its operands, so lines and blocks are those of storage itself.
#![tactic(auto)]

mod footprint;
mod laws;
mod places;

pub use footprint::{BLOCKS, Footprint, MOST_BLOCKS, MOST_LINES, Overflow};
pub use laws::{adds_in_turn, counts_a_line_once, has_the_places_of_its_addresses};
pub use line_table::Mode;
pub use places::{BLOCK_SIZE, LINE_SIZE};
pub use z_regs::NoMemory;
