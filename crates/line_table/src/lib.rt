//! Which CPU holds which line of storage, and how: the ownership of cache lines of Jacobi, Slegel and
//! Greiner, "Transactional Memory Architecture and Implementation for IBM System z", MICRO 2012, over
//! lines of 256 bytes.
#![tactic(auto)]

mod laws;
mod table;

pub use laws::{against_lists_the_others, holds_a_line_outside};
pub use table::{LINES, LineTable, MOST_HELD, Mode};
pub use z_regs::NoMemory;
