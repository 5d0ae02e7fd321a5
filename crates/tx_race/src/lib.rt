//! CPUs that race for one machine. Each CPU has a thread of its own where one can be made; a lock keeps the
//! machine, and a ledger beside it keeps how many events each thread has made.
#![tactic(auto)]

mod gate;
mod locking;
mod racing;
mod workers;

pub use gate::{Gate, OpenGate};
pub use racing::race;
pub use tx_board::{Blank, Board, Machine, Raced, Share};
