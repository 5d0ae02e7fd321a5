//! What keeps constrained transactions going: the retry ladder of one CPU, with the numbers that
//! decide when a holder may reject and how long a CPU waits after a conflict, and the stop queue,
//! whose head alone runs while it is not empty. After the retries of constrained transactions in
//! Jacobi, Slegel and Greiner, "Transactional Memory Architecture and Implementation for IBM System
//! z", MICRO 2012; the numbers are this project's.
#![tactic(auto)]

mod ladder;
pub mod laws;
mod parms;
mod queue;

pub use ladder::{DELAY_BASE, Ladder, Next};
pub use parms::{
    Choice, DELAY, FIRM, LATE, MOST_ABORTS, MOST_REJECTS, Parms, REJECT, STARVE, STOP,
};
pub use queue::StopQueue;
pub use z_regs::NoMemory;
