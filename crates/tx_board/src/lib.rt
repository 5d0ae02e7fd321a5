//! What lies behind the lock of a race: a machine, and a ledger that keeps how many events each thread has made. No
//! thread is made here.
#![tactic(auto)]

mod board;
mod finish;
mod turns;

pub use board::{Blank, Board, Raced, Share};
pub use finish::{finish_round, is_of_run, run_again};
pub use turns::cpu_count;
pub use tx_schedule::{Home, Lend, Machine, NoMemory, Run, RunStep};
