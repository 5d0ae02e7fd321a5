//! The attempt of a CPU, and instructions that are performed on the bytes that it sees. Each call is one equation
//! with the definitions of tx_progress.
#![tactic(auto)]

mod advancing;
mod attempt;
mod gathering;
mod keeping;
mod lending;
mod performing;
mod refusal;
mod storing;

pub use advancing::Before;
pub use attempt::Attempt;
pub use keeping::{keep_register, stores_register};
pub use lending::operand;
pub use performing::{Ended, MOST_BYTES, execute_plain, execute_seen, perform, transaction_of};
pub use refusal::{Refusal, cause_in};
pub use storing::{get_all, put_all, put_stored};
