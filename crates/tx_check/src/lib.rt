//! Reports that are judged by the history in them.
#![tactic(auto)]

mod checking;
mod claims;
mod laws;
mod lines;
mod telling;
mod writing;

pub use checking::{CheckFault, check};
pub use laws::one_answer_is_due;
