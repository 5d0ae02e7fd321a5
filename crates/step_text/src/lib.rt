//! What commands show of a run that is looked at forward and back, as text.
#![tactic(auto)]

mod bytes;
mod moving;
mod replying;

pub use replying::replies;
pub use tx_step::Trace;
