//! A history read back from its lines: the entries whose texts they are, and the state that these leave.
#![tactic(auto)]

mod causes;
mod ends;
mod entries;
mod laws;
mod replaying;

pub use ends::Ends;
pub use entries::apply_line;
pub use laws::lines_have_a_history_or_one_misfit;
pub use replaying::{ReplayFault, Replayed, replay};
