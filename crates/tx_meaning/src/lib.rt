//! The machine of 1 to 16 CPUs over events: what each event makes of the serial history and of the lines that
//! the CPUs hold, and how many turns a constrained transaction can need. The definitions are in `specs/`;
//! they compute storage, CPUs and live attempts from the history.
#![tactic(auto)]

pub mod asking;
pub mod counts;
pub mod laws;
pub mod limits;
pub mod outcome;

pub use asking::{Need, Reject};
pub use counts::Counts;
pub use limits::Limits;
pub use outcome::Outcome;
