//! What the program answers: for each request the status and the text that are due, from the bytes of an input; and that
//! one answer is due to each. Nothing is read or written here.
#![tactic(auto)]

mod heated;
pub mod laws;
mod requests;
mod stepped;

pub use requests::{Request, answer_to, most_bytes, refuse_long};
pub use run_answers::{NoRace, prepare_race, refuse_long_race, report_race, summary};
