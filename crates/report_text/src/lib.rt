//! The texts of a report and of a short summary, from what they tell as plain data.
#![tactic(auto)]

mod block;
mod digits;
mod laws;
mod lines;
mod processors;
mod storage;
mod totals;
mod whole;

pub use digits::{add_labelled, add_number_line};
pub use laws::a_block_shows_what_ended_the_attempt;
pub use lines::{add_image, add_progress};
pub use processors::{Attempt, Counts, Processor};
pub use storage::{SharedBytes, add_bytes_text, add_shows};
pub use totals::summary;
pub use whole::{report, status};
