//! What is due where a listing runs, races, or has a report behind it that is judged: a status and a text. Nothing is
//! read or written here.
#![tactic(auto)]

mod checked;
mod machine;
mod raced;
mod reported;
mod summed;

pub use checked::check_report;
pub use machine::open;
pub use raced::{NoRace, prepare_race, refuse_long_race, report_race};
pub use reported::run;
pub use summed::summary;
pub use tx_check::one_answer_is_due;
pub use tx_report::{Machine, status};
pub use tx_schedule::{run_planned, run_planned_on};
