//! The form of a report: which lines it has, one row of words for each, and the first line at which a text leaves
//! that form.
#![tactic(auto)]

mod laws;
mod lines;
mod places;
mod rows;
mod sheet;
mod spelling;
mod steps;
mod words;

pub use laws::lines_have_a_form_or_one_fault;
pub use lines::Part;
pub use places::{Line, Place, line_at, start};
pub use rows::{Row, fits};
pub use sheet::{FormFault, Sheet, read};
pub use steps::step_cpu;
pub use words::{Name, Word};
