//! The lines of reports: how the text of a state splits into lines, that these have the form, and that a
//! sound report is accepted.
#![tactic(auto)]

pub mod laws;
