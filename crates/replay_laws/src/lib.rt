//! What a listing does that is given the schedule which a report has printed.
#![tactic(auto)]

pub mod laws;
