//! What is claimed of every run, in entries of the history and in turns: how long a constrained transaction
//! takes, how the stop queue moves, and what the recorded events mean.
#![tactic(auto)]

pub mod laws;
