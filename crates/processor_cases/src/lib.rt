//! Cases of one CPU with its attempt, and of the lines that CPUs hold.
#![tactic(auto)]

#[cfg(test)]
mod attempts;
#[cfg(test)]
mod holders;
