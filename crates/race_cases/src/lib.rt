//! Cases of races.
#![tactic(auto)]

#[cfg(test)]
mod races;
