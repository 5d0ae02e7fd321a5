//! Cases of flat storage.
#![tactic(auto)]

#[cfg(test)]
mod flat;
