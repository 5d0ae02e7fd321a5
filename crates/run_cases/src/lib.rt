//! Cases of runs: turns of a CPU that are made away from its machine.
#![tactic(auto)]

#[cfg(test)]
mod given;
#[cfg(test)]
mod runs;
