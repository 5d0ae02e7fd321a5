//! Cases of what CPUs ask of one another, with values from outside or worked by hand.
#![tactic(auto)]

#[cfg(test)]
mod answers;
#[cfg(test)]
mod holders;
#[cfg(test)]
mod shared;
