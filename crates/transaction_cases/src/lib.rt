//! Cases of footprints, the retry ladder, nesting and aborts: each call with values from outside or worked by hand.
#![tactic(auto)]

#[cfg(test)]
mod aborts;
#[cfg(test)]
mod footprints;
#[cfg(test)]
mod ladders;
#[cfg(test)]
mod nests;
