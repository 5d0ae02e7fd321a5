//! Cases of what is read: lines of listings, and spellings of instructions.
#![tactic(auto)]

#[cfg(test)]
mod lines;
#[cfg(test)]
mod listings;
#[cfg(test)]
mod spellings;
