//! Cases of the caches, the store cache and the sets below them, with values worked by hand.
#![tactic(auto)]

#[cfg(test)]
mod copies;
#[cfg(test)]
mod lines;
#[cfg(test)]
mod sets;
#[cfg(test)]
mod slots;
#[cfg(test)]
mod stores;
