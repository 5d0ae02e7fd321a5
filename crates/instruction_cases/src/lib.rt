//! Cases of what instructions do, of their arithmetic, and of registers and storage.
#![tactic(auto)]

#[cfg(test)]
mod effects;
#[cfg(test)]
mod numbers;
#[cfg(test)]
mod registers;
