//! What the workers of a race tell one another beside the machine: whose run is called home, and how far each CPU has come. No
//! result of a race depends on it.
#![tactic(auto)]

mod calls;
mod paces;

pub use calls::Calls;
pub use paces::Paces;

#[cfg(test)]
mod tests;
