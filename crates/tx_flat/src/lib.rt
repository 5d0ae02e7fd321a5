//! The serial history computed: entries of the history applied to flat storage and its CPUs, one after the
//! other. The definitions are those of `tx_serial`.
#![tactic(auto)]

pub mod abort;
pub mod causes;
mod dispatch;
pub mod entries;
mod flat;
pub mod interruption;
mod mending;
pub mod outside;
pub mod showing;
pub mod slot;

pub use flat::Flat;
