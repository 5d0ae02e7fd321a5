//! Turns that a CPU makes away from its machine, and that are as many turns of the machine once they are brought
//! home. The definitions are in `specs/`; the laws in `laws`.
#![tactic(auto)]

pub mod laws;

pub use tx_meaning::Need;
