//! The conflicts of a run by line of storage: how often requests for a line were rejected and attempts were
//! aborted for it, and how often that was for octowords that lie apart.
#![tactic(auto)]

pub mod counting;
pub mod following;
pub mod laws;
pub mod measuring;
pub mod octowords;
pub mod table;
pub mod track;
pub mod writing;

pub use counting::LineHeat;
pub use measuring::Counting;
pub use table::{Heat, NoMemory};
