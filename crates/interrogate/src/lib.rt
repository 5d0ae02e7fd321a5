//! What a CPU answers when another one asks it for a line that it holds: it yields the line, it rejects the
//! request, or its transaction is aborted and then it yields. After the cross-interrogates and their rejects
//! in Jacobi, Slegel and Greiner, "Transactional Memory Architecture and Implementation for IBM System z",
//! MICRO 2012; the limits of rejects are this project's.
#![tactic(auto)]

mod holder;
mod kinds;
mod laws;

pub use holder::answer;
pub use kinds::{Answer, Asker};
pub use laws::{every_conflict_ends, only_rejects_are_counted, who_is_never_rejected};
