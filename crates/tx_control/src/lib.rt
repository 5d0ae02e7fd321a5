//! Program exceptions and their classes, why a transaction aborts, and the nest of open transactions.
#![tactic(auto)]

pub mod abort_codes;
mod begins;
mod causes;
pub mod codes;
mod exceptions;
pub mod laws;
mod nesting;

pub use begins::Begin;
pub use causes::Why;
pub use exceptions::{Exception, class_of, is_filtered};
pub use nesting::{MOST_LEVELS, Nest};
