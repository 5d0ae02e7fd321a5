//! The second reading of a line of a listing: what it says, when all labels are known, of instructions and of what
//! the machine starts from.
#![tactic(auto)]

mod parameter;
mod second;
mod setup;
mod showing;

pub use parameter::Parameter;
pub use second::read_second;
pub use setup::Setup;
pub use showing::Showing;
