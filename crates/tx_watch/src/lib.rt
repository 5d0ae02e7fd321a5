//! A machine's run that is made once more and looked at behind each of its recorded turns: what these have come to, as
//! marks.
#![tactic(auto)]

pub mod marks;
mod watching;
mod window;

pub use tx_step::{Machine, NoMemory};
pub use watching::observe;
pub use window::Window;
