//! What a run keeps of storage: its bytes, with what was there before it touched them, the bytes that it has stored and their
//! pages, and lines with modes.
#![tactic(auto)]

mod bytes;
mod marks;
mod paged;
mod placing;
mod traces;

pub use bytes::{OwnBytes, OwnRoom};
pub use marks::LineMarks;
pub use traces::Traces;
pub use tx_lending::Need;
pub use tx_lending::laws::lent_turns_are_turns;
