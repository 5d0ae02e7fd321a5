//! What lines of vectors say, as plain values: what an instruction does to a CPU and to storage, bytes, and
//! instructions as people write them.
#![tactic(auto)]

mod case;
mod code;
mod fault;
mod numbers;
mod piece;
mod spelling;

pub use case::{Case, Scene};
pub use code::Code;
pub use fault::Fault;
pub use numbers::first_word;
pub use piece::{Piece, byte_in};
pub use spelling::is_spelling;
