//! What is due to a listing, a deck or a number where no machine runs: a status and a text. Nothing is read or written
//! here.
#![tactic(auto)]

mod answer;
mod decks;
mod generated;
mod listed;
mod refused;

pub use answer::Answer;
pub use decks::{read_deck_of, refuse_long_deck, write_deck_of};
pub use generated::{generate, image_for};
pub use listed::list;
pub use refused::{refuse, refuse_long_listing};
pub use z_regs::NoMemory;
