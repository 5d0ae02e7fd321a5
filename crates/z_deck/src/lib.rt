//! Object decks: storage and an entry on cards of 80 bytes, written, read, and turned into a listing.
#![tactic(auto)]

mod card;
mod deck;
mod fault;
pub mod laws;
mod listing;
mod reading;
mod writing;

pub use card::{CARD, Card, CardType};
pub use deck::Deck;
pub use fault::{DeckFault, Kind, fault_line};
pub use listing::deck_listing;
pub use reading::{MOST_BYTES, read_deck};
pub use writing::write_deck;
