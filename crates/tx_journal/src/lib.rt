//! What a run is given and what it leaves: the image that a listing stands for, events, the entries of the
//! serial history, and the texts of entries and events, both ways.
#![tactic(auto)]

mod entries;
mod events;
mod image;
mod laws;
mod lines;
mod numbers;
mod reading;
mod writing;

pub use entries::{Entry, EntryText};
pub use events::Event;
pub use image::{Image, Show};
pub use laws::{a_text_is_one_line, a_text_is_one_schedule, entries_read_back};
pub use numbers::read_number;
pub use reading::read_entry;
pub use writing::{add_history, add_schedule, entry_text, schedule_text};
pub use z_regs::NoMemory;
