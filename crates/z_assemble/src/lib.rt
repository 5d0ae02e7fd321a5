//! The assembler: from the text of a listing to the image of a machine, or the first fault of the text.
#![tactic(auto)]

mod fault;
mod laws;
mod parts;
mod places;
mod whole;

pub use fault::{AssembleFault, ListingFault, fault_line};
pub use laws::{a_text_is_one_of_two, what_stands_is_an_image};
pub use whole::{MOST_BYTES, MOST_LINES, assemble};
