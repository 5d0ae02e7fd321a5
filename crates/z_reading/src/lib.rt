//! The first reading of a line of a listing, what it says of labels and of what is placed, and the lines that it
//! leaves to the second one.
#![tactic(auto)]

mod draft;
mod first;
mod kept;
mod parts;
mod place;
mod reading;
mod works;

pub use draft::{Draft, FIRST_BYTE, FIRST_LOCATION, MOST_CPUS, SIZE};
pub use first::{is_doubleword, read_first};
pub use kept::{Kept, TextLine, Work};
pub use parts::{behind, field_behind, heads_in, operation_in};
pub use place::write_bytes;
pub use reading::Reading;
pub use works::Works;
