//! What the fields of a listing's lines say where they are no expressions: bytes of data, events; and a text cut into
//! pieces, and what is wrong with a line.
#![tactic(auto)]

mod data;
mod fault;
mod lines;
mod number;
mod schedule;
mod small_event;

pub use data::{Width, data_of};
pub use fault::{Kind, LineFault};
pub use lines::{count_pieces, first_piece, pieces_by, without_end};
pub use schedule::{MOST_EVENTS, Run, push_events};
pub use small_event::{SmallEvent, all_events};
