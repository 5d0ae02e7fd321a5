//! A picture of a machine's run: what its recorded turns have come to, as an SVG.
#![tactic(auto)]

mod drawing;
mod elements;
mod escaping;
mod frame;
mod places;
mod texts;

pub use drawing::{Drawing, draw};
pub use tx_watch::Window;
