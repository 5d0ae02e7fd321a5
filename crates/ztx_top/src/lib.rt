//! The top call of the program: words and bytes in, a text and a status out.
#![tactic(auto)]

mod errand;
mod input;
mod race;
mod top;

pub use top::{sure_top, ztx_top};
