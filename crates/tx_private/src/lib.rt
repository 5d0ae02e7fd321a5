//! Private runs computed: what one CPU does alone from its outermost begin on, and how such an attempt ends,
//! on plain copies of storage. The definitions are those of `tx_serial`.
#![tactic(auto)]

mod advance;
pub mod attempt;
pub mod coming;
pub mod copying;
pub mod ending;
pub mod execution;
pub mod known;
mod reading;
pub mod refusals;
pub mod running;
pub mod storing;
pub mod turning;
