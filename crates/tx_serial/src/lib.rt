//! The serial history on flat storage: what one CPU does alone from its outermost begin on, how such an
//! attempt ends and what it leaves, and which histories are legal. The definitions are in `specs/`; the
//! code has their laws.
#![tactic(auto)]

pub mod laws;
