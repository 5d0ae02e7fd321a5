//! Opacity: what a live attempt has seen is one private run on storage as it is now, at every moment.
#![tactic(auto)]

pub mod laws;
