//! What is shown of CPUs and of storage, what events change of it, and the lines that attempts may have stored into.
#![tactic(auto)]

pub mod changes;
pub mod cpus;
pub mod parts;
pub mod seen;
pub mod shows;
pub mod stored;
pub mod view;
