//! Cases of encodings of instructions, and of their table.
#![tactic(auto)]

#[cfg(test)]
mod readings;
#[cfg(test)]
mod table;
