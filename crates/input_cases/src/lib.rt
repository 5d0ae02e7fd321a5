//! Cases of what is handed in: command lines, decks and lines of reports.
#![tactic(auto)]

#[cfg(test)]
mod commands;
#[cfg(test)]
mod decks;
#[cfg(test)]
mod rows;
