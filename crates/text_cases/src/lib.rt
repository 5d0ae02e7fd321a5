//! Cases of what is written: generated listings, journals and reports.
#![tactic(auto)]

#[cfg(test)]
mod generated;
#[cfg(test)]
mod journal;
#[cfg(test)]
mod reports;
