//! Cases of schedules and reports of the machine, with values of an independent model, and of CPUs that are lent.
#![tactic(auto)]

#[cfg(test)]
mod lending;
#[cfg(test)]
mod machines;
#[cfg(test)]
mod reports;
#[cfg(test)]
mod schedules;
