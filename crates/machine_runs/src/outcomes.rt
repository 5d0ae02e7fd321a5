//! How often events have come to each outcome.

use std::alloc::AllocError;
use tx_meaning::Outcome;

/// The words for outcomes, in the order of the alphabet.
const NAMES: [&str; 10] = [
    "aborted",
    "delayed",
    "executed",
    "external",
    "halted",
    "interrupted",
    "queued",
    "rejected",
    "spent",
    "stopped",
];

/// The place of the word for an outcome.
fn place_of(outcome: Outcome) -> usize {
    match outcome {
        Outcome::Aborted { .. } => 0,
        Outcome::Delayed => 1,
        Outcome::Executed => 2,
        Outcome::External => 3,
        Outcome::Halted => 4,
        Outcome::Interrupted { .. } => 5,
        Outcome::Queued => 6,
        Outcome::Rejected { .. } => 7,
        Outcome::Spent => 8,
        Outcome::Stopped => 9,
    }
}

/// How often events have come to each outcome, in the order of the words.
#[derive(Clone, Copy)]
pub struct Outcomes {
    counts: [u64; 10],
}

impl Outcomes {
    /// No events.
    pub fn none() -> Outcomes {
        Outcomes { counts: [0; 10] }
    }

    /// Counts the outcome of one event more.
    pub fn count(&mut self, outcome: Outcome) {
        let place = place_of(outcome);
        if place < 10 {
            self.counts[place] = self.counts[place].saturating_add(1);
        }
    }

    /// Adds a line with the outcomes that there were, each with how often.
    pub fn add_to(&self, text: &mut String) -> Result<(), AllocError> {
        text.push_str("events")?;
        for (name, count) in NAMES.iter().zip(&self.counts) {
            if *count > 0 {
                write!(text, ", {name} {count}")?;
            }
        }
        text.push('\n')
    }
}
