//! What the program writes.

use crate::words::Words;
use std::alloc::{AllocError, Global};

/// How many lines of input there were, and how many of them differ.
#[derive(Clone, Copy)]
pub struct Counts {
    /// Lines that were judged.
    pub cases: u64,
    /// Those among them that differ or have no form.
    pub mismatches: u64,
}

/// No lines.
const NONE: Counts = Counts {
    cases: 0,
    mismatches: 0,
};

/// The lines for what differs so far, what differs in the line that is judged, and the counts since they were taken.
#[derive(Drop)]
pub struct Report {
    lines: Words,
    /// What differs in the line that is judged.
    pub difference: Words,
    counts: Counts,
}

impl Report {
    /// Nothing so far.
    pub fn new(alloc: Global) -> Report {
        Report {
            lines: Words::new(alloc),
            difference: Words::new(alloc),
            counts: NONE,
        }
    }

    /// Counts a line that differs.
    fn count_mismatch(&mut self) {
        self.counts.mismatches = self.counts.mismatches.saturating_add(1);
    }

    /// Counts a line, with what differs in it, where that is not empty.
    pub fn count(&mut self, name: &str) {
        self.counts.cases = self.counts.cases.saturating_add(1);
        if self.difference.as_str().is_empty() {
            return;
        }
        self.count_mismatch();
        self.lines.add(name);
        self.lines.add(": ");
        self.lines.add(self.difference.as_str());
        self.lines.add("\n");
    }

    /// Counts a line without a form, by its number.
    pub fn count_malformed(&mut self, number: usize) {
        self.counts.cases = self.counts.cases.saturating_add(1);
        self.count_mismatch();
        self.lines.add("line ");
        self.lines.add_decimal(number as u64);
        self.lines.add(": malformed\n");
    }

    /// Notes that there was no memory for a line.
    pub fn cut_off(&mut self) {
        self.lines.cut_off();
    }

    /// The counts since they were taken last; they begin anew.
    pub fn take_counts(&mut self) -> Counts {
        let counts = self.counts;
        self.counts = NONE;
        counts
    }

    /// Writes how many lines differ.
    pub fn add_mismatches(&mut self, counts: Counts) {
        self.lines.add_decimal(counts.mismatches);
        self.lines.add(" mismatches\n");
    }

    /// Writes how many lines there were, and how many differ.
    pub fn add_counts(&mut self, counts: Counts) {
        self.lines.add_decimal(counts.cases);
        self.lines.add(" cases, ");
        self.add_mismatches(counts);
    }

    /// All that is written; an error where there was no memory for some of it.
    pub fn text(&self) -> Result<&str, AllocError> {
        if self.lines.is_cut() || self.difference.is_cut() {
            return Err(AllocError);
        }
        Ok(self.lines.as_str())
    }
}
