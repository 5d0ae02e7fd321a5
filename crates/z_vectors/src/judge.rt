//! Lines, one after the other.

use crate::compare::add_effect;
use crate::kind::add_kind;
use crate::reading::{add_bytes, add_line};
use crate::report::{Counts, Report};
use crate::view::Watched;
use crate::words::Words;
use std::alloc::Global;
use vector_lines::{Fault, first_word};

/// What a line is about.
#[derive(Clone, Copy)]
enum Form {
    /// A line of the listing and its bytes.
    Line,
    /// Bytes and the line they read as.
    Bytes,
    /// Whose an operation is.
    Kind,
    /// What an instruction does.
    Effect,
}

/// What a line is about, its name, and what it says of that.
fn parts_of<'a>(line: &'a str) -> (Form, &'a str, &'a str) {
    if let Some((name, rest)) = line.split_once(" | ") {
        return match rest.split_once(" | ") {
            Some((reading, _)) => (Form::Bytes, name, reading),
            None => (Form::Line, name, rest),
        };
    }
    match line.split_once(" is ") {
        Some((name, kind)) => (Form::Kind, name, kind),
        None => (Form::Effect, first_word(line).0, line),
    }
}

/// Adds what differs in a line; nothing where all is as it says.
fn add_difference(
    words: &mut Words,
    alloc: Global,
    (form, name, said): (Form, &str, &str),
    view: &mut Watched,
) -> Result<(), Fault> {
    match form {
        Form::Line => add_line(words, alloc, name, said),
        Form::Bytes => add_bytes(words, alloc, name, said),
        Form::Kind => add_kind(words, name, said),
        Form::Effect => add_effect(words, alloc, said, view),
    }
}

impl Report {
    /// Judges a line, which has this number.
    fn judge(&mut self, alloc: Global, number: usize, line: &str, view: &mut Watched) {
        let parts = parts_of(line);
        self.difference.clear();
        match add_difference(&mut self.difference, alloc, parts, view) {
            Ok(()) => self.count(parts.1),
            Err(Fault::Malformed) => self.count_malformed(number),
            Err(Fault::NoMemory(_)) => self.cut_off(),
        }
    }

    /// Judges every line that does not begin with `#`, and counts these.
    pub fn judge_all(&mut self, alloc: Global, text: &str, view: &mut Watched) -> Counts {
        for (i, line) in text.lines().enumerate() {
            if !line.starts_with('#') {
                self.judge(alloc, i + 1, line, view);
            }
        }
        self.take_counts()
    }
}
