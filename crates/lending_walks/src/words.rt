//! The words of the command line.

use crate::loans::{Loans, MOST_LINES, MOST_LOANS, MOST_STEPS};

/// How many walks each listing has where the words say nothing.
const WALKS: u32 = 100;

/// The most walks of a listing.
const MOST_WALKS: u32 = 1_000_000;

/// What the program is to do.
#[derive(Clone, Copy)]
pub enum Task {
    /// So many walks of each listing.
    Walk(u32),
    /// Loans, for somebody who looks at a clock.
    Lend(Loans),
}

/// The number that a word is, where it is one from this range.
fn number_in(word: &str, least: u32, most: u32) -> Option<u32> {
    let number = word.parse::<u32>().ok()?;
    if number < least || number > most {
        return None;
    }
    Some(number)
}

/// The walks that a word says.
fn walks(walks: &str) -> Option<Task> {
    Some(Task::Walk(number_in(walks, 0, MOST_WALKS)?))
}

/// The loans that three words say.
fn loans(lines: &str, steps: &str, count: &str) -> Option<Task> {
    Some(Task::Lend(Loans {
        lines: number_in(lines, 1, MOST_LINES)?,
        steps: number_in(steps, 0, MOST_STEPS)?,
        count: number_in(count, 0, MOST_LOANS)?,
    }))
}

/// What the words say, the first of which is the program's name; None where they say nothing that it does.
pub fn task_of(words: &[String]) -> Option<Task> {
    match words {
        [] | [_] => Some(Task::Walk(WALKS)),
        [_, name, number] if name.as_str() == "walks" => walks(number.as_str()),
        [_, name, lines, steps, count] if name.as_str() == "times" => {
            loans(lines.as_str(), steps.as_str(), count.as_str())
        }
        _ => None,
    }
}
