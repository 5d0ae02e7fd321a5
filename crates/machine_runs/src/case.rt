//! The cases of the input.

use crate::fault::Fault;

/// What happens in a case.
#[derive(Clone, Copy)]
pub enum Course {
    /// So many events of the listing's schedule.
    Given(usize),
    /// CPUs take turns, in the order of their numbers, until none is ready.
    Round,
}

/// A listing, and how its machine runs.
#[derive(Clone, Copy)]
pub struct Case<'a> {
    /// What it shows.
    pub name: &'a str,
    /// The counted turns that each CPU may have.
    pub turns: u32,
    /// The counted turns from one tick to the next; 0 where no turn is a tick.
    pub tick: u32,
    /// What happens.
    pub course: Course,
    /// The listing, without the end of its last line.
    pub listing: &'a str,
}

/// A number of the first line.
fn number(word: &str) -> Result<u32, Fault> {
    match word.parse::<u32>() {
        Ok(number) => Ok(number),
        Err(_) => Err(Fault::Wrong("a number is none")),
    }
}

/// What happens, in a word: `round`, or a number of events.
fn course_of(word: &str) -> Result<Course, Fault> {
    if word == "round" {
        return Ok(Course::Round);
    }
    match word.parse::<usize>() {
        Ok(count) => Ok(Course::Given(count)),
        Err(_) => Err(Fault::Wrong("a number of events is none")),
    }
}

/// What stands before a blank and behind it.
fn cut<'a>(text: &'a str, wrong: &'static str) -> Result<(&'a str, &'a str), Fault> {
    text.split_once(' ').ok_or(Fault::Wrong(wrong))
}

impl<'a> Case<'a> {
    /// The case of what stands behind its mark.
    pub fn read(text: &'a str) -> Result<Case<'a>, Fault> {
        let (heading, listing) = text.split_once('\n').unwrap_or((text, ""));
        let (turns, rest) = cut(heading, "no turns")?;
        let (tick, rest) = cut(rest, "no tick")?;
        let (events, name) = cut(rest, "no events")?;
        Ok(Case {
            name,
            turns: number(turns)?,
            tick: number(tick)?,
            course: course_of(events)?,
            listing,
        })
    }
}
