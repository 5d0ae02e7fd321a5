//! The words of the command line.
ghost use Rattle.std.specs.Prelude.{◌≤◌};

use clap::error::ErrorKind;
use clap::{Arg, ArgAction, ArgMatches, Command};
use std::alloc::{AllocError, Global};
use tx_meaning::limits::{MOST_TICK, MOST_TURNS};
use tx_picture::Window;

/// How a listing is run, and which turns of the run are drawn.
#[derive(Clone, Copy)]
pub struct Plan {
    /// The counted turns that each CPU may have, 1 to 200,000.
    pub turns: u32,
    /// The counted turns from one tick to the next, at most 1,000,000; 0 for no ticks.
    pub tick: u32,
    /// What draws the schedule of a listing that has none.
    pub seed: Option<u64>,
    /// The turns that are drawn.
    pub window: Window,
    ghost some_turns: { 1 ≤ turns },
    ghost few_turns: { turns ≤ 200000 },
    ghost tick_in: { tick ≤ 1000000 },
}

/// The most turns that can be recorded, and more.
const MOST_RECORDED: i64 = 10_000_000;

/// An option with a number.
fn number<'a>(alloc: Global, name: &'a str) -> Arg<'a> {
    Arg::new(alloc, name)
        .long(name)
        .action(ArgAction::Set)
        .value_parser(clap::value_parser!(u64))
}

/// An option with a number from a range.
fn ranged<'a>(alloc: Global, name: &'a str, least: i64, most: i64) -> Arg<'a> {
    number(alloc, name).value_parser(clap::value_parser!(u64).range(least..=most))
}

/// The options: those of `run`, and the window.
fn command<'a>(alloc: Global) -> Result<Command<'a>, AllocError> {
    Command::new(alloc, "ztx_picture")
        .disable_help_flag(true)
        .arg(ranged(alloc, "turns", 1, i64::from(MOST_TURNS)))?
        .arg(ranged(alloc, "tick", 0, i64::from(MOST_TICK)))?
        .arg(number(alloc, "seed"))?
        .arg(ranged(alloc, "from", 1, MOST_RECORDED))?
        .arg(ranged(alloc, "to", 1, MOST_RECORDED))
}

/// The plan that matches tell.
fn plan_of(matches: &ArgMatches) -> Plan {
    let number = |name| matches.get_one::<u64>(name);
    let turns = number("turns").unwrap_or(u64::from(MOST_TURNS));
    let tick = number("tick").unwrap_or(0);
    Plan {
        turns: turns.clamp(1, u64::from(MOST_TURNS)) as u32,
        tick: tick.min(u64::from(MOST_TICK)) as u32,
        seed: number("seed"),
        window: Window {
            first: number("from").unwrap_or(1),
            last: number("to").unwrap_or(u64::MAX),
        },
    }
}

/// The plan that the words say, the first of which is the program's name; None where they are no command
/// line.
pub fn read(alloc: Global, words: &[String]) -> Result<Option<Plan>, AllocError> {
    match command(alloc)?.try_get_matches_from(words) {
        Ok(matches) => Ok(Some(plan_of(&matches))),
        Err(error) => match error.kind() {
            ErrorKind::OutOfMemory => Err(AllocError),
            _ => Ok(None),
        },
    }
}
