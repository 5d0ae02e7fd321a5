//! Runs of two and three CPUs against the schedules that an independent model makes.

use crate::machines::{Case, Look, Way, is_shown};
use std::alloc::Global;
use std::test::Fail;
use tx_journal::Event;

/// Two CPUs that count in one doubleword, and one that halts at once.
const THREE: &str =
    " CPU T\n CPU T\n CPU U\nT TBEGINC 0,X'FF00'\n LG 1,X'9000'\n AGHI 1,1\n STG 1,X'9000'\n \
    TEND\n SVC 0\nU LGHI 1,5\n SVC 0\n SHOW X'9000',8\n END\n";

/// One CPU that counts, which is interrupted from outside, and one that halts at once, which is given turns
/// and an interruption behind its end.
const GIVEN: &str =
    " CPU T\n CPU U\nT TBEGINC 0,X'FF00'\n LG 1,X'9000'\n AGHI 1,1\n STG 1,X'9000'\n TEND\n \
    SVC 0\nU LGHI 1,5\n SVC 0\n SCHED 1*4,0*3,X0,X1,0,1,0\n SHOW X'9000',8\n END\n";

/// The turns of the three in the round.
const ROUND: &str = "0,1,2,0,1,2,0,1,0,1,0,1,0,1,0,1,0,1,0,1,0,1,0,1,0,1,0,1,0,1,1,1,1,1,1,";

/// Those that are drawn from 0.
const DRAWN: &str = "2,0,1,1,2,1,0,1,0,1,1,0,0,1,0,0,1,0,1,1,0,1,1,0,1,1,0,0,0,0,0,0,0,";

/// What is recorded of the given schedule.
const RECORDED: &str = "1,1,0,0,0,X0,X1,0,0,";

/// The event that a word tells: the number of its CPU, behind an X where it is from outside.
fn event_of(word: &str) -> Option<Event> {
    match word.strip_prefix('X') {
        Some(cpu) => Some(Event::External(cpu.parse::<u32>().ok()?)),
        None => Some(Event::Turn(word.parse::<u32>().ok()?)),
    }
}

/// Whether events are those of a text, with a comma behind each word.
pub fn are_those_of(events: &[Event], text: &str) -> bool {
    let mut count = 0;
    for word in text.split_terminator(',') {
        if events.get(count).copied() != event_of(word) {
            return false;
        }
        count = count.saturating_add(1);
    }
    count == events.len()
}

/// A listing, the turns that each CPU may have, by which schedule it runs, and what is recorded of the run.
static RUNS: [(&str, u32, Way, &str); 9] = [
    (GIVEN, 1000, Way::Given, RECORDED),
    (THREE, 1000, Way::Drawn(0), DRAWN),
    (THREE, 1000, Way::Round, ROUND),
    (GIVEN, 1000, Way::Planned(Some(3)), RECORDED),
    (THREE, 1000, Way::Planned(Some(0)), DRAWN),
    (THREE, 1000, Way::Planned(None), ROUND),
    (
        THREE,
        1000,
        Way::Planned(Some(u64::MAX)),
        "1,2,1,2,0,1,1,1,0,0,1,0,0,0,",
    ),
    (THREE, 2, Way::Planned(Some(0)), "2,0,1,1,2,0,"),
    (THREE, 2, Way::Planned(None), "0,1,2,0,1,2,"),
];

/// How many runs are recorded as they have to be, from the first one on.
fn right_runs(alloc: Global) -> usize {
    let mut right = 0usize;
    for (listing, turns, way, recorded) in &RUNS {
        let case = Case {
            turns: *turns,
            way: *way,
            look: Look::Events(recorded),
        };
        if is_shown(alloc, listing.as_bytes(), case) != Some(true) {
            break;
        }
        right = right.saturating_add(1);
    }
    right
}

#[test]
fn runs_by_their_schedules(rt: HostRuntime) -> Result<(), Fail> {
    assert_eq!(rt; right_runs(rt.alloc()), RUNS.len());
    Ok(())
}
