//! CPUs that are lent, and runs that come home, to the machine that lent them or to another one.
use crate::machines::opened;
use std::alloc::Global;
use std::test::Fail;
use tx_journal::Event;
use tx_meaning::Outcome;
use tx_report::{Home, Lend, Machine, Place, Reason, Refusal, Run, RunStep};

/// What is done with two machines and a run.
#[derive(Clone, Copy)]
enum Move {
    /// A CPU of the first machine has a turn.
    Turn(u32),
    /// The first machine lends a CPU.
    Lend(u32),
    /// The second one does.
    LendOther(u32),
    /// The run makes a step, or leaves.
    Step,
    /// It comes home to the first machine.
    Home,
}

/// What comes of it.
#[derive(Clone, Copy, Debug, PartialEq, Eq)]
enum Answer {
    Turn(Outcome),
    Lent,
    Refused(Refusal),
    Step(RunStep),
    Home(Home),
    /// There is no such CPU, or no run.
    Nothing,
}

/// A turn of a CPU.
fn turn(machine: &mut Machine, cpu: u32) -> Answer {
    if cpu >= machine.image().cpu_count() {
        return Answer::Nothing;
    }
    Answer::Turn(machine.event(Event::Turn(cpu)))
}

/// A CPU is lent.
fn lend(machine: &mut Machine, away: &mut Option<Run>, cpu: u32) -> Answer {
    if cpu >= machine.image().cpu_count() {
        return Answer::Nothing;
    }
    match machine.lend(cpu) {
        Lend::Refused(why) => Answer::Refused(why),
        Lend::Run(run) => {
            *away = Some(run);
            Answer::Lent
        }
    }
}

/// A step of the run.
fn step(away: &mut Option<Run>) -> Answer {
    match away {
        None => Answer::Nothing,
        Some(run) => Answer::Step(run.step(false)),
    }
}

/// The run comes home.
fn home(machine: &mut Machine, away: &mut Option<Run>) -> Answer {
    let Some(run) = away.take() else {
        return Answer::Nothing;
    };
    if run.cpu() >= machine.image().cpu_count() {
        return Answer::Nothing;
    }
    Answer::Home(machine.home(run))
}

/// What comes of a move.
fn told(machine: &mut Machine, other: &mut Machine, away: &mut Option<Run>, now: Move) -> Answer {
    match now {
        Move::Turn(cpu) => turn(machine, cpu),
        Move::Lend(cpu) => lend(machine, away, cpu),
        Move::LendOther(cpu) => lend(other, away, cpu),
        Move::Step => step(away),
        Move::Home => home(machine, away),
    }
}

/// How many moves come to what is due, from the first one on.
fn right_moves_with(
    machine: &mut Machine,
    other: &mut Machine,
    away: &mut Option<Run>,
    moves: &[(Move, Answer)],
) -> usize {
    let mut right = 0usize;
    for (now, due) in moves {
        if told(machine, other, away, *now) != *due {
            break;
        }
        right = right.saturating_add(1);
    }
    right
}

/// The same, where no run is away at first.
fn right_moves(machine: &mut Machine, other: &mut Machine, moves: &[(Move, Answer)]) -> usize {
    let mut away = None;
    right_moves_with(machine, other, &mut away, moves)
}

/// The same, where the second machine is that of a listing.
fn right_moves_beside(alloc: Global, machine: &mut Machine, case: &Case) -> Option<usize> {
    let mut other = opened(alloc, case.other.as_bytes(), case.turns)?;
    Some(right_moves(machine, &mut other, case.moves))
}

/// The same, for the machines of two listings.
fn right_moves_of(alloc: Global, case: &Case) -> Option<usize> {
    let mut machine = opened(alloc, case.listing.as_bytes(), case.turns)?;
    right_moves_beside(alloc, &mut machine, case)
}

/// The listings of two machines, the turns that each CPU may have, and what is done and told.
struct Case {
    listing: &'static str,
    other: &'static str,
    turns: u32,
    moves: &'static [(Move, Answer)],
}

const EXECUTED: Answer = Answer::Turn(Outcome::Executed);

const DONE: Answer = Answer::Step(RunStep::Done);

const AT_HOME: Answer = Answer::Step(RunStep::Leave(Reason::AtHome));

/// Three instructions that may be made away from the machine, and one that may not.
const SHORT: &str = " CPU START
START LGHI 1,5
 LGHI 2,7
 AGR 1,2
 SVC 0
";

/// Two loads from one line.
const LOADS: &str = " CPU GO
GO LG 1,X'9000'
 LG 2,X'9000'
 SVC 0
";

/// The same, beside a CPU that stores into that line.
const BESIDE: &str = " CPU GO
 CPU ST
GO LG 1,X'9000'
 LG 2,X'9000'
 SVC 0
ST STG 5,X'9000'
 SVC 0
";

/// An addition.
const ADDS: &str = " CPU GO
GO AGHI 1,1
 SVC 0
";

/// Another one of a CPU whose register 7 has another value from the start.
const OTHER_SEVEN: &str = " CPU GO
 REG 0,7,5
GO AGHI 1,1
 SVC 0
";

/// A line that is fetched and stored into in a transaction.
const INSIDE: &str = " CPU GO
GO TBEGINC 0,X'FF00'
 LG 1,X'9000'
 AGHI 1,1
 STG 1,X'9000'
 TEND
 SVC 0
";

static CASES: [Case; 9] = [
    // a run comes home to a machine in which nothing has changed
    Case {
        listing: LOADS,
        other: LOADS,
        turns: 100,
        moves: &[
            (Move::Turn(0), EXECUTED),
            (Move::Lend(0), Answer::Lent),
            (Move::Step, DONE),
            (Move::Step, AT_HOME),
            (Move::Home, Answer::Home(Home::Taken(1))),
            (Move::Turn(0), EXECUTED),
            (Move::Lend(0), Answer::Refused(Refusal::Idle)),
        ],
    },
    // its line was taken away meanwhile
    Case {
        listing: BESIDE,
        other: LOADS,
        turns: 100,
        moves: &[
            (Move::Turn(0), EXECUTED),
            (Move::Lend(0), Answer::Lent),
            (Move::Turn(1), EXECUTED),
            (Move::Step, DONE),
            (
                Move::Home,
                Answer::Home(Home::Discarded {
                    place: Place::Held(144),
                    kept: 0,
                    given: 1,
                }),
            ),
            (Move::Turn(0), EXECUTED),
        ],
    },
    // it is not lent twice, and lent again once it is home
    Case {
        listing: ADDS,
        other: LOADS,
        turns: 100,
        moves: &[
            (Move::Lend(0), Answer::Lent),
            (Move::Lend(0), Answer::Refused(Refusal::Away)),
            (Move::Home, Answer::Home(Home::Taken(0))),
            (Move::Lend(0), Answer::Lent),
            (Move::Step, DONE),
            (Move::Home, Answer::Home(Home::Taken(1))),
        ],
    },
    // the machine has made the same step itself
    Case {
        listing: ADDS,
        other: LOADS,
        turns: 100,
        moves: &[
            (Move::Lend(0), Answer::Lent),
            (Move::Turn(0), EXECUTED),
            (Move::Step, DONE),
            (
                Move::Home,
                Answer::Home(Home::Discarded {
                    place: Place::Turns,
                    kept: 1,
                    given: 0,
                }),
            ),
        ],
    },
    // a run of another machine, in which a register differs
    Case {
        listing: ADDS,
        other: OTHER_SEVEN,
        turns: 100,
        moves: &[
            (Move::LendOther(0), Answer::Lent),
            (Move::Step, DONE),
            (
                Move::Home,
                Answer::Home(Home::Discarded {
                    place: Place::General(7),
                    kept: 0,
                    given: 5,
                }),
            ),
            (Move::LendOther(0), Answer::Refused(Refusal::Away)),
        ],
    },
    // a run of another machine that is just the same
    Case {
        listing: ADDS,
        other: ADDS,
        turns: 100,
        moves: &[
            (Move::LendOther(0), Answer::Lent),
            (Move::Step, DONE),
            (Move::Home, Answer::Home(Home::Taken(1))),
            (Move::Turn(0), EXECUTED),
        ],
    },
    // inside a transaction, up to a line that is not held so
    Case {
        listing: INSIDE,
        other: LOADS,
        turns: 100,
        moves: &[
            (Move::Turn(0), EXECUTED),
            (Move::Turn(0), EXECUTED),
            (Move::Lend(0), Answer::Lent),
            (Move::Step, DONE),
            (
                Move::Step,
                Answer::Step(RunStep::Leave(Reason::LineMissing(144))),
            ),
            (Move::Home, Answer::Home(Home::Taken(1))),
            (Move::Turn(0), EXECUTED),
            (Move::Turn(0), EXECUTED),
        ],
    },
    // up to a call, with a turn left for it
    Case {
        listing: SHORT,
        other: SHORT,
        turns: 4,
        moves: &[
            (Move::Lend(0), Answer::Lent),
            (Move::Step, DONE),
            (Move::Step, DONE),
            (Move::Step, DONE),
            (Move::Step, AT_HOME),
            (Move::Home, Answer::Home(Home::Taken(3))),
            (Move::Turn(0), EXECUTED),
            (Move::Turn(0), Answer::Turn(Outcome::Halted)),
        ],
    },
    // as many steps as the CPU has turns
    Case {
        listing: SHORT,
        other: SHORT,
        turns: 2,
        moves: &[
            (Move::Lend(0), Answer::Lent),
            (Move::Step, DONE),
            (Move::Step, DONE),
            (Move::Step, Answer::Step(RunStep::Leave(Reason::Allowance))),
            (Move::Home, Answer::Home(Home::Taken(2))),
            (Move::Turn(0), Answer::Turn(Outcome::Spent)),
            (Move::Lend(0), Answer::Refused(Refusal::Idle)),
        ],
    },
];

/// In how many cases all moves come to what is due, from the first one on.
fn right_cases(alloc: Global) -> usize {
    let mut right = 0usize;
    for case in &CASES {
        if right_moves_of(alloc, case) != Some(case.moves.len()) {
            break;
        }
        right = right.saturating_add(1);
    }
    right
}

#[test]
fn runs_are_lent_and_come_home(rt: HostRuntime) -> Result<(), Fail> {
    assert_eq!(rt; right_cases(rt.alloc()), CASES.len());
    Ok(())
}
