//! The ladder's numbers at their ends, by values from outside.
ghost use Rattle.std.specs.Prelude.{◌≡◌, []};

use std::test::Fail;
use tx_ladder::{DELAY, Ladder, Next, Parms, REJECT, STARVE, STOP, StopQueue};

/// Suffers one more conflict abort of a constrained attempt, where one more may come.
fn abort(parms: &Parms, ladder: &mut Ladder) -> Option<Next>
    requires { ladder.old.parms ≡ parms.now }
    ensures { ladder.new.parms ≡ parms.now }
{
    ladder.begin(true);
    if ladder.aborts() < parms.stop {
        Some(ladder.conflict())
    } else {
        None
    }
}

/// Rejects as often as the live attempt may, and counts.
fn reject_all(ladder: &mut Ladder) -> u32
    ensures { ladder.new.parms ≡ ladder.old.parms }
{
    let mut given = 0u32;
    for _ in 0..1100 {
        if ladder.may_reject() {
            ladder.gave_reject();
            given = given.saturating_add(1);
        }
    }
    given
}

/// At which rejected request of the live attempt it is first starved, and how often it is in 1,100.
fn starve(ladder: &mut Ladder) -> (u32, u32)
    ensures { ladder.new.parms ≡ ladder.old.parms }
{
    let mut at = 0u32;
    let mut times = 0u32;
    for n in 1..1101u32 {
        if ladder.was_rejected() {
            if times == 0 {
                at = n;
            }
            times = times.saturating_add(1);
        }
    }
    (at, times)
}

#[test]
fn usual_numbers(rt: HostRuntime) {
    let parms = Parms::usual();
    let numbers = [
        parms.reject,
        parms.firm,
        parms.late,
        parms.starve,
        parms.stop,
        parms.delay,
    ];
    let least = [REJECT.least, STARVE.least, STOP.least, DELAY.least];
    let most = [REJECT.most, STARVE.most, STOP.most, DELAY.most];
    let due = (
        [8, 64, 4, 64, 8, 128],
        [0, 1, 1, 0],
        [1000, 1000, 16, 32768],
    );
    assert_eq!(rt; (numbers, least, most), due);
}

/// How many conflict aborts have these delays.
fn right_delays(parms: &Parms, ladder: &mut Ladder, delays: &[u32]) -> usize
    requires { ladder.old.parms ≡ parms.now }
    ensures { ladder.new.parms ≡ parms.now }
{
    let mut right = 0usize;
    for turns in delays {
        if abort(parms, ladder) == Some(Next::Delay(*turns)) {
            right = right.saturating_add(1);
        }
    }
    right
}

/// Whether conflict aborts have these delays, the next one leads to the queue, and one of an attempt that is not constrained
/// neither waits nor counts.
fn is_climbed(parms: Parms, delays: &[u32]) -> bool {
    let mut ladder = Ladder::new(parms);
    let right = right_delays(&parms, &mut ladder, delays);
    let last = abort(&parms, &mut ladder);
    let aborts = ladder.aborts();
    ladder.begin(false);
    let plain = ladder.conflict();
    let told = (right, last, plain, [aborts, ladder.aborts()]);
    told == (
        delays.len(),
        Some(Next::Queue),
        Next::Plain,
        [parms.stop; 2],
    )
}

#[test]
fn delays_and_the_queue(rt: HostRuntime) {
    let usual = Parms::usual();
    let most = [
        2, 4, 8, 16, 32, 64, 128, 256, 512, 1024, 2048, 4096, 8192, 16384, 32768,
    ];
    let short = Parms {
        stop: 3,
        delay: 0,
        ..usual
    };
    let shortest = Parms {
        stop: 1,
        delay: 32768,
        ..usual
    };
    let longest = Parms {
        stop: 16,
        delay: 32768,
        ..usual
    };
    let right = [
        is_climbed(usual, &[2, 4, 8, 16, 32, 64, 128]),
        is_climbed(Parms { delay: 5, ..usual }, &[2, 4, 5, 5, 5, 5, 5]),
        is_climbed(short, &[0, 0]),
        is_climbed(shortest, &[]),
        is_climbed(longest, &most),
    ];
    assert_eq!(rt; right, [true; 5]);
}

/// The rejects that a constrained attempt gives; those that another one gives, and whether it is constrained or late; and
/// whether one more conflict abort may come.
fn rejected(parms: &Parms, ladder: &mut Ladder) -> (u32, u32, bool, bool)
    requires { ladder.old.parms ≡ parms.now }
    ensures { ladder.new.parms ≡ parms.now }
{
    ladder.begin(true);
    let given = reject_all(ladder);
    ladder.begin(false);
    let plain = reject_all(ladder);
    let is_firm = ladder.is_constrained() || ladder.is_late();
    (given, plain, is_firm, abort(parms, ladder).is_some())
}

/// Whether a constrained attempt gives these rejects after each number of conflict aborts, and another one the usual ones.
fn is_right(parms: Parms, rejects: &[u32]) -> bool {
    let mut ladder = Ladder::new(parms);
    let mut right = 0usize;
    for given in rejects {
        if rejected(&parms, &mut ladder) == (*given, parms.reject, false, true) {
            right = right.saturating_add(1);
        }
    }
    right == rejects.len()
}

#[test]
fn rejects_after_each_abort(rt: HostRuntime) {
    let usual = Parms::usual();
    let early = Parms {
        reject: 0,
        firm: 1000,
        late: 1,
        ..usual
    };
    let yielding = Parms {
        reject: 1000,
        firm: 0,
        late: 2,
        ..usual
    };
    let late = Parms {
        late: 16,
        stop: 16,
        ..usual
    };
    let right = [
        is_right(usual, &[8, 8, 8, 8, 64, 64, 64, 64]),
        is_right(early, &[0, 1000]),
        is_right(yielding, &[1000, 1000, 0]),
        is_right(late, &[8; 16]),
    ];
    assert_eq!(rt; right, [true; 4]);
}

/// At which rejected request a constrained attempt is starved, and how often; and the same of another one.
fn starved(parms: Parms) -> [(u32, u32); 2] {
    let mut ladder = Ladder::new(parms);
    ladder.begin(true);
    let constrained = starve(&mut ladder);
    ladder.begin(false);
    [constrained, starve(&mut ladder)]
}

#[test]
fn starves_at_one_request(rt: HostRuntime) {
    let usual = Parms::usual();
    let told = [
        starved(usual),
        starved(Parms { starve: 1, ..usual }),
        starved(Parms {
            starve: 1000,
            ..usual
        }),
    ];
    let due = [[(64, 1), (0, 0)], [(1, 1), (0, 0)], [(1000, 1), (0, 0)]];
    assert_eq!(rt; told, due);
}

/// Whether one of the next 31 rejected requests starves the attempt.
fn is_starved(ladder: &mut Ladder) -> bool
    ensures { ladder.new.parms ≡ ladder.old.parms }
{
    let mut starved = false;
    for _ in 0..31 {
        if ladder.was_rejected() {
            starved = true;
        }
    }
    starved
}

/// Of a constrained attempt: the conflict aborts before it, whether it is starved within 31 rejected requests, how many
/// rejects it gives, at which request it is starved then, and whether it may give one more.
fn attempted(ladder: &mut Ladder) -> (u32, bool, u32, (u32, u32), bool)
    ensures { ladder.new.parms ≡ ladder.old.parms }
{
    ladder.begin(true);
    let aborts = ladder.aborts();
    let starved = is_starved(ladder);
    let given = reject_all(ladder);
    let at = starve(ladder);
    (aborts, starved, given, at, ladder.may_reject())
}

/// The conflict aborts behind the interruption of a transaction that has suffered one, and behind its commit.
fn descended(parms: &Parms, ladder: &mut Ladder) -> [u32; 2]
    requires { ladder.old.parms ≡ parms.now }
{
    ladder.interrupted();
    let interrupted = ladder.aborts();
    abort(parms, ladder);
    ladder.commit();
    [interrupted, ladder.aborts()]
}

#[test]
fn counts_anew_and_apart(rt: HostRuntime) {
    let parms = Parms::usual();
    let mut ladder = Ladder::new(parms);
    abort(&parms, &mut ladder);
    // eight rejects given between 64 rejected requests, twice
    let attempts = [attempted(&mut ladder), attempted(&mut ladder)];
    let behind = descended(&parms, &mut ladder);
    assert_eq!(rt;
        (attempts, behind),
        ([(1, false, 8, (33, 1), false); 2], [0; 2])
    );
}

/// The heads of a queue: while it is empty, once 2 and 0 have joined, behind a turn to the tail, and behind the head's
/// leave; and whether 2 and 0 wait then.
fn heads(queue: &mut StopQueue) -> ([Option<u32>; 4], [bool; 2])
    requires few { queue.old.cpus ≡ 3 }
    requires empty { queue.old.order ≡ [] }
{
    let empty = queue.head();
    queue.join(2);
    queue.join(0);
    let first = queue.head();
    queue.to_tail();
    let second = queue.head();
    queue.leave();
    (
        [empty, first, second, queue.head()],
        [queue.has(2), queue.has(0)],
    )
}

#[test]
fn queues_and_turns(rt: HostRuntime) -> Result<(), Fail> {
    let mut queue = StopQueue::open(rt.alloc(), 3).map_err(|_| "no memory")?;
    let told = heads(&mut queue);
    assert_eq!(rt; told, ([None, Some(2), Some(0), Some(2)], [true, false]));
    Ok(())
}
