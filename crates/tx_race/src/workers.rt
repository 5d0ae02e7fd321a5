//! The workers: each makes the turns of one CPU, away from the machine and under its lock.
ghost use Rattle.std.specs.Prelude.{◌≡◌, ◌≤◌, IfOk, vec_len};

use crate::gate::Gate;
use crate::locking::locked;
use std::alloc::Global;
use std::sync::ledger::Ledger;
use std::sync::{Mutex, Wait};
use tx_board::{Board, Home, Lend, NoMemory, Run, RunStep, Share, cpu_count};
use tx_meaning::Outcome;
use tx_pace::{Calls, Paces};

/// The most steps of a run.
const MOST_STEPS: u32 = 64;

/// A run of at least so many steps is worth its two lockings: behind it the CPU is lent again at once.
const WORTHWHILE_STEPS: u32 = 16;

/// The most turns that a worker makes under the lock between two runs.
const MOST_TURNS_BETWEEN: u32 = 4096;

/// Behind so many lockings a worker looks whether its CPU is far ahead of others.
const LOCKINGS_BETWEEN: u64 = 16;

/// How often a worker at most lets others run, one time after the other, since its CPU is far ahead of theirs.
const PATIENCE: u32 = 10_000;

/// What the workers of a race share beside the board.
#[derive(Drop)]
pub struct Signals {
    /// Which runs are called home.
    pub calls: Calls,
    /// How far each CPU has come.
    pub paces: Paces,
}

impl Signals {
    /// No run is called, and no CPU has had a turn. The error is want of memory.
    pub fn open(alloc: Global, cpus: u32) -> Result<Signals, NoMemory> {
        let calls = Calls::open(alloc, cpus)?;
        let paces = Paces::open(alloc, cpus)?;
        Ok(Signals { calls, paces })
    }
}

/// What a worker is given: a CPU, and the share in which it counts.
#[derive(Drop)]
pub struct Job<L: Ledger> {
    cpu: u32,
    share: Share<L>,
}

/// Each share with the CPU at its place. The error is want of memory.
pub fn jobs_of<L: Ledger>(alloc: Global, shares: Vec<Share<L>>) -> Result<Vec<Job<L>>, NoMemory>
    requires { vec_len shares ≤ 16 }
    ensures { IfOk result (λ jobs. vec_len jobs ≡ vec_len shares) }
{
    let mut jobs = Vec::new(alloc);
    let mut cpu = 0;
    for share in shares {
        jobs.push(Job { cpu, share })?;
        cpu += 1;
    }
    Ok(jobs)
}

/// What a worker does with the lock when it has it next. Behind a run of few steps, and where its CPU is not lent, it makes so
/// many turns under the lock, twice as many each time.
#[derive(Drop)]
enum Next {
    /// Its CPU is lent; so many turns come behind.
    Lend(u32),
    /// A run of its CPU comes home; so many turns come behind.
    Home(Run, u32),
    /// Its CPU has so many turns more; so many come behind the next run.
    Turns(u32, u32),
}

/// So many turns now, and twice as many behind the next run.
fn turns_now(turns: u32) -> Next {
    Next::Turns(turns, turns.saturating_mul(2).min(MOST_TURNS_BETWEEN))
}

/// One locking, in which the CPU is lent. None where the machine that is found has no such CPU.
fn lend_once<L: Ledger, R: Wait>(rt: &R, board: &Mutex<Board<L>>, cpu: u32) -> Option<Lend> {
    let mut guard = locked(rt, board);
    if cpu >= cpu_count(guard.machine()) {
        return None;
    }
    Some(guard.lend(cpu))
}

/// One locking, in which a run comes home. None where the machine that is found has no such CPU.
fn home_once<L: Ledger, R: Wait>(
    rt: &R,
    board: &Mutex<Board<L>>,
    share: &mut Share<L>,
    run: Run,
) -> Option<Home> {
    let mut guard = locked(rt, board);
    if run.cpu() >= cpu_count(guard.machine()) {
        return None;
    }
    Some(guard.home(share, run))
}

/// One locking: one turn of the CPU, or None where the machine that is found has no such CPU.
fn turn_once<L: Ledger, R: Wait>(
    rt: &R,
    board: &Mutex<Board<L>>,
    share: &mut Share<L>,
    cpu: u32,
) -> Option<Outcome> {
    let mut guard = board.lock(rt);
    if cpu >= cpu_count(guard.machine()) {
        return None;
    }
    Some(guard.turn(share, cpu))
}

/// Makes the steps of a run until it leaves.
fn make_steps(calls: &Calls, run: &mut Run) {
    for _ in 0..=MOST_STEPS {
        let called = calls.is_called(run.cpu());
        if matches!(run.step(called), RunStep::Leave(_)) {
            break;
        }
    }
}

/// Lends the CPU, and makes the steps of its run. None where the worker has come to its end.
fn go_away<L: Ledger, R: Wait, G: Gate>(
    rt: &R,
    board: &Mutex<Board<L>>,
    signals: &Signals,
    gate: &G,
    cpu: u32,
    turns: u32,
) -> Option<Next> {
    match lend_once(rt, board, cpu)? {
        Lend::Refused(_) => Some(turns_now(turns)),
        Lend::Run(run) => {
            let mut run = run;
            gate.pass(cpu);
            make_steps(&signals.calls, &mut run);
            Some(Next::Home(run, turns))
        }
    }
}

/// How many turns a run has brought that has come home so.
fn turns_in(home: Home) -> u32 {
    match home {
        Home::Taken(steps) => steps,
        Home::Discarded { .. } => 0,
    }
}

/// What comes behind a run that has come home so.
fn behind_run(home: Home, turns: u32) -> Next {
    match home {
        Home::Taken(steps) if steps >= WORTHWHILE_STEPS => Next::Lend(1),
        _ => turns_now(turns),
    }
}

/// Brings a run home. None where the worker has come to its end.
fn come_home<L: Ledger, R: Wait>(
    rt: &R,
    board: &Mutex<Board<L>>,
    signals: &Signals,
    share: &mut Share<L>,
    run: Run,
    turns: u32,
) -> Option<Next> {
    let cpu = run.cpu();
    let home = home_once(rt, board, share, run)?;
    signals.calls.clear(cpu);
    signals.paces.add(cpu, turns_in(home));
    Some(behind_run(home, turns))
}

/// One turn of the CPU; a CPU that has rejected its request is called home. Whether the worker goes on.
fn take_turn<L: Ledger, R: Wait, G: Gate>(
    rt: &R,
    board: &Mutex<Board<L>>,
    signals: &Signals,
    gate: &G,
    share: &mut Share<L>,
    cpu: u32,
) -> bool {
    let Some(outcome) = turn_once(rt, board, share, cpu) else {
        return false;
    };
    signals.paces.add(cpu, 1);
    gate.pass(cpu);
    if let Outcome::Rejected { by, .. } = outcome {
        signals.calls.call(by);
    }
    !matches!(outcome, Outcome::Halted | Outcome::Spent)
}

/// What comes behind one of so many turns.
fn behind_turn(left: u32, turns: u32) -> Next {
    if left > 1 {
        return Next::Turns(left - 1, turns);
    }
    Next::Lend(turns)
}

/// What the worker is to do next, done in one locking; and what then. None where it has come to its end.
fn go_on<L: Ledger, R: Wait, G: Gate>(
    rt: &R,
    board: &Mutex<Board<L>>,
    signals: &Signals,
    gate: &G,
    share: &mut Share<L>,
    cpu: u32,
    next: Next,
) -> Option<Next> {
    match next {
        Next::Lend(turns) => go_away(rt, board, signals, gate, cpu, turns),
        Next::Home(run, turns) => come_home(rt, board, signals, share, run, turns),
        Next::Turns(left, turns) => {
            if !take_turn(rt, board, signals, gate, share, cpu) {
                return None;
            }
            Some(behind_turn(left, turns))
        }
    }
}

/// Makes turns of the CPU of a job until it is finished or spent, in at most so many lockings: it is lent, its run comes home,
/// and behind a run of few steps it has some turns under the lock before it is lent again. Hands the share back.
pub fn work<L: Ledger, R: Wait, G: Gate>(
    rt: &R,
    board: &Mutex<Board<L>>,
    signals: &Signals,
    gate: &G,
    job: Job<L>,
    lockings: u64,
) -> Share<L> {
    let Job { cpu, mut share } = job;
    let mut next = Some(Next::Lend(1));
    let mut patience = PATIENCE;
    for at in 0..lockings {
        let Some(now) = next.take() else {
            break;
        };
        if at % LOCKINGS_BETWEEN == 0 {
            patience = signals.paces.wait(cpu, patience);
        }
        next = go_on(rt, board, signals, gate, &mut share, cpu, now);
    }
    signals.paces.end(cpu);
    share
}
