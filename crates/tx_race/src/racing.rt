//! A race: workers for all CPUs, and then the rest of the round.
ghost use Rattle.std.specs.Prelude.{◌≡◌, ◌+◌, ◌≤◌, [], length, vec_len, IfOk, IfSome};
ghost use Rattle.tx_board.specs.Shares.{IsOfSameRun, HasTurnsAlone, shares_for};
ghost use Rattle.tx_board.specs.Ran.{HasNoneReady};

use crate::gate::Gate;
use crate::workers::{Job, Signals, jobs_of, work};
use std::alloc::Global;
use std::marker::Brand;
use std::sync::ledger::Ledger;
use std::sync::{Mutex, Wait, ledger};
use std::thread;
use std::thread::Threads;
use tx_board::{
    Blank, Board, Lend, Machine, NoMemory, Raced, Share, cpu_count, finish_round, is_of_run,
    run_again,
};
use tx_meaning::Limits;

/// The most lockings of a worker.
fn lockings_of(limits: Limits) -> u64 {
    4 * u64::from(limits.turns) + 1000
}

/// Workers make the turns of a board's machine, one for each job, in so many lockings at most; hands back the board, and
/// the shares. None where memory is wanting.
fn work_all<L: Ledger + Send + Sync, R: Threads + Wait + Sync, G: Gate>(
    rt: &R,
    board: Board<L>,
    jobs: Vec<Job<L>>,
    signals: &Signals,
    gate: &G,
    lockings: u64,
) -> Option<(Board<L>, Vec<Share<L>>)>
    ensures all { IfSome result (λ r. vec_len r.1 ≡ vec_len jobs) }
{
    let board = Mutex::new(board);
    let shared = &board;
    let done = thread::map_vec(
        rt,
        jobs,
        &|job: Job<L>| work(rt, shared, signals, gate, job, lockings),
    );
    match done {
        Ok(shares) => Some((board.into_inner(), shares)),
        Err(_) => None,
    }
}

/// Sees to it that the first run of each CPU is made before the workers start, since that writes megabytes: the CPUs are lent,
/// and come home without steps.
fn make_runs<L: Ledger>(board: &mut Board<L>, share: &mut Share<L>) {
    for cpu in 0..cpu_count(board.machine()) {
        make_run(board, share, cpu);
    }
}

/// The same of one CPU, where the machine that is found has it.
fn make_run<L: Ledger>(board: &mut Board<L>, share: &mut Share<L>, cpu: u32) {
    if cpu >= cpu_count(board.machine()) {
        return;
    }
    let Lend::Run(run) = board.lend(cpu) else {
        return;
    };
    if run.cpu() < cpu_count(board.machine()) {
        board.home(share, run);
    }
}

/// The race on one ledger.
fn race_on<L: Ledger + Send + Sync, R: Threads + Wait + Sync, G: Gate>(
    rt: &R,
    alloc: Global,
    machine: Machine,
    blank: ledger::Blank,
    gate: &G,
) -> Result<Raced, NoMemory>
    requires name { blank.name ≡ L.name }
    requires parts { blank.parts ≡ L.parts }
    requires all { L.parts ≡ shares_for machine.image }
    requires unused { machine.events ≡ [] }
    ensures same { IfOk result (λ r. IsOfSameRun machine r.machine) }
    ensures none { IfOk result (λ r. HasNoneReady r.machine) }
    ensures counted { IfOk result (λ r. r.worked + r.finished ≡ length r.machine.events) }
    ensures homed { IfOk result (λ r. r.homed ≤ length r.machine.events) }
{
    let image = machine.shared_image()?;
    let limits = machine.limits();
    let lockings = lockings_of(limits);
    let signals = Signals::open(alloc, image.cpu_count())?;
    let (board, shares) = Board::open(alloc, machine, Blank::<L>::new(blank))?;
    let mut board = board;
    let mut shares = shares;
    let mut last = shares.pop().unwrap();
    make_runs(&mut board, &mut last);
    let Ok(jobs) = jobs_of(alloc, shares) else {
        drop(board);
        return Err(NoMemory);
    };
    let Some((mut board, mut shares)) = work_all(rt, board, jobs, &signals, gate, lockings) else {
        return Err(NoMemory);
    };
    if !is_of_run(board.machine(), &image, limits) {
        drop(board);
        return run_again(alloc, image, limits);
    }
    finish_round(&mut board, &mut last);
    if shares.push(last).is_err() {
        drop(board);
        return Err(NoMemory);
    }
    Ok(board.close(shares))
}

/// Where no event may come from outside, none has come.
fn has_turns_alone(raced: &Raced)
    requires { raced.now.machine.limits.externals ≡ 0 }
    ensures { HasTurnsAlone raced.now.machine }
{
    let _left = raced.machine.externals_left();
}

/// Lets the CPUs of a machine race until none is ready. Each CPU's turns are made by a worker, under one lock, in
/// a thread of its own; where none can be made, the thread that calls does its work. A worker has its CPU lent, makes the
/// turns that it may make away from the machine without the lock, and brings them home; behind a run of few steps its CPU
/// has turns under the lock first. A worker whose CPU is far ahead of another lets others run, but not for ever. It passes
/// the gate while its CPU is lent, and behind a turn under the lock, and ends when its CPU is finished or spent, or after a
/// number of lockings that the limits bound. Behind them the thread that calls gives the rest of the turns in the round.
///
/// The machine that comes back has the same image and the same limits, as many recorded events as the workers and
/// the thread that called have made, and turns alone among them; no CPU of it is ready. `homed` of them were brought home. Where the workers left a
/// machine of another image or other limits, the thread that called has made the run again alone, and `worked` is
/// 0. The error is want of memory; all threads have ended then, too.
pub fn race<R: Threads + Wait + Sync, G: Gate>(
    rt: &R,
    alloc: Global,
    machine: Machine,
    gate: &G,
) -> Result<Raced, NoMemory>
    requires unused { machine.events ≡ [] }
    requires externals { machine.limits.externals ≡ 0 }
    ensures same { IfOk result (λ r. IsOfSameRun machine r.machine) }
    ensures turns { IfOk result (λ r. HasTurnsAlone r.machine) }
    ensures none { IfOk result (λ r. HasNoneReady r.machine) }
    ensures counted { IfOk result (λ r. r.worked + r.finished ≡ length r.machine.events) }
    ensures homed { IfOk result (λ r. r.homed ≤ length r.machine.events) }
{
    let blank = ledger::Blank::new(u64::from(cpu_count(&machine)) + 1);
    let raced = race_on::<Brand, R, G>(rt, alloc, machine, blank, gate)?;
    has_turns_alone(&raced);
    Ok(raced)
}
