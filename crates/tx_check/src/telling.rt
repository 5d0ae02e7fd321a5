//! What a report has to tell of each CPU: what its history leaves, and beside it what the lines claim.
ghost use Rattle.std.specs.Prelude.{◌≡◌, ◌<◌, ◌+◌, ℕ, IfOk, IfSome, IfNone, Option, Some, length, count_by};
ghost use Rattle.std.specs.Prelude.{slice_get, get_or, List, OnOk, ◌++◌, ◌∷◌, []};
ghost use Rattle.z_regs.specs.Cpu.{cpu_of};
ghost use Rattle.tx_serial.specs.Apply.{may_act, is_running};
ghost use Rattle.tx_serial.specs.Flat.{Pending, address_of};
ghost use Rattle.tx_meaning.specs.Idle.{finished_by};
ghost use Rattle.tx_meaning.specs.Shown.{commits_of, aborts_of};
ghost use Rattle.tx_flat.specs.Machine.{state_of};
ghost use Rattle.report_form.specs.Sheet.{IsSheet};
ghost use Rattle.report_text.specs.Shown.{ShownCpu};
ghost use Rattle.tx_replay.specs.Ends.{AreEnds};
ghost use Rattle.tx_journal.specs.declared.entries.Entry.{Entry};
ghost use Rattle.tx_check.specs.Lines.{lines_of};
ghost use Rattle.tx_check.specs.Claims.{attempt_of, claim_of, counts_of};
ghost use Rattle.tx_check.specs.Told.{IsLive, IsTold, cpu_in};
ghost use Rattle.tx_check.specs.Sound.{Believes, IsPrinted, IsTaken, cpu_place};
ghost use Rattle.tx_check.specs.Seen.{shown_seen};

use crate::claims::{Claim, Tally, read_attempt, read_counts};
use crate::lines::nth_line;
use crate::writing::Seen;
use report_form::Sheet;
use report_text::Attempt;
use std::alloc::Global;
use tx_flat::Flat;
use tx_flat::showing::OpenRun;
use tx_journal::Image;
use tx_replay::{Ends, Replayed};
use z_regs::{CpuImage, NoMemory, RunState};

/// Lines in front of the first CPU's.
const HEAD_LINES: usize = 2;

/// Lines of a CPU, and which of them tell its attempt and its counts.
const CPU_LINES: usize = 11;

const ATTEMPT_LINE: usize = 8;

const COUNTS_LINE: usize = 10;

/// How many transactions of a CPU have been committed, and how many aborted.
#[derive(Clone, Copy)]
struct EndCounts {
    commits: u64,
    aborts: u64,
}

/// What the lines of a CPU claim of its attempt and its counts.
#[derive(Clone, Copy)]
struct Claimed {
    attempt: Option<Claim>,
    counts: Tally,
}

/// Whether a CPU in this state runs.
fn is_running(state: RunState) -> bool
    ensures { result ≡ is_running state }
{
    matches!(state, RunState::Running)
}

/// Whether a CPU runs, and nothing is pending for it.
fn may_act(flat: &Flat, cpu: u32) -> bool
    requires { cpu < length flat.now.slots }
    ensures { result ≡ may_act (state_of flat.now) cpu }
{
    let runs = is_running(flat.cpu(cpu).state);
    if !runs {
        return false;
    }
    flat.pending(cpu).is_none()
}

/// Whether a CPU is finished, by the address of the block that is pending for it.
fn is_finished(image: &CpuImage, pending: Option<u64>) -> bool
    ensures { (block : Option Pending) → pending ≡ address_of block
        → result ≡ finished_by block (cpu_of image.now) }
{
    if pending.is_some() {
        return false;
    }
    match image.state {
        RunState::Running => false,
        RunState::Halted => true,
        RunState::Interrupted(_) => image.prefix.is_none(),
    }
}

/// How the transactions of a CPU have ended.
fn ended(ends: &Ends, cpu: u32) -> EndCounts
    requires commits { cpu < length ends.now.commits.items }
    requires aborts { cpu < length ends.now.aborts.items }
    ensures commits { result.commits ≡ get_or ends.now.commits.items cpu 0 }
    ensures aborts { result.aborts ≡ get_or ends.now.aborts.items cpu 0 }
{
    EndCounts {
        commits: ends.commits[cpu as usize],
        aborts: ends.aborts[cpu as usize],
    }
}

/// The run of an attempt that a line claims, None exactly where the CPU cannot have it.
fn live_run(alloc: Global, flat: &Flat, cpu: u32, claim: Claim) -> Result<Option<OpenRun>, NoMemory>
    requires { cpu < length flat.now.slots }
    ensures live { IfOk result (λ o. IfSome o (λ r. IsLive (state_of flat.now) cpu (attempt_of claim))) }
    ensures depth { IfOk result (λ o. IfSome o (λ r. r.depth ≡ claim.depth)) }
    ensures image { IfOk result (λ o. IfSome o (λ r. cpu_of r.image
        ≡ cpu_in (state_of flat.now) cpu (Some (attempt_of claim)))) }
    ensures none { IfOk result (λ o. IfNone o (¬ IsLive (state_of flat.now) cpu (attempt_of claim))) }
{
    if claim.completed == 0 {
        return Ok(None);
    }
    if !may_act(flat, cpu) {
        return Ok(None);
    }
    let run = flat.open_run(alloc, cpu, claim.completed)?;
    let Some(run) = run else {
        return Ok(None);
    };
    if u64::from(run.depth) != claim.depth {
        return Ok(None);
    }
    Ok(Some(run))
}

/// The attempt of a CPU and its image: what a line claims where the CPU can have it, else without an attempt.
fn believed(
    alloc: Global,
    flat: &Flat,
    cpu: u32,
    claim: Option<Claim>,
) -> Result<(Option<Attempt>, CpuImage), NoMemory>
    requires { cpu < length flat.now.slots }
    ensures believes { IfOk result (λ r. Believes (state_of flat.now) cpu (claim_of claim) r.0) }
    ensures image { IfOk result (λ r. cpu_of r.1 ≡ cpu_in (state_of flat.now) cpu r.0) }
{
    let Some(claim) = claim else {
        return Ok((None, *flat.cpu(cpu)));
    };
    let run = live_run(alloc, flat, cpu, claim)?;
    let Some(run) = run else {
        return Ok((None, *flat.cpu(cpu)));
    };
    let attempt = Attempt {
        depth: run.depth,
        completed: claim.completed,
    };
    Ok((Some(attempt), run.image))
}

/// A CPU as it has to be told, by what its lines claim.
fn seen_of(
    alloc: Global,
    flat: &Flat,
    cpu: u32,
    ended: EndCounts,
    claimed: Claimed,
) -> Result<Seen, NoMemory>
    requires { cpu < length flat.now.slots }
    ensures told { IfOk result (λ s. (history : List Entry) → ended.commits ≡ count_by (commits_of cpu) history
        → ended.aborts ≡ count_by (aborts_of cpu) history
        → IsTold (state_of flat.now) history cpu (shown_seen s)) }
    ensures believes { IfOk result (λ s. Believes (state_of flat.now) cpu (claim_of claimed.attempt) s.attempt) }
    ensures turns { IfOk result (λ s. s.counts.turns ≡ claimed.counts.turns) }
    ensures asked { IfOk result (λ s. s.counts.asked ≡ claimed.counts.asked) }
    ensures rejected { IfOk result (λ s. s.counts.rejected ≡ claimed.counts.rejected) }
{
    let (attempt, image) = believed(alloc, flat, cpu, claimed.attempt)?;
    let pending = flat.pending(cpu);
    Ok(Seen {
        image,
        attempt,
        pending,
        counts: Tally {
            turns: claimed.counts.turns,
            asked: claimed.counts.asked,
            rejected: claimed.counts.rejected,
            commits: ended.commits,
            aborts: ended.aborts,
        },
        finished: is_finished(&image, pending),
    })
}

/// What the lines of a CPU claim.
fn claims_of(image: &Image, report: &[u8], sheet: Sheet, cpu: u32) -> Claimed
    requires sheet { IsSheet image.now (lines_of report.now) sheet }
    requires known { cpu < length image.now.cpus }
    ensures { IsPrinted (lines_of report.now) (cpu_place cpu) (claim_of result.attempt)
        (counts_of result.counts) }
{
    let first = HEAD_LINES + CPU_LINES * cpu as usize;
    Claimed {
        attempt: read_attempt(nth_line(report, first + ATTEMPT_LINE)),
        counts: read_counts(nth_line(report, first + COUNTS_LINE)),
    }
}

/// Adds a CPU to others.
fn add_seen(seen: &mut Vec<Seen>, one: Seen) -> Result<(), NoMemory>
    ensures { OnOk result (seen.new.items ≡ seen.old.items ++ one ∷ []) }
{
    seen.push(one)?;
    Ok(())
}

/// The CPUs as they have to be told, in the order of their numbers.
pub(crate) fn seen_cpus(
    alloc: Global,
    image: &Image,
    report: &[u8],
    sheet: Sheet,
    replayed: &Replayed,
) -> Result<Vec<Seen>, NoMemory>
    requires sheet { IsSheet image.now (lines_of report.now) sheet }
    requires cpus { length replayed.now.flat.slots ≡ length image.now.cpus }
    requires ends { (history : List Entry) × AreEnds history (length image.now.cpus) replayed.now.ends }
    ensures count { IfOk result (λ seen. length seen.items ≡ length image.now.cpus) }
    ensures told { IfOk result (λ seen. (history : List Entry)
        → AreEnds history (length image.now.cpus) replayed.now.ends → (i : ℕ) (s : Seen)
        → slice_get seen.items i ≡ Some s → IsTold (state_of replayed.now.flat) history i (shown_seen s)) }
    ensures taken { IfOk result (λ seen. (i : ℕ) (s : Seen) → slice_get seen.items i ≡ Some s
        → IsTaken (lines_of report.now) (cpu_place i) (state_of replayed.now.flat) i (shown_seen s)) }
{
    let mut seen = Vec::new(alloc);
    for cpu in 0..image.cpu_count() {
        let claimed = claims_of(image, report, sheet, cpu);
        let ended = ended(&replayed.ends, cpu);
        let one = seen_of(alloc, &replayed.flat, cpu, ended, claimed)?;
        add_seen(&mut seen, one)?;
    }
    Ok(seen)
}
