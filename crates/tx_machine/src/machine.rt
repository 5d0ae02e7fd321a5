//! The machine, as programs use it.
ghost use Rattle.std.specs.Prelude.{◌≡◌, ℕ, ◌+◌, ◌*◌, ◌^◌, ◌<◌, ◌≤◌, IfOk, None, true, length, slice_get};
ghost use Rattle.std.specs.Prelude.{All, count_by, ◌⊎◌, []};
ghost use Rattle.std.specs.Arc.{arc_value};
ghost use Rattle.z_regs.specs.Cpu.{cpu_of};
ghost use Rattle.z_regs.specs.Prefix.{storage_size};
ghost use Rattle.tx_journal.specs.Image.{cpu_of_event};
ghost use Rattle.tx_journal.specs.declared.events.Event.TheVariants.{Turn};
ghost use Rattle.tx_meaning.specs.Idle.{is_ready, is_finished, is_spent};
ghost use Rattle.tx_meaning.specs.Meaning.{is_external};
ghost use Rattle.tx_meaning.specs.Limits.{Setting};
ghost use Rattle.tx_meaning.specs.Meaning.{meaning};
ghost use Rattle.tx_meaning.specs.State as meant;
ghost use Rattle.tx_meaning.specs.Turn.{happen};
ghost use Rattle.tx_opacity.specs.Opacity.{SeesOneRun};
ghost use Rattle.tx_headline.specs.Queue.{QueueChanges, others_before};
ghost use Rattle.tx_ladder.specs.Waiting.{waits_in};
ghost use Rattle.tx_meaning.specs.Hits.{hits};
ghost use Rattle.tx_meaning.specs.Queues.{QueueMoves};
ghost use Rattle.tx_meaning.specs.Heads.{head_turns};
ghost use Rattle.tx_meaning.specs.State.{is_head};
ghost use Rattle.tx_meaning.specs.Stretches.{stretch_of, left, bound, attempt_turns};
ghost use Rattle.tx_meaning.specs.Stretches.{counted, is_counted_turn};
ghost use Rattle.tx_meaning.specs.Views.{GoesOnWith, KeepsViews, HoldsTouched};
ghost use Rattle.tx_serial.specs.History.{IsLegal};
ghost use Rattle.tx_serial.specs.Flat.{address_of};
ghost use Rattle.tx_serial.specs.Apply.{interruption_code};
ghost use Rattle.tx_home.specs.Parts.{local_of};
ghost use Rattle.tx_machine.specs.Machine.{IsLeft, Stands, setting_of, state_of, opened, event_of, after};
ghost use Rattle.tx_meaning.specs.Shown.{levels_at, counts_at, commits_of, aborts_of};
ghost use Rattle.tx_machine.specs.Machine.{code_awaited, counts_with, most_events};
ghost use Rattle.tx_machine.specs.Machine.{tally_at};
ghost use Rattle.tx_home.specs.Wanted.{wanted};

use crate::opening::{open_program, open_works};
use crate::runs::Runs;
use std::alloc::Global;
use std::marker::Model;
use std::sync::Arc;
use tx_home::{Cpu, Program, Tally, Works};
use tx_journal::{Entry, Event, Image};
use tx_meaning::{Counts, Limits, Outcome, Reject};
use z_regs::{CpuImage, NoMemory, RunState, Touches};

/// CPUs that share one storage, after events, with a run for each CPU that may be lent out. Contracts see a machine as its
/// image, its limits, the recorded events, the reject in the last event, and which runs are away; all else that it shows is
/// the meaning of those events.
#[derive(Drop)]
pub struct Machine {
    pub(crate) program: Arc<Program>,
    pub(crate) limits: Limits,
    pub(crate) works: Works,
    pub(crate) externals_left: u32,
    pub(crate) reject: Option<Reject>,
    pub(crate) runs: Runs,
}

impl Model for Machine {
    ghost use Rattle.std.specs.Arc.{arc_value};
    ghost use Rattle.tx_machine.specs.Machine.{IsWhole, Seen, seen_code};

    ghost Value = { Seen };

    ghost coded = { seen_code };

    ghost view = { λ m. record {
      image = arc_value m.program;
      limits = m.limits;
      events = m.works.events;
      reject = m.reject;
      away = m.runs;
    } };

    ghost invariant = { λ m. IsWhole record { image = arc_value m.program; limits = m.limits } m.works
        m.externals_left m.runs };
}

/// The code of the program interruption that a CPU in this state has.
fn code_of(state: RunState) -> u16
    ensures { result ≡ interruption_code state }
{
    match state {
        RunState::Running | RunState::Halted => 0,
        RunState::Interrupted(code) => code,
    }
}

/// The commits of a CPU.
fn commits_in(history: &[Entry], cpu: u32) -> u32
    requires { length history.now < 2 ^ 32 }
    ensures { result ≡ count_by (commits_of cpu) history.now }
{
    let commits = history.iter().filter(
        |entry| matches!(entry, Entry::Commit(other, _) if *other == cpu),
    );
    commits.count() as u32
}

/// The attempts of a CPU that were aborted.
fn aborts_in(history: &[Entry], cpu: u32) -> u32
    requires { length history.now < 2 ^ 32 }
    ensures { result ≡ count_by (aborts_of cpu) history.now }
{
    let aborts = history.iter().filter(
        |entry| matches!(entry, Entry::Abort(other, _, _) if *other == cpu),
    );
    aborts.count() as u32
}

/// The code of the interruption that a CPU has still to take.
fn code_awaited(cpu: &Cpu) -> Option<u16>
    ensures { let local = local_of cpu.now in result ≡ code_awaited local.attempt.cpu.state local.waiting }
{
    cpu.waiting().as_ref()?;
    Some(code_of(cpu.image().state))
}

/// What is counted of a CPU beside the history, and in it.
fn counts_of(tally: Tally, history: &[Entry], cpu: u32) -> Counts
    requires { length history.now < 2 ^ 32 }
    ensures { result ≡ counts_with tally history.now cpu }
{
    Counts {
        turns: tally.turns,
        asked: tally.asked,
        rejected: tally.rejected,
        commits: commits_in(history, cpu),
        aborts: aborts_in(history, cpu),
    }
}

/// How many external events may still come behind an event.
fn left_behind(e: Event, left: u32) -> u32
    requires { is_external e ≡ true → 0 < left }
    ensures { IsLeft e left result }
{
    match e {
        Event::Turn(_) => left,
        Event::External(_) => left - 1,
    }
}

/// One event more.
fn advance(
    program: &Program,
    limits: Limits,
    works: &mut Works,
    externals_left: &mut u32,
    reject: &mut Option<Reject>,
    e: Event,
) -> Outcome
    requires stands { Stands record { image = program.now; limits = limits } works.old externals_left.old }
    requires known { cpu_of_event e < length program.now.cpus }
    requires external { is_external e ≡ true → 0 < externals_left.old }
    ensures stands { Stands record { image = program.now; limits = limits } works.new externals_left.new }
    ensures state { let m : Setting = record { image = program.now; limits = limits } in
        meaning m works.new.events ≡ (happen m e (meaning m works.old.events)).state }
    ensures events { let m : Setting = record { image = program.now; limits = limits } in
        works.new.events ≡ (happen m e (meaning m works.old.events)).state.events }
    ensures reject { let m : Setting = record { image = program.now; limits = limits } in
        reject.new ≡ (happen m e (meaning m works.old.events)).reject }
    ensures outcome { let m : Setting = record { image = program.now; limits = limits } in
        result ≡ (happen m e (meaning m works.old.events)).outcome }
{
    let turned = works.happen(e, program, limits);
    *externals_left = left_behind(e, *externals_left);
    *reject = turned.reject;
    turned.outcome
}

/// One turn more, of a CPU that is ready.
#[inline(always)]
fn advance_ready(
    program: &Program,
    limits: Limits,
    works: &mut Works,
    externals_left: u32,
    reject: &mut Option<Reject>,
    cpu: u32,
) -> Outcome
    requires stands { Stands record { image = program.now; limits = limits } works.old externals_left }
    requires known { cpu < length program.now.cpus }
    requires ready { let m : Setting = record { image = program.now; limits = limits } in
        is_ready m (meaning m works.old.events) cpu ≡ true }
    ensures stands { Stands record { image = program.now; limits = limits } works.new externals_left }
    ensures state { let m : Setting = record { image = program.now; limits = limits } in
        meaning m works.new.events ≡ (happen m (Turn cpu) (meaning m works.old.events)).state }
    ensures events { let m : Setting = record { image = program.now; limits = limits } in
        works.new.events ≡ (happen m (Turn cpu) (meaning m works.old.events)).state.events }
    ensures reject { let m : Setting = record { image = program.now; limits = limits } in
        reject.new ≡ (happen m (Turn cpu) (meaning m works.old.events)).reject }
    ensures outcome { let m : Setting = record { image = program.now; limits = limits } in
        result ≡ (happen m (Turn cpu) (meaning m works.old.events)).outcome }
{
    let _left = externals_left;
    let turned = works.turn(cpu, program, limits);
    *reject = turned.reject;
    turned.outcome
}

impl Machine {
    /// A machine of an image, from which nothing has happened, and no run of which is away. It has room for all that can be
    /// recorded, and a run for each CPU, so no event takes memory. The error is want of memory.
    pub fn open(alloc: Global, image: Arc<Image>, limits: Limits) -> Result<Machine, NoMemory>
        ensures { IfOk result (λ machine. machine ≡ opened (arc_value image) limits) }
    {
        let externals_left = limits.externals;
        let cpus = image.cpu_count();
        let most = cpus as usize * limits.turns as usize + externals_left as usize + 1;
        let works = open_works(alloc, &image, most)?;
        let program = open_program(alloc, image)?;
        let runs = Runs::open(alloc, &program, cpus)?;
        Ok(Machine {
            program,
            limits,
            works,
            externals_left,
            reject: None,
            runs,
        })
    }

    /// One event more, of a CPU that there is; an external one only while some are left. Says what came of
    /// it. It takes no memory, and no run leaves or comes home by it.
    ///
    /// Behind every event the history is legal, and it only grows. No live attempt sees a mixed state: what it
    /// has seen is one private run on storage as it is now. What an attempt has touched is held. No CPU has more conflict aborts than lead to the stop queue, the queue
    /// changes at its ends alone, and for the reasons that there are; its head is never rejected, has at most 34
    /// turns, unless it is interrupted from outside, and alone has turns. A constrained transaction has no more
    /// turns than the retry ladder bounds: as long as it goes on, it has had fewer.
    pub fn event(&mut self, e: Event) -> Outcome
        requires known { cpu_of_event e < length self.old.image.cpus }
        requires external { is_external e ≡ true
            → count_by is_external self.old.events < self.old.limits.externals }
        ensures machine { self.new ≡ after self.old e }
        ensures outcome { result ≡ (event_of self.old e).outcome }
        ensures state { state_of self.new ≡ (event_of self.old e).state }
        ensures legal { IsLegal self.new.image (state_of self.new).history }
        ensures grows { GoesOnWith (state_of self.old).history (state_of self.new).history }
        ensures views { KeepsViews (setting_of self.old) (state_of self.old) (state_of self.new) }
        ensures opaque { SeesOneRun (setting_of self.old) (state_of self.old) (state_of self.new) }
        ensures held { HoldsTouched (setting_of self.new) (state_of self.new) }
        ensures few { (i : ℕ) →
            hits self.new.image (state_of self.new).history i ≤ self.new.image.parms.stop }
        ensures queue { QueueMoves (state_of self.old).queue (state_of self.new).queue }
        ensures head { (i : ℕ) → head_turns (setting_of self.old) self.old.events i
            + counted (is_counted_turn (setting_of self.old) (state_of self.old) e i) ≤ 34 }
        ensures unrejected { is_head (state_of self.old) (cpu_of_event e) ≡ true → (event_of self.old e).reject ≡ None }
        ensures turns { (i : ℕ) → let stretch = stretch_of (setting_of self.new) self.new.events i in
            stretch.is_open ≡ true → stretch.age + left (setting_of self.new) (state_of self.new) i
            ≤ bound self.new.image.parms + attempt_turns self.new.image.parms * stretch.externals }
        ensures some_left { (i : ℕ) → (stretch_of (setting_of self.new) self.new.events i).is_open ≡ true
            → 1 ≤ left (setting_of self.new) (state_of self.new) i }
        ensures ages { (i : ℕ) → let stretch = stretch_of (setting_of self.new) self.new.events i in
            stretch.is_open ≡ true → stretch.age
            < bound self.new.image.parms + attempt_turns self.new.image.parms * stretch.externals }
        ensures reasons { QueueChanges (setting_of self.old) (state_of self.old) e }
        ensures behind_few { (i : ℕ) → waits_in (state_of self.new).queue i ≡ true
            → others_before i (state_of self.new).queue < length self.new.image.cpus }
        ensures head_alone { (i : ℕ) → is_counted_turn (setting_of self.old) (state_of self.old) e i ≡ true
            → ((state_of self.old).queue ≡ []) ⊎ (is_head (state_of self.old) i ≡ true) }
    {
        advance(
            &self.program,
            self.limits,
            &mut self.works,
            &mut self.externals_left,
            &mut self.reject,
            e,
        )
    }

    /// One turn more, of a CPU that is ready: what `event` makes of it, and whether it is ready is not asked again. It takes no
    /// memory, and no run leaves or comes home by it. Behind it holds what holds behind every event.
    #[inline(always)]
    pub fn turn(&mut self, cpu: u32) -> Outcome
        requires known { cpu < length self.old.image.cpus }
        requires ready { is_ready (setting_of self.old) (state_of self.old) cpu ≡ true }
        ensures machine { self.new ≡ after self.old (Turn cpu) }
        ensures outcome { result ≡ (event_of self.old (Turn cpu)).outcome }
        ensures state { state_of self.new ≡ (event_of self.old (Turn cpu)).state }
        ensures legal { IsLegal self.new.image (state_of self.new).history }
        ensures grows { GoesOnWith (state_of self.old).history (state_of self.new).history }
        ensures views { KeepsViews (setting_of self.old) (state_of self.old) (state_of self.new) }
        ensures opaque { SeesOneRun (setting_of self.old) (state_of self.old) (state_of self.new) }
        ensures held { HoldsTouched (setting_of self.new) (state_of self.new) }
        ensures few { (i : ℕ) →
            hits self.new.image (state_of self.new).history i ≤ self.new.image.parms.stop }
        ensures queue { QueueMoves (state_of self.old).queue (state_of self.new).queue }
        ensures head { (i : ℕ) → head_turns (setting_of self.old) self.old.events i
            + counted (is_counted_turn (setting_of self.old) (state_of self.old) (Turn cpu) i) ≤ 34 }
        ensures unrejected { is_head (state_of self.old) cpu ≡ true → (event_of self.old (Turn cpu)).reject ≡ None }
        ensures turns { (i : ℕ) → let stretch = stretch_of (setting_of self.new) self.new.events i in
            stretch.is_open ≡ true → stretch.age + left (setting_of self.new) (state_of self.new) i
            ≤ bound self.new.image.parms + attempt_turns self.new.image.parms * stretch.externals }
        ensures some_left { (i : ℕ) → (stretch_of (setting_of self.new) self.new.events i).is_open ≡ true
            → 1 ≤ left (setting_of self.new) (state_of self.new) i }
        ensures ages { (i : ℕ) → let stretch = stretch_of (setting_of self.new) self.new.events i in
            stretch.is_open ≡ true → stretch.age
            < bound self.new.image.parms + attempt_turns self.new.image.parms * stretch.externals }
        ensures reasons { QueueChanges (setting_of self.old) (state_of self.old) (Turn cpu) }
        ensures behind_few { (i : ℕ) → waits_in (state_of self.new).queue i ≡ true
            → others_before i (state_of self.new).queue < length self.new.image.cpus }
        ensures head_alone { (i : ℕ) → is_counted_turn (setting_of self.old) (state_of self.old) (Turn cpu) i ≡ true
            → ((state_of self.old).queue ≡ []) ⊎ (is_head (state_of self.old) i ≡ true) }
    {
        advance_ready(
            &self.program,
            self.limits,
            &mut self.works,
            self.externals_left,
            &mut self.reject,
            cpu,
        )
    }

    /// What is recorded, in order: every event but turns that were idle, each of a CPU that there is. There are
    /// at most as many as all CPUs may have turns, with the external events added; and never fewer than entries
    /// in the history.
    pub fn events(&self) -> &[Event]
        ensures recorded { result.now ≡ self.now.events }
        ensures meant { result.now ≡ (state_of self.now).events }
        ensures known { All (λ e. cpu_of_event e < length self.now.image.cpus) result.now }
        ensures most { length result.now ≤ most_events (setting_of self.now) }
        ensures entries { length (state_of self.now).history ≤ length result.now }
    {
        self.works.events.as_slice()
    }

    /// The serial history: what has taken effect, in order.
    pub fn journal(&self) -> &[Entry]
        ensures { result.now ≡ (state_of self.now).history }
    {
        self.works.history.as_slice()
    }

    /// What the machine started from.
    pub fn image(&self) -> &Image
        ensures { result.now ≡ self.now.image }
    {
        self.program.image()
    }

    /// The same image, to be kept beside the machine. The error is want of memory.
    pub fn shared_image(&self) -> Result<Arc<Image>, NoMemory>
        ensures { IfOk result (λ image. arc_value image ≡ self.now.image) }
    {
        Ok(Arc::try_clone(self.program.shared())?)
    }

    /// How long it may run.
    pub fn limits(&self) -> Limits
        ensures { result ≡ self.now.limits }
    {
        self.limits
    }

    /// How many external events may still come.
    pub fn externals_left(&self) -> u32
        ensures { count_by is_external self.now.events + result ≡ self.now.limits.externals }
    {
        self.externals_left
    }

    /// The holder and the line of the reject in the last event; None exactly where there was none in it.
    pub fn last_reject(&self) -> Option<Reject>
        ensures { result ≡ self.now.reject }
    {
        self.reject
    }

    /// The CPU as its program sees it, in its attempt where one is live.
    pub fn cpu(&self, cpu: u32) -> &CpuImage
        requires { cpu < length self.now.image.cpus }
        ensures { cpu_of result.now ≡ meant.cpu_of (setting_of self.now) (state_of self.now) cpu }
    {
        self.works.slots[cpu as usize].cpu.image()
    }

    /// The byte of storage at an absolute address, as the history leaves it.
    pub fn byte(&self, address: u32) -> u8
        requires { address < storage_size }
        ensures { result ≡ (meant.flat_of (setting_of self.now) (state_of self.now)).storage address }
    {
        self.works.lines.byte(address)
    }

    /// The CPU at the head of the stop queue; None exactly where the queue is empty.
    pub fn queue_head(&self) -> Option<u32>
        ensures { result ≡ slice_get (state_of self.now).queue 0 }
    {
        self.works.queue.head()
    }

    /// Whether the next turn of the CPU would not be idle.
    pub fn ready(&self, cpu: u32) -> bool
        requires { cpu < length self.now.image.cpus }
        ensures { result ≡ is_ready (setting_of self.now) (state_of self.now) cpu }
    {
        self.works.idle(cpu, self.limits).is_none()
    }

    /// Whether the program of the CPU is at its end, and no block is left to be stored.
    pub fn finished(&self, cpu: u32) -> bool
        requires { cpu < length self.now.image.cpus }
        ensures { result ≡ is_finished (setting_of self.now) (state_of self.now) cpu }
    {
        self.works.is_finished(cpu)
    }

    /// Whether all turns of the CPU are counted.
    pub fn spent(&self, cpu: u32) -> bool
        requires { cpu < length self.now.image.cpus }
        ensures { result ≡ is_spent self.now.limits ((state_of self.now).numbers cpu) }
    {
        self.works.turns(cpu) >= self.limits.turns
    }

    /// How many begins are open, and how many instructions the attempt of the CPU has completed; None exactly
    /// where it has no live attempt.
    pub fn live(&self, cpu: u32) -> Option<(u32, u32)>
        requires { cpu < length self.now.image.cpus }
        ensures { result ≡ levels_at (setting_of self.now) (state_of self.now) cpu }
    {
        self.works.slots[cpu as usize].cpu.live()
    }

    /// The real address of the diagnostic block that is pending for the CPU; None exactly where none is.
    pub fn pending(&self, cpu: u32) -> Option<u64>
        requires { cpu < length self.now.image.cpus }
        ensures { let flat = meant.flat_of (setting_of self.now) (state_of self.now) in
            result ≡ address_of (flat.pending cpu) }
    {
        self.works.slots[cpu as usize].cpu.pending()
    }

    /// The code of the interruption that the CPU has still to take; None exactly where none waits.
    pub fn interruption(&self, cpu: u32) -> Option<u16>
        requires { cpu < length self.now.image.cpus }
        ensures { let m = setting_of self.now in let s = state_of self.now in
            result ≡ code_awaited (meant.cpu_of m s cpu).state ((meant.flat_of m s).waiting cpu) }
    {
        code_awaited(&self.works.slots[cpu as usize].cpu)
    }

    /// The bytes that the next turn of the CPU has to fetch or store, by absolute addresses: those of the block
    /// that is pending, else those of the interruption that waits, else those that its next instruction touches;
    /// none where that does not go. There are at most four ranges, each of at most 256 bytes of storage. A turn
    /// that is idle, a tick and a turn of waiting ask for none of them.
    pub fn wanted(&self, cpu: u32) -> Touches
        requires { cpu < length self.now.image.cpus }
        ensures value { result ≡ wanted (setting_of self.now) (state_of self.now) cpu }
        ensures small { All (λ r. r.length ≤ 256) result }
        ensures in_storage { All (λ r. r.first + r.length ≤ storage_size) result }
    {
        self.works.wanted(cpu, &self.program)
    }

    /// What is counted of the CPU; its commits and its aborts as the history has them.
    pub fn counts(&self, cpu: u32) -> Counts
        requires { cpu < length self.now.image.cpus }
        ensures { result ≡ counts_at (state_of self.now) cpu }
    {
        let tally = self.works.slots[cpu as usize].tally;
        counts_of(tally, self.works.history.as_slice(), cpu)
    }

    /// What is counted of the CPU beside the history. That has less than 2^32 entries, so what is counted in it
    /// for all CPUs at once fits 32 bits.
    pub fn tally(&self, cpu: u32) -> Tally
        requires { cpu < length self.now.image.cpus }
        ensures value { result ≡ tally_at (state_of self.now) cpu }
        ensures short { length (state_of self.now).history < 2 ^ 32 }
    {
        self.works.slots[cpu as usize].tally
    }
}
