//! A CPU is lent.
ghost use Rattle.std.specs.Prelude.{◌≡◌, ℕ, ◌+◌, ◌<◌, ◌≤◌, ◌^◌, true, Some, None, length, if◌then◌else◌};
ghost use Rattle.tx_journal.specs.Content.{Content};
ghost use Rattle.tx_meaning.specs.Apply.{is_running};
ghost use Rattle.tx_meaning.specs.Limits.{RunLimits};
ghost use Rattle.tx_works.specs.Works.{Seat, kept_by};
ghost use Rattle.tx_home.specs.Lending.{has_some, own_refusal, refusal_of, allowance_of, IsLentBy};
ghost use Rattle.tx_home.specs.declared.lending.Refusal.TheVariants.{Queue};

use crate::comparing::attempt;
use tx_ladder::StopQueue;
use tx_meaning::Limits;
use tx_works::{Run, Works, is_tick};

/// The most steps that a run may make.
const MOST_STEPS: u32 = 64;

/// Why a CPU is not lent.
#[derive(Clone, Copy, Debug, PartialEq, Eq)]
pub enum Refusal {
    /// Its next turn would be idle.
    Idle,
    /// It waits for some turns.
    Delayed,
    /// A block or an interruption is left to do.
    Pending,
    /// Its next counted turn is a tick.
    TickDue,
    /// The stop queue is not empty.
    Queue,
    /// A run of it was lent, and has not come home.
    Away,
}

/// Why the CPU itself can't be lent.
fn own_refusal(works: &Works, cpu: u32, limits: Limits) -> Option<Refusal>
    requires { cpu < length works.now.slots }
    ensures { (rest : Seat) (image : Content) → result
        ≡ own_refusal record { image = image; limits = limits } cpu (kept_by rest works.now) }
{
    if works.idle(cpu, limits).is_some() {
        return Some(Refusal::Idle);
    }
    let slot = &works.slots[cpu as usize];
    if slot.tally.delay > 0 {
        return Some(Refusal::Delayed);
    }
    if slot.cpu.pending().is_some() || slot.cpu.waiting().is_some() {
        return Some(Refusal::Pending);
    }
    if is_tick(limits, slot.tally.turns + 1) {
        return Some(Refusal::TickDue);
    }
    None
}

/// Why no CPU is lent.
fn refusal_of_all(queue: &StopQueue) -> Option<Refusal>
    ensures { result ≡ (if has_some queue.now.order then Some Queue else None) }
{
    if queue.head().is_some() {
        return Some(Refusal::Queue);
    }
    None
}

/// Why the machine does not lend a CPU, by all that it keeps: the first of the reasons that holds, in their order, but for
/// `Away`; None exactly where none does.
pub fn why_kept(works: &Works, cpu: u32, limits: Limits) -> Option<Refusal>
    requires { cpu < length works.now.slots }
    ensures { (rest : Seat) (image : Content) → result
        ≡ refusal_of record { image = image; limits = limits } cpu (kept_by rest works.now) }
{
    own_refusal(works, cpu, limits).or(refusal_of_all(&works.queue))
}

/// How many steps a run may make that begins after so many counted turns: at most 64, no more than turns are left, and none
/// that would be a tick.
pub fn allowance(limits: Limits, turns: u32) -> u32
    ensures value { result ≡ allowance_of limits turns }
    ensures most { result ≤ 64 }
{
    let most = if turns < limits.turns {
        MOST_STEPS.min(limits.turns - turns)
    } else {
        0
    };
    if limits.tick == 0 {
        return most;
    }
    most.min(limits.tick - 1 - turns % limits.tick)
}

/// Makes a run one of its CPU as it is now, which is running, with the lines that the CPU holds. The machine itself stays
/// whole.
pub fn lend(works: &Works, run: &mut Run, limits: Limits)
    requires cpu { run.old.cpu < length works.now.slots }
    requires runs { (rest : Seat) → is_running ((kept_by rest works.now).locals run.old.cpu).attempt.cpu.state ≡ true }
    ensures lent { (rest : Seat) → IsLentBy limits (kept_by rest works.now) run.old.cpu run.new }
    ensures stays { (run.new.text ≡ run.old.text) × (run.new.image ≡ run.old.image) }
{
    let cpu = run.cpu();
    let slot = &works.slots[cpu as usize];
    let turns = slot.tally.turns;
    run.load(&slot.cpu, turns, attempt(slot), allowance(limits, turns));
    works.lines.lend(cpu, run);
}
