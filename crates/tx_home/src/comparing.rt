//! What a run that comes home has started from, compared with the CPU as its machine has it now.
ghost use Rattle.std.specs.Prelude.{◌≡◌, ◌≤◌, true, None, IsTrue, ◌↔◌};
ghost use Rattle.z_regs.specs.Cpu.{cpu_of};
ghost use Rattle.tx_meaning.specs.Apply.{is_running};
ghost use Rattle.tx_works.specs.Same.{AreSameAttempts};
ghost use Rattle.tx_works.specs.Parts.{local_of};
ghost use Rattle.tx_works.specs.Stranger.{GoesOnLike};
ghost use Rattle.tx_works.specs.Works.{numbers_of};
ghost use Rattle.tx_home.specs.Places.{at, fits, may_go, turns_kept, attempt_of, head_of, prefix_value};
ghost use Rattle.tx_home.specs.Places.{in_general, in_access, in_status, in_registers, in_numbers};
ghost use Rattle.tx_home.specs.Taken.{AreAlikeInNumbers};

use crate::place::{Place, Unlike};
use tx_ladder::StopQueue;
use tx_meaning::Limits;
use tx_works::{Cpu, Run, Slot};
use z_regs::{CpuImage, RunState};

/// What the machine's value of a place has added where the turns of a run can't be made.
const OUT_OF_REACH: u64 = 1 << 32;

/// A place, where its two values are not the same.
pub(crate) fn at(place: Place, kept: u64, given: u64) -> Option<Unlike>
    ensures { result ≡ at place kept given }
{
    if kept == given {
        return None;
    }
    Some(Unlike { place, kept, given })
}

/// The first general register that differs.
fn unlike_general(kept: &CpuImage, given: &CpuImage) -> Option<Unlike>
    ensures value { result ≡ in_general kept.now.general given.now.general }
    ensures same { result ≡ None → kept.now.general ≡ given.now.general }
{
    for number in 0..16 {
        let place = Place::General(number as u8);
        if let Some(unlike) = at(place, kept.general[number], given.general[number]) {
            return Some(unlike);
        }
    }
    None
}

/// The first access register that differs.
fn unlike_access(kept: &CpuImage, given: &CpuImage) -> Option<Unlike>
    ensures value { result ≡ in_access kept.now.access given.now.access }
    ensures same { result ≡ None → kept.now.access ≡ given.now.access }
{
    for number in 0..16 {
        let place = Place::Access(number as u8);
        let before = u64::from(given.access[number]);
        if let Some(unlike) = at(place, u64::from(kept.access[number]), before) {
            return Some(unlike);
        }
    }
    None
}

/// A prefix as a number.
fn prefix_value(prefix: Option<u32>) -> u64
    ensures { result ≡ prefix_value prefix }
{
    match prefix {
        None => 0,
        Some(prefix) => u64::from(prefix),
    }
}

/// The first part of the program status, with the prefix, that differs.
fn unlike_status(kept: &CpuImage, given: &CpuImage) -> Option<Unlike>
    ensures value { result ≡ in_status (cpu_of kept.now) (cpu_of given.now) }
    ensures address { result ≡ None → kept.now.address ≡ given.now.address }
    ensures condition { result ≡ None → kept.now.condition ≡ given.now.condition }
    ensures mask { result ≡ None → kept.now.mask ≡ given.now.mask }
    ensures prefix { result ≡ None → kept.now.prefix ≡ given.now.prefix }
{
    at(Place::Address, kept.address, given.address)
        .or(at(
            Place::Condition,
            u64::from(kept.condition),
            u64::from(given.condition),
        ))
        .or(at(Place::Mask, u64::from(kept.mask), u64::from(given.mask)))
        .or(at(
            Place::Prefix,
            prefix_value(kept.prefix),
            prefix_value(given.prefix),
        ))
}

/// The first register that differs. Where none does, the CPUs are the same where both run.
pub(crate) fn unlike_registers(kept: &CpuImage, given: &CpuImage) -> Option<Unlike>
    ensures value { result ≡ in_registers (cpu_of kept.now) (cpu_of given.now) }
    ensures same { result ≡ None → is_running kept.now.state ≡ true → is_running given.now.state ≡ true
        → cpu_of kept.now ≡ cpu_of given.now }
{
    if let Some(unlike) = unlike_general(kept, given) {
        return Some(unlike);
    }
    if let Some(unlike) = unlike_access(kept, given) {
        return Some(unlike);
    }
    unlike_status(kept, given)
}

/// Whether so many turns more are allowed, and none of them is a tick.
fn fits(limits: Limits, turns: u32, k: u32) -> bool
    requires few { k ≤ 64 }
    ensures { result ≡ fits limits turns k }
{
    if limits.turns < turns || limits.turns - turns < k {
        return false;
    }
    if limits.tick == 0 {
        return true;
    }
    turns % limits.tick + k < limits.tick
}

/// Whether the CPU may have so many turns with nothing but its next instructions in them.
fn may_go(limits: Limits, slot: &Slot, k: u32) -> bool
    requires few { k ≤ 64 }
    ensures { result ≡ may_go limits k (local_of slot.now.cpu) (numbers_of slot.now) }
{
    if !matches!(slot.cpu.image().state, RunState::Running) {
        return false;
    }
    if slot.cpu.pending().is_some() || slot.cpu.waiting().is_some() {
        return false;
    }
    slot.tally.delay == 0 && fits(limits, slot.tally.turns, k)
}

/// The instructions that the live attempt of a CPU has completed; 0 where none is live.
fn completed(cpu: &Cpu) -> u32
    ensures { result ≡ (local_of cpu.now).attempt.count }
{
    match cpu.live() {
        None => 0,
        Some((_, completed)) => completed,
    }
}

/// The number of the live attempt, or 0.
pub(crate) fn attempt(slot: &Slot) -> u32
    ensures { result ≡ attempt_of (numbers_of slot.now) }
{
    if completed(&slot.cpu) == 0 {
        return 0;
    }
    slot.tally.attempts
}

/// The head of the stop queue as a number.
fn head(queue: &StopQueue) -> u64
    ensures { result ≡ head_of queue.now.order }
{
    match queue.head() {
        None => 0,
        Some(head) => u64::from(head) + 1,
    }
}

/// Whether it is seen at one look that both attempts are the same: neither is live, so that nothing is left of earlier ones.
fn both_rest(kept: &Cpu, given: &Cpu) -> bool
    ensures value { result ≡ true → AreSameAttempts (local_of kept.now).attempt (local_of given.now).attempt }
    ensures like { result ≡ true → (local_of kept.now).attempt.cpu ≡ (local_of given.now).attempt.cpu
        → GoesOnLike (local_of given.now).attempt (local_of kept.now).attempt }
{
    if kept.live().is_some() || given.live().is_some() {
        return false;
    }
    kept.is_sound();
    given.is_sound();
    true
}

/// Whether both attempts have the same begins, the same footprint and the same constraints. Where they do, and where the CPUs
/// are the same and as many instructions are completed, the one goes on like the other.
pub(crate) fn same_attempt(kept: &Cpu, given: &Cpu) -> bool
    ensures value { IsTrue result ↔ AreSameAttempts (local_of kept.now).attempt (local_of given.now).attempt }
    ensures like { result ≡ true → (local_of kept.now).attempt.cpu ≡ (local_of given.now).attempt.cpu
        → (local_of kept.now).attempt.count ≡ (local_of given.now).attempt.count
        → GoesOnLike (local_of given.now).attempt (local_of kept.now).attempt }
{
    if both_rest(kept, given) {
        return true;
    }
    kept.is_sound();
    given.is_sound();
    kept.same_attempt(given)
}

/// The counted turns of the CPU, out of reach where those of the run can't be made.
fn turns(slot: &Slot, same: bool, limits: Limits, k: u32) -> u64
    requires few { k ≤ 64 }
    ensures { result ≡ turns_kept same limits k (local_of slot.now.cpu) (numbers_of slot.now) }
{
    let turns = u64::from(slot.tally.turns);
    if same && may_go(limits, slot, k) {
        return turns;
    }
    turns + OUT_OF_REACH
}

/// The first number that differs.
pub(crate) fn unlike_numbers(
    slot: &Slot,
    queue: &StopQueue,
    run: &Run,
    same: bool,
    limits: Limits,
) -> Option<Unlike>
    ensures value { result ≡ in_numbers same limits run.now queue.now.order (local_of slot.now.cpu) (numbers_of slot.now) }
    ensures alike { result ≡ None
        → AreAlikeInNumbers same limits run.now queue.now.order (local_of slot.now.cpu) (numbers_of slot.now) }
{
    run.is_lent();
    let kept = turns(slot, same, limits, run.steps());
    at(
        Place::Attempt,
        u64::from(attempt(slot)),
        u64::from(run.attempt()),
    )
    .or(at(
        Place::Completed,
        u64::from(completed(&slot.cpu)),
        u64::from(completed(run.start())),
    ))
    .or(at(Place::Turns, kept, u64::from(run.turns())))
    .or(at(Place::Head, head(queue), 0))
}
