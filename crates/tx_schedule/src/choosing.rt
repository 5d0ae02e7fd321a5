//! Which of the ready CPUs has the next turn.
ghost use Rattle.std.specs.Prelude.{◌≡◌, ℕ, Bool, true, ◌<◌, ◌≤◌, ◌/◌, ◌^◌, IfSome, All, length};
ghost use Rattle.tx_meaning.specs.Idle.{is_ready};
ghost use Rattle.tx_meaning.specs.Schedules.{ready_cpus, drawn_after, chosen_next, Drawing, Round};
ghost use Rattle.tx_machine.specs.Machine.{setting_of, state_of};
ghost use Rattle.tx_schedule.specs.Next.{choosing_by, first_at, next_among, place_among};

use arrayvec::ArrayVec;
use tx_machine::machine::Machine;

/// The most CPUs of a machine.
const MOST_CPUS: usize = 16;

/// What a number is multiplied by for the next one.
const FACTOR: u64 = 6_364_136_223_846_793_005;

/// What is added then.
const STEP: u64 = 1_442_695_040_888_963_407;

/// How turns are given to ready CPUs.
#[derive(Clone, Copy)]
pub enum Order {
    /// Drawn, the next one by the number behind this one.
    Drawn(u64),
    /// In the round, from this CPU on.
    Round(u32),
}

/// The number that is drawn behind this one.
fn drawn_behind(x: u64) -> u64
    ensures { result ≡ drawn_after x }
{
    x.wrapping_mul(FACTOR).wrapping_add(STEP)
}

/// The number of CPUs: at least one, and at most 16.
pub fn cpu_count(machine: &Machine) -> u32
    ensures count { result ≡ length machine.now.image.cpus }
    ensures some { 0 < result }
    ensures few { result ≤ 16 }
{
    machine.image().cpu_count()
}

/// The ready CPUs, in rising order.
fn ready_among(machine: &Machine) -> ArrayVec<u32, MOST_CPUS>
    ensures value { result.items ≡ ready_cpus (setting_of machine.now) (state_of machine.now) }
    ensures known { All (λ cpu. cpu < length machine.now.image.cpus) result.items }
    ensures ready { All (λ cpu. is_ready (setting_of machine.now) (state_of machine.now) cpu ≡ true) result.items }
{
    let mut ready = ArrayVec::new();
    for cpu in 0..cpu_count(machine) {
        if machine.ready(cpu) {
            ready.push(cpu);
        }
    }
    ready
}

/// The CPU that a number draws; None exactly where there is none.
fn pick(ready: &[u32], x: u64) -> Option<u32>
    ensures value { result ≡ place_among (x / 2 ^ 33) ready.now }
    ensures known { (limit : ℕ) → All (λ cpu. cpu < limit) ready.now → IfSome result (λ cpu. cpu < limit) }
    ensures alike { (test : ℕ → Bool) → All (λ cpu. test cpu ≡ true) ready.now
        → IfSome result (λ cpu. test cpu ≡ true) }
{
    if ready.is_empty() {
        return None;
    }
    let place = (x >> 33) as usize % ready.len();
    Some(ready[place])
}

/// The ready CPU that a number draws; None exactly where none is ready.
#[inline(never)]
fn pick_ready(machine: &Machine, x: u64) -> Option<u32>
    ensures value { result
        ≡ place_among (x / 2 ^ 33) (ready_cpus (setting_of machine.now) (state_of machine.now)) }
    ensures known { IfSome result (λ cpu. cpu < length machine.now.image.cpus) }
    ensures ready { IfSome result (λ cpu. is_ready (setting_of machine.now) (state_of machine.now) cpu ≡ true) }
{
    pick(ready_among(machine).as_slice(), x)
}

/// The lowest ready CPU at or above a number; None exactly where there is none.
fn first_ready(machine: &Machine, from: u32) -> Option<u32>
    ensures value { result ≡ first_at from (ready_cpus (setting_of machine.now) (state_of machine.now)) }
    ensures known { IfSome result (λ cpu. cpu < length machine.now.image.cpus) }
    ensures ready { IfSome result (λ cpu. is_ready (setting_of machine.now) (state_of machine.now) cpu ≡ true) }
    ensures few { IfSome result (λ cpu. cpu < 16) }
{
    for next in from..cpu_count(machine) {
        if machine.ready(next) {
            return Some(next);
        }
    }
    None
}

/// The lowest ready CPU at or above a number, else the lowest ready one; None exactly where none is ready.
#[inline(never)]
fn search_round(machine: &Machine, from: u32) -> Option<u32>
    ensures value { result
        ≡ next_among (Round from) (ready_cpus (setting_of machine.now) (state_of machine.now)) }
    ensures known { IfSome result (λ cpu. cpu < length machine.now.image.cpus) }
    ensures ready { IfSome result (λ cpu. is_ready (setting_of machine.now) (state_of machine.now) cpu ≡ true) }
    ensures few { IfSome result (λ cpu. cpu < 16) }
{
    match first_ready(machine, from) {
        Some(cpu) => Some(cpu),
        None => first_ready(machine, 0),
    }
}

/// Where the round goes on from a number: behind the last CPU with the first.
#[inline(always)]
fn place_in_round(machine: &Machine, from: u32) -> u32
    ensures same { let ready = ready_cpus (setting_of machine.now) (state_of machine.now) in
        next_among (Round result) ready ≡ next_among (Round from) ready }
    ensures known { result < length machine.now.image.cpus }
    ensures few { result < 16 }
{
    if from >= cpu_count(machine) {
        return 0;
    }
    from
}

/// The CPU that the round has next from a number on; None exactly where none is ready. Mostly it is the first
/// that is asked.
#[inline(always)]
fn next_in_round(machine: &Machine, from: u32) -> Option<u32>
    ensures value { result
        ≡ next_among (Round from) (ready_cpus (setting_of machine.now) (state_of machine.now)) }
    ensures known { IfSome result (λ cpu. cpu < length machine.now.image.cpus) }
    ensures ready { IfSome result (λ cpu. is_ready (setting_of machine.now) (state_of machine.now) cpu ≡ true) }
    ensures few { IfSome result (λ cpu. cpu < 16) }
{
    let first = place_in_round(machine, from);
    if machine.ready(first) {
        return Some(first);
    }
    search_round(machine, first)
}

impl Order {
    /// The CPU that has the next turn; None exactly where none is ready.
    #[inline(always)]
    pub fn next(&mut self, machine: &Machine) -> Option<u32>
        ensures cpu { result ≡ next_among (choosing_by self.old)
            (ready_cpus (setting_of machine.now) (state_of machine.now)) }
        ensures order { IfSome result (λ cpu.
            choosing_by self.new ≡ chosen_next (choosing_by self.old) cpu) }
        ensures known { IfSome result (λ cpu. cpu < length machine.now.image.cpus) }
        ensures ready { IfSome result (λ cpu. is_ready (setting_of machine.now) (state_of machine.now) cpu ≡ true) }
    {
        match *self {
            Order::Drawn(before) => {
                let x = drawn_behind(before);
                let cpu = pick_ready(machine, x)?;
                *self = Order::Drawn(x);
                Some(cpu)
            }
            Order::Round(from) => {
                let cpu = next_in_round(machine, from)?;
                *self = Order::Round(cpu + 1);
                Some(cpu)
            }
        }
    }
}
