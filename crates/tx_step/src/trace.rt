//! A run of a machine, forward and back.
ghost use Rattle.std.specs.Prelude.{◌≡◌, ℕ, ◌+◌, ◌++◌, ◌∷◌, [], ◌<◌, ◌≤◌, IfOk, All, true, false, length};
ghost use Rattle.std.specs.Prelude.{count_by};
ghost use Rattle.std.specs.Arc.{arc_value};
ghost use Rattle.z_regs.specs.Cpu.{cpu_of};
ghost use Rattle.z_regs.specs.Prefix.{storage_size};
ghost use Rattle.tx_serial.specs.Flat.{address_of};
ghost use Rattle.tx_journal.specs.Image.{cpu_of_event};
ghost use Rattle.tx_serial.specs.History.{IsLegal};
ghost use Rattle.tx_meaning.specs.Meaning.{IsSetting, is_external};
ghost use Rattle.tx_meaning.specs.Views.{GoesOnWith, KeepsViews};
ghost use Rattle.step_changes.specs.Stored.{has, may_be_live};
ghost use Rattle.tx_meaning.specs.State as meant;
ghost use Rattle.tx_machine.specs.Machine.{setting_of, state_of, event_of, after, opened};
ghost use Rattle.tx_meaning.specs.Meaning.{meaning};
ghost use Rattle.tx_meaning.specs.Shown.{levels_at};
ghost use Rattle.tx_step.specs.Traces.{Traced, IsTraced, setting_in, state_at, at_start, moved_to};
ghost use Rattle.tx_step.specs.Traces.{forward_from, back_from};
ghost use Rattle.tx_step.specs.Stored.{Covers};

use crate::shown::MachineSight;
use std::alloc::{AllocError, Global};
use std::marker::Model;
use std::sync::Arc;
use step_changes::stored::{Asked, StoredLines};
use step_changes::view::{Step, View};
use tx_journal::{Event, Image};
pub use tx_machine::NoMemory;
use tx_machine::machine::Machine;
use tx_meaning::Limits;
use z_regs::CpuImage;

/// A run of a machine, which stands behind some of its recorded events and shows what they mean. Contracts see it
/// as its image, its limits, the recorded events, and its position: how many of them are behind it. Going forward
/// and back takes no memory, and time by what changes.
#[derive(Drop)]
pub struct Trace {
    machine: Machine,
    view: View,
    steps: Vec<Step>,
    position: usize,
}

impl Model for Trace {
    ghost use Rattle.tx_step.specs.Traces.{Traced, traced_code, IsTraced};

    ghost Value = { Traced };

    ghost coded = { traced_code };

    ghost view = { λ t. record {
      image = t.machine.image;
      limits = t.machine.limits;
      events = t.machine.events;
      position = t.position;
    } };

    ghost invariant = { λ t. IsTraced t.machine t.view t.steps.items t.position };
}

/// Whether an event is recorded: every one but a turn that is idle.
fn is_recorded(machine: &Machine, e: Event) -> bool
    requires { cpu_of_event e < length machine.now.image.cpus }
    ensures recorded { result ≡ true → (event_of machine.now e).state.events ≡ machine.now.events ++ e ∷ [] }
    ensures idle { result ≡ false → (event_of machine.now e).state.events ≡ machine.now.events }
{
    let _events = machine.events();
    match e {
        Event::Turn(cpu) => machine.ready(cpu),
        Event::External(_) => true,
    }
}

/// The CPU of an event.
fn cpu_in(e: Event) -> u32
    ensures { result ≡ cpu_of_event e }
{
    match e {
        Event::Turn(cpu) | Event::External(cpu) => cpu,
    }
}

/// One event more: of what a machine says of it only what is followed here.
fn happen(machine: &mut Machine, e: Event)
    requires known { cpu_of_event e < length machine.old.image.cpus }
    requires external { is_external e ≡ true
        → count_by is_external machine.old.events < machine.old.limits.externals }
    ensures machine { machine.new ≡ after machine.old e }
    ensures state { state_of machine.new ≡ (event_of machine.old e).state }
    ensures legal { IsLegal machine.new.image (state_of machine.new).history }
    ensures grows { GoesOnWith (state_of machine.old).history (state_of machine.new).history }
    ensures views { KeepsViews (setting_of machine.old) (state_of machine.old) (state_of machine.new) }
{
    let _outcome = machine.event(e);
}

/// Where the history has grown, only lines of CPUs are kept that may have live attempts.
fn keep_live(stored: &mut StoredLines, view: &View, step: &Step)
    ensures { (i n : ℕ) → may_be_live view.now.cpus i ≡ true → has stored.old i n ≡ true
        → has stored.new i n ≡ true }
{
    if step.before != step.after {
        stored.keep_live(view.cpus());
    }
}

/// One event more, and what it changes; the lines are those that live attempts may have stored into.
fn follow(
    alloc: Global,
    machine: &mut Machine,
    view: &mut View,
    stored: &mut StoredLines,
    steps: &mut Vec<Step>,
    e: Event,
) -> Result<(), AllocError>
    requires setting { IsSetting (setting_of machine.old) }
    requires known { cpu_of_event e < length machine.old.image.cpus }
    requires external { is_external e ≡ true
        → count_by is_external machine.old.events < machine.old.limits.externals }
    requires traced { IsTraced machine.old view.old steps.old.items (length steps.old.items) }
    requires covers { Covers (setting_of machine.old) (state_of machine.old) stored.old }
    ensures machine { IfOk result (λ _. machine.new ≡ after machine.old e) }
    ensures state { IfOk result (λ _. state_of machine.new ≡ (event_of machine.old e).state) }
    ensures traced { IfOk result (λ _. IsTraced machine.new view.new steps.new.items (length steps.new.items)) }
    ensures covers { IfOk result (λ _. Covers (setting_of machine.new) (state_of machine.new) stored.new) }
{
    let _events = machine.events();
    if !is_recorded(machine, e) {
        happen(machine, e);
        return Ok(());
    }
    let cpu = cpu_in(e);
    let asked = Asked {
        cpu,
        touches: machine.wanted(cpu),
    };
    stored.add_touches(cpu, &asked.touches)?;
    happen(machine, e);
    let step = view.follow(alloc, &MachineSight { machine }, stored, &asked)?;
    keep_live(stored, view, &step);
    steps.push(step)?;
    Ok(())
}

/// What a machine from which nothing has happened shows, which is then led over events, with a step for each that is recorded.
fn seen_along(
    alloc: Global,
    machine: &mut Machine,
    steps: &mut Vec<Step>,
    events: &[Event],
) -> Result<View, AllocError>
    requires opened { machine.old ≡ opened machine.old.image machine.old.limits }
    requires setting { IsSetting (setting_of machine.old) }
    requires known { All (λ e. cpu_of_event e < length machine.old.image.cpus) events.now }
    requires externals { count_by is_external events.now ≤ machine.old.limits.externals }
    requires none { steps.old.items ≡ [] }
    ensures setting { IfOk result (λ _. setting_of machine.new ≡ setting_of machine.old) }
    ensures events { IfOk result (λ _. machine.new.events ≡ (meaning (setting_of machine.old) events.now).events) }
    ensures traced { IfOk result (λ view. IsTraced machine.new view steps.new.items 0) }
{
    let first = View::of(alloc, &MachineSight { machine })?;
    let mut view = View::of(alloc, &MachineSight { machine })?;
    let mut stored = StoredLines::none(alloc);
    for event in events {
        follow(alloc, machine, &mut view, &mut stored, steps, *event)?;
    }
    Ok(first)
}

impl Trace {
    /// The run of a machine of an image over events of CPUs that there are, of which at most as many are
    /// external as the limits say. It stands before the first of them. The error is want of memory.
    pub fn open(
        alloc: Global,
        image: Arc<Image>,
        limits: Limits,
        events: &[Event],
    ) -> Result<Trace, NoMemory>
        requires known { All (λ e. cpu_of_event e < length (arc_value image).cpus) events.now }
        requires externals { count_by is_external events.now ≤ limits.externals }
        ensures { IfOk result (λ trace. trace ≡ at_start (arc_value image) limits events.now) }
    {
        let most = image.cpu_count() as usize * limits.turns as usize + limits.externals as usize;
        let mut steps = Vec::with_capacity(alloc, most.min(events.len()))?;
        let mut machine = Machine::open(alloc, image, limits)?;
        let view = seen_along(alloc, &mut machine, &mut steps, events)?;
        Ok(Trace {
            machine,
            view,
            steps,
            position: 0,
        })
    }

    /// Over the next event.
    fn one_forward(&mut self)
        requires { self.old.position < length self.old.events }
        ensures { self.new ≡ moved_to (self.old.position + 1) self.old }
    {
        self.view.forward(&self.steps[self.position]);
        self.position += 1;
    }

    /// Over the event before, back.
    fn one_back(&mut self)
        requires { 0 < self.old.position }
        ensures { self.new ≡ back_from 1 self.old }
    {
        self.position -= 1;
        self.view.back(&self.steps[self.position]);
    }

    /// So many events forward, to the end at most.
    pub fn forward(&mut self, n: u64)
        ensures { self.new ≡ forward_from n self.old }
    {
        let most = self.length() - self.position();
        for _done in 0..n.min(most) {
            self.one_forward();
        }
    }

    /// So many events back, to the start at most.
    pub fn back(&mut self, n: u64)
        ensures { self.new ≡ back_from n self.old }
    {
        let most = self.position();
        for _done in 0..n.min(most) {
            self.one_back();
        }
    }

    /// How many events are behind.
    pub fn position(&self) -> u64
        ensures value { result ≡ self.now.position }
        ensures within { result ≤ length self.now.events }
    {
        self.position as u64
    }

    /// How many events are recorded.
    pub fn length(&self) -> u64
        ensures { result ≡ length self.now.events }
    {
        self.machine.events().len() as u64
    }

    /// The CPU as its program sees it, in its attempt where one is live.
    pub fn cpu(&self, cpu: u32) -> &CpuImage
        requires { cpu < length self.now.image.cpus }
        ensures { cpu_of result.now ≡ meant.cpu_of (setting_in self.now) (state_at self.now) cpu }
    {
        self.view.cpu(cpu).image()
    }

    /// How many begins are open, and how many instructions the attempt of the CPU has completed; None exactly
    /// where it has no live attempt.
    pub fn live(&self, cpu: u32) -> Option<(u32, u32)>
        requires { cpu < length self.now.image.cpus }
        ensures { result ≡ levels_at (setting_in self.now) (state_at self.now) cpu }
    {
        self.view.cpu(cpu).live()
    }

    /// The real address of the diagnostic block that is pending for the CPU; None exactly where none is.
    pub fn pending(&self, cpu: u32) -> Option<u64>
        requires { cpu < length self.now.image.cpus }
        ensures { result ≡ address_of ((meant.flat_of (setting_in self.now) (state_at self.now)).pending cpu) }
    {
        self.view.cpu(cpu).pending()
    }

    /// The byte of storage at an absolute address, as the history leaves it.
    pub fn byte(&self, address: u32) -> u8
        requires { address < storage_size }
        ensures { result ≡ (meant.flat_of (setting_in self.now) (state_at self.now)).storage address }
    {
        self.view.byte(address)
    }

    /// How many entries the history has.
    pub fn entries(&self) -> u64
        ensures { result ≡ length (state_at self.now).history }
    {
        self.view.entries()
    }
}
