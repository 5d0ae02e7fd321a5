//! A run whose conflicts are counted.
ghost use Rattle.std.specs.Prelude.{◌≡◌, ◌<◌, ◌≤◌, IfOk, All, [], true, length, count_by};
ghost use Rattle.std.specs.Arc.{arc_value};
ghost use Rattle.tx_journal.specs.Image.{cpu_of_event};
ghost use Rattle.tx_schedule.specs.Machine.{setting_of, state_of, event_of, after};
ghost use Rattle.tx_meaning.specs.Meaning.{is_external};
ghost use Rattle.tx_heat.specs.Heats.{heat_of, all_finished};

use crate::counting::{LineHeat, cold};
use crate::following::{follow, no_tracks};
use crate::table::{Heat, NoMemory};
use crate::track::Track;
use std::alloc::Global;
use std::marker::Model;
use std::sync::Arc;
use tx_journal::{Event, Image};
use tx_meaning::Limits;
use tx_schedule::{Machine, Runnable};

/// A machine whose conflicts are counted while its events come. Contracts see the machine; what is counted is what
/// its recorded events mean.
#[derive(Drop)]
pub struct Counting {
    machine: Machine,
    tracks: Vec<Track>,
    lines: Vec<LineHeat>,
}

impl Model for Counting {
    ghost use Rattle.tx_schedule.specs.Machine.{Seen, seen_code};
    ghost use Rattle.tx_heat.specs.Watched.{IsWatched};

    ghost Value = { Seen };

    ghost coded = { seen_code };

    ghost view = { λ c. c.machine };

    ghost invariant = { λ c. IsWatched c.machine c.tracks.items c.lines.items };
}

/// Whether every CPU is finished.
fn are_finished(machine: &Machine) -> bool
    ensures { result ≡ all_finished (setting_of machine.now) (state_of machine.now) }
{
    for cpu in 0..machine.image().cpu_count() {
        if !machine.finished(cpu) {
            return false;
        }
    }
    true
}

impl Counting {
    /// A machine from which nothing has happened, and no conflict is counted. The error is want of memory.
    pub fn of(alloc: Global, machine: Machine) -> Result<Counting, NoMemory>
        requires { machine.events ≡ [] }
        ensures { IfOk result (λ counting. counting ≡ machine) }
    {
        let tracks = no_tracks(alloc, machine.image().cpu_count())?;
        let lines = cold(alloc)?;
        let _limits = machine.limits();
        Ok(Counting {
            machine,
            tracks,
            lines,
        })
    }

    /// The machine.
    pub fn machine(&self) -> &Machine
        ensures { result.now ≡ self.now }
    {
        &self.machine
    }

    /// One event more, of a CPU that there is; an external one only while some are left. It takes no memory.
    pub fn event(&mut self, e: Event)
        requires known { cpu_of_event e < length self.old.image.cpus }
        requires external { is_external e ≡ true
            → count_by is_external self.old.events < self.old.limits.externals }
        ensures machine { self.new ≡ after self.old e }
        ensures state { state_of self.new ≡ (event_of self.old e).state }
    {
        let _recorded = self.machine.events();
        follow(&mut self.machine, &mut self.tracks, &mut self.lines, e);
    }

    /// The conflicts of the machine's recorded events, from its start.
    pub fn heat(self) -> Heat
        ensures { result ≡ heat_of self.image self.limits self.events }
    {
        let finished = are_finished(&self.machine);
        Heat::of(self.lines, finished)
    }
}

impl Runnable for Counting {
    ghost seen = { λ counting. counting };

    fn machine(&self) -> &Machine {
        &self.machine
    }

    fn take_event(&mut self, e: Event) {
        self.event(e)
    }

    fn take_turn(&mut self, cpu: u32) {
        self.event(Event::Turn(cpu))
    }
}

/// The conflicts of the run of an image over events, of CPUs that there are, of which at most as many are external
/// as the limits say. The error is want of memory.
pub fn heat(
    alloc: Global,
    image: Arc<Image>,
    limits: Limits,
    events: &[Event],
) -> Result<Heat, NoMemory>
    requires known { All (λ e. cpu_of_event e < length (arc_value image).cpus) events.now }
    requires externals { count_by is_external events.now ≤ limits.externals }
    ensures { IfOk result (λ heat. heat ≡ heat_of (arc_value image) limits events.now) }
{
    let machine = Machine::open(alloc, image, limits)?;
    let mut counting = Counting::of(alloc, machine)?;
    for event in events {
        counting.event(*event);
    }
    Ok(counting.heat())
}
