//! The runs of a machine, one for each CPU, but for those that are away.
ghost use Rattle.std.specs.Prelude.{◌≡◌, ◌<◌, List, None, true, false, is_none, length, replicate, set, slice_index_or};
ghost use Rattle.std.specs.Prelude.{IfOk, IfSome, ℕ};
ghost use Rattle.tx_machine.specs.Runs.{IsOf, is_away};

use std::alloc::Global;
use std::marker::Model;
use std::mem;
use std::sync::Arc;
use tx_home::{Program, Room, Run};
use z_regs::NoMemory;

/// Where the run of a CPU is.
#[derive(Drop)]
pub(crate) enum Place {
    /// It is not made yet, since nobody has asked for it.
    Reserved(Room),
    /// It is here.
    Here(Run),
    /// It is away.
    Away,
}

/// A place for a run of each CPU. Contracts see for each CPU whether its run is away; a run that stands at a place is of that
/// CPU.
#[derive(Drop)]
pub(crate) struct Runs {
    places: Vec<Place>,
}

impl Model for Runs {
    ghost use Rattle.std.specs.Prelude.{Bool, List, map};
    ghost use Rattle.tx_machine.specs.Runs.{AreOwn, is_away};

    ghost Value = { List Bool };

    ghost view = { λ r. map is_away r.places.items };

    ghost invariant = { λ r. AreOwn r.places.items };
}

/// Memory for a run of this CPU, which runs this program.
fn room_for(alloc: Global, program: &Arc<Program>, cpu: u32) -> Result<Room, NoMemory>
    ensures { IfOk result (λ r. r.1 ≡ cpu) }
{
    let shared = Arc::try_clone(program)?;
    Room::reserve(alloc, shared, cpu)
}

/// The run that stands at a place, or is made there; none where it is away.
fn run_at(place: Place) -> Option<Run>
    ensures given { is_none result ≡ is_away place }
    ensures own { (i : ℕ) → IsOf i place → IfSome result (λ r. r.cpu ≡ i) }
{
    match place {
        Place::Reserved(room) => Some(room.make()),
        Place::Here(run) => Some(run),
        Place::Away => None,
    }
}

impl Runs {
    /// Memory for a run of each of so many CPUs, of which none is away. The error is want of it.
    pub(crate) fn open(alloc: Global, program: &Arc<Program>, cpus: u32) -> Result<Runs, NoMemory>
        ensures { IfOk result (λ runs. runs ≡ replicate cpus false) }
    {
        let mut places = Vec::with_capacity(alloc, cpus as usize)?;
        for cpu in 0..cpus {
            let room = room_for(alloc, program, cpu)?;
            places.push(Place::Reserved(room))?;
        }
        Ok(Runs { places })
    }

    /// Whether the run of a CPU is away.
    pub(crate) fn is_away(&self, cpu: u32) -> bool
        requires { cpu < length self.now }
        ensures { result ≡ slice_index_or self.now cpu true }
    {
        matches!(self.places[cpu as usize], Place::Away)
    }

    /// The run of a CPU, which is away from now on; None exactly where it is away already.
    pub(crate) fn take(&mut self, cpu: u32) -> Option<Run>
        requires { cpu < length self.old }
        ensures given { is_none result ≡ slice_index_or self.old cpu true }
        ensures own { IfSome result (λ r. r.cpu ≡ cpu) }
        ensures away { self.new ≡ set self.old cpu true }
    {
        run_at(mem::replace(&mut self.places[cpu as usize], Place::Away))
    }

    /// A run stands at the place of its CPU, in place of one that stands there.
    pub(crate) fn put(&mut self, run: Run)
        requires { run.cpu < length self.old }
        ensures { self.new ≡ set self.old run.cpu false }
    {
        let cpu = run.cpu();
        self.places[cpu as usize] = Place::Here(run);
    }
}
