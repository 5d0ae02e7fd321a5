//! Machines of listings, and their turns.

use anyhow::{Context, Result};
use std::alloc::Global;
use std::sync::Arc;
use tx_journal::{Event, Image};
use tx_machine::Machine;
use tx_meaning::{Limits, Outcome};
use z_assemble::assemble;

/// The image of a listing.
pub fn image_of(alloc: Global, listing: &str) -> Result<Arc<Image>> {
    let image = assemble(alloc, listing.as_bytes())
        .ok()
        .context("no image")?;
    Ok(Arc::new(alloc, image)?)
}

/// A machine of an image.
pub fn open(alloc: Global, image: &Arc<Image>, limits: Limits) -> Result<Machine> {
    Machine::open(alloc, Arc::try_clone(image)?, limits)
        .ok()
        .context("no memory")
}

/// So many turns of a CPU, each of which has to be executed.
pub fn make_turns(machine: &mut Machine, cpu: u32, turns: u32) -> bool {
    for _ in 0..turns {
        if cpu >= machine.image().cpu_count() {
            return false;
        }
        if machine.event(Event::Turn(cpu)) != Outcome::Executed {
            return false;
        }
    }
    true
}
