//! Changes of what is shown of CPUs, made and taken back, and noted where a part of a CPU differs.
ghost use Rattle.std.specs.Prelude.{◌≡◌, IfOk};
ghost use Rattle.step_changes.specs.Seen.{CpuSeen};
ghost use Rattle.step_changes.specs.Changes.{redo, undo};
ghost use Rattle.step_changes.specs.Parts.{AddsAt, put_part, with_access, with_general, with_part, with_rest};

use crate::changes::Change;
use crate::parts::{Part, Register};
use crate::seen::{CpuSight, controls_of};
use std::alloc::AllocError;
use z_regs::CpuImage;

/// Puts a part into the CPU at a place, where there is that place.
fn put_at(table: &mut [CpuSight], at: u32, part: &Part)
    ensures { table.new ≡ put_part table.old at part.now }
{
    if (at as usize) < table.len() {
        table[at as usize].put(part);
    }
}

/// Makes changes of CPUs.
pub fn redo_parts(table: &mut [CpuSight], changes: &[Change<Part>])
    ensures { table.new ≡ redo put_part changes.now table.old }
{
    for change in changes {
        put_at(table, change.at, &change.new);
    }
}

/// Takes changes of CPUs back.
pub fn undo_parts(table: &mut [CpuSight], changes: &[Change<Part>])
    ensures { table.new ≡ undo put_part changes.now table.old }
{
    for behind in 0..changes.len() {
        let change = &changes[changes.len() - 1 - behind];
        put_at(table, change.at, &change.old);
    }
}

/// Puts a part into the CPU at a place, and notes the change where it is one. The error is want of memory.
fn note_part(
    sight: &mut CpuSight,
    changes: &mut Vec<Change<Part>>,
    at: u32,
    new: Part,
) -> Result<(), AllocError>
    ensures value { IfOk result (λ _. sight.new ≡ with_part sight.old new) }
    ensures adds { IfOk result (λ _. AddsAt at changes.old.items changes.new.items sight.old sight.new) }
{
    if sight.has(&new) {
        return Ok(());
    }
    let old = sight.part_before(&new);
    changes.push(Change { at, old, new })?;
    sight.put(&new);
    Ok(())
}

/// Gives the CPU at a place the general registers of an image, and notes the changes.
fn note_general(
    sight: &mut CpuSight,
    changes: &mut Vec<Change<Part>>,
    at: u32,
    image: &CpuImage,
) -> Result<(), AllocError>
    ensures value { IfOk result (λ _. sight.new ≡ with_general sight.old image.now.general) }
    ensures adds { IfOk result (λ _. AddsAt at changes.old.items changes.new.items sight.old sight.new) }
{
    if sight.image().general == image.general {
        return Ok(());
    }
    for number in 0..16u8 {
        let value = image.general[number as usize];
        note_part(
            sight,
            changes,
            at,
            Part::General(Register { number }, value),
        )?;
    }
    Ok(())
}

/// Gives the CPU at a place the access registers of an image, and notes the changes.
fn note_access(
    sight: &mut CpuSight,
    changes: &mut Vec<Change<Part>>,
    at: u32,
    image: &CpuImage,
) -> Result<(), AllocError>
    ensures value { IfOk result (λ _. sight.new ≡ with_access sight.old image.now.access) }
    ensures adds { IfOk result (λ _. AddsAt at changes.old.items changes.new.items sight.old sight.new) }
{
    if sight.image().access == image.access {
        return Ok(());
    }
    for number in 0..16u8 {
        let value = image.access[number as usize];
        note_part(sight, changes, at, Part::Access(Register { number }, value))?;
    }
    Ok(())
}

/// Gives the CPU at a place all but the registers of another, and notes the changes.
fn note_rest(
    sight: &mut CpuSight,
    changes: &mut Vec<Change<Part>>,
    at: u32,
    now: &CpuSight,
) -> Result<(), AllocError>
    ensures value { IfOk result (λ _. sight.new ≡ with_rest sight.old now.now) }
    ensures adds { IfOk result (λ _. AddsAt at changes.old.items changes.new.items sight.old sight.new) }
{
    let image = now.image();
    note_part(sight, changes, at, Part::Address(image.address))?;
    note_part(sight, changes, at, Part::Control(controls_of(image)))?;
    note_part(sight, changes, at, Part::Live(now.live()))?;
    note_part(sight, changes, at, Part::Pending(now.pending()))?;
    Ok(())
}

/// Makes the CPU at a place as it is now, and notes the changes. The error is want of memory.
pub fn note_cpu(
    sight: &mut CpuSight,
    changes: &mut Vec<Change<Part>>,
    at: u32,
    now: &CpuSight,
) -> Result<(), AllocError>
    ensures value { IfOk result (λ _. sight.new ≡ now.now) }
    ensures adds { IfOk result (λ _. AddsAt at changes.old.items changes.new.items sight.old sight.new) }
{
    note_general(sight, changes, at, now.image())?;
    note_access(sight, changes, at, now.image())?;
    note_rest(sight, changes, at, now)?;
    Ok(())
}
