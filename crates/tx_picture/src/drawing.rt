//! The drawing of a run.
ghost use Rattle.std.specs.Prelude.{◌≡◌, ◌≤◌, ◌++◌, IfOk, OnOk, length, string_bytes};
ghost use Rattle.std.specs.List.{flat_map};
ghost use Rattle.tx_watch.specs.Machine.{setting_of, state_of};
ghost use Rattle.tx_watch.specs.Window.{turns_in, entries_in};

use crate::elements::{arrow_element, attempt_element, entry_element, turn_element};
use crate::frame::{head, legend};
use std::alloc::{AllocError, Global};
use tx_watch::marks::{Arrow, Attempt, Mark, Picture, Placed};
use tx_watch::{Machine, NoMemory, Window, observe};

/// The elements of an SVG, each as text, in the order in which they stand.
#[derive(Drop)]
pub struct Drawing {
    /// The start of the file, and the lanes.
    pub head: String,
    /// The brackets of attempts.
    pub attempts: Vec<String>,
    /// The arrows of questions.
    pub arrows: Vec<String>,
    /// The boxes of turns.
    pub turns: Vec<String>,
    /// The boxes of entries.
    pub entries: Vec<String>,
    /// The legend, and the end of the file.
    pub legend: String,
}

/// The elements of turns, one for each.
fn turn_elements(alloc: Global, marks: &[Mark]) -> Result<Vec<String>, AllocError>
    ensures { IfOk result (λ elements. length elements.items ≡ length marks.now) }
{
    let mut elements = Vec::new(alloc);
    for mark in marks {
        elements.push(turn_element(alloc, mark)?)?;
    }
    Ok(elements)
}

/// The elements of entries, one for each, below the lanes of so many CPUs.
fn entry_elements(alloc: Global, entries: &[Placed], cpus: u32) -> Result<Vec<String>, AllocError>
    ensures { IfOk result (λ elements. length elements.items ≡ length entries.now) }
{
    let mut elements = Vec::new(alloc);
    for placed in entries {
        elements.push(entry_element(alloc, placed, cpus)?)?;
    }
    Ok(elements)
}

/// The elements of attempts, one for each, in a picture of so many columns.
fn attempt_elements(
    alloc: Global,
    attempts: &[Attempt],
    columns: u32,
) -> Result<Vec<String>, AllocError>
    ensures { IfOk result (λ elements. length elements.items ≡ length attempts.now) }
{
    let mut elements = Vec::new(alloc);
    for attempt in attempts {
        elements.push(attempt_element(alloc, attempt, columns)?)?;
    }
    Ok(elements)
}

/// The elements of questions, one for each.
fn arrow_elements(alloc: Global, arrows: &[Arrow]) -> Result<Vec<String>, AllocError>
    ensures { IfOk result (λ elements. length elements.items ≡ length arrows.now) }
{
    let mut elements = Vec::new(alloc);
    for arrow in arrows {
        elements.push(arrow_element(alloc, arrow)?)?;
    }
    Ok(elements)
}

/// A picture of so many columns as a drawing; its run has so many turns and entries in all.
fn drawn(
    alloc: Global,
    picture: &Picture,
    columns: u32,
    recorded: (usize, usize),
) -> Result<Drawing, AllocError>
    ensures turns { IfOk result (λ d. length d.turns.items ≡ length picture.now.marks.items) }
    ensures entries { IfOk result (λ d. length d.entries.items ≡ length picture.now.entries.items) }
{
    Ok(Drawing {
        head: head(alloc, picture, columns, recorded)?,
        attempts: attempt_elements(alloc, &picture.attempts, columns)?,
        arrows: arrow_elements(alloc, &picture.arrows)?,
        turns: turn_elements(alloc, &picture.marks)?,
        entries: entry_elements(alloc, &picture.entries, picture.cpus)?,
        legend: legend(alloc, picture, columns)?,
    })
}

/// The drawing of a machine's run: of the turns that it has recorded those of the window, one column for
/// each, and the entries that its history gained in them. The error is want of memory.
pub fn draw(alloc: Global, machine: &Machine, window: Window) -> Result<Drawing, NoMemory>
    ensures turns { IfOk result (λ d. length d.turns.items ≡ turns_in window (length machine.now.events)) }
    ensures entries { IfOk result (λ d. length d.entries.items
        ≡ entries_in window (setting_of machine.now) machine.now.events) }

    // A window of all turns has the whole history.
    ensures whole { window.first ≤ 1 → length machine.now.events ≤ window.last
        → length machine.now.events ≤ 2000
        → IfOk result (λ d. length d.entries.items ≡ length (state_of machine.now).history) }
{
    let picture = observe(alloc, machine, window)?;
    let recorded = (machine.events().len(), machine.journal().len());
    let columns = window.turns(recorded.0 as u64);
    Ok(drawn(alloc, &picture, columns, recorded)?)
}

/// Adds texts, one behind the other.
fn add_all(text: &mut Vec<u8>, elements: &[String]) -> Result<(), AllocError>
    ensures { OnOk result (text.new.items ≡ text.old.items ++ flat_map string_bytes elements.now) }
{
    for element in elements {
        text.extend_from_slice(element.as_bytes())?;
    }
    Ok(())
}

impl Drawing {
    ghost use Rattle.tx_picture.specs.Drawn.{text_of};

    /// The bytes of the SVG: all elements, one behind the other.
    pub fn text(&self, alloc: Global) -> Result<Vec<u8>, AllocError>
        ensures { IfOk result (λ text. text.items ≡ text_of self.now) }
    {
        let mut text = Vec::new(alloc);
        text.extend_from_slice(self.head.as_bytes())?;
        add_all(&mut text, &self.attempts)?;
        add_all(&mut text, &self.arrows)?;
        add_all(&mut text, &self.turns)?;
        add_all(&mut text, &self.entries)?;
        text.extend_from_slice(self.legend.as_bytes())?;
        Ok(text)
    }
}
