//! Both readings of all lines, and the image.
ghost use Rattle.std.specs.Prelude.{◌≡◌, ◌-◌, ◌≤◌, ◌<◌, ◌^◌, ◌+◌, ◌/◌, length, List, IfOk, OnOk, map};
ghost use Rattle.std.specs.Prelude.{replicate, IfErr, drop, false, ℕ, All};
ghost use Rattle.std.specs.FinSet.{empty};
ghost use Rattle.z_instr.specs.Layout.{length_by};
ghost use Rattle.z_regs.specs.Cpu.{cpu_of, started};
ghost use Rattle.z_text.specs.Labels.{value_in};
ghost use Rattle.tx_journal.specs.Content.{content};
ghost use Rattle.tx_journal.specs.Image.{length_at};
ghost use Rattle.z_fields.specs.Pieces.{pieces_by};
ghost use Rattle.z_reading.specs.Listing.{plan_of, task_of, tasks_of, line_gives};
ghost use Rattle.z_reading.specs.Kept.{IsThere};
ghost use Rattle.z_setup.specs.Setup.{machine_of, known_of};
ghost use Rattle.z_assemble.specs.Steps.{Passes, on_line};
ghost use Rattle.z_reading.specs.Text.{lines_of, copies};
ghost use Rattle.z_assemble.specs.Whole.{on, first_on, first_over, second_on, second_over, blank, no_label};
ghost use Rattle.z_assemble.specs.Whole.{most_bytes, most_lines};
ghost use Rattle.z_assemble.specs.Whole.{with_page, with_pages, pages_with};
ghost use Rattle.z_assemble.specs.Whole.{image_of, finished, after_first, over_lines, assembled, Stands};
ghost use Rattle.z_assemble.specs.Whole.{HasFault, IsOutcome, fault_at, ready_for};
ghost use Rattle.z_regs.specs.Prefix.{storage_size};

use crate::fault::{AssembleFault, ListingFault};
use crate::parts::Parts;
use crate::places::places_of;
use std::alloc::{AllocError, Global};
use tx_journal::Image;
use tx_ladder::Parms;
use z_decode::length_of;
use z_fields::{Kind, LineFault, all_events, count_pieces, first_piece, without_end};
use z_reading::{Draft, FIRST_LOCATION, Reading, SIZE, TextLine, Work, Works, read_first};
use z_regs::{CpuImage, Guard};
use z_setup::{Setup, read_second};
use z_text::{Labels, key_in_front};

/// The most bytes of a listing.
pub const MOST_BYTES: usize = 16_777_216;

/// The most lines of a listing.
pub const MOST_LINES: usize = 262_144;

fn on_line(line: u32, fault: LineFault) -> AssembleFault
    ensures { result ≡ on_line line fault }
{
    match fault {
        LineFault::Memory => AssembleFault::Memory,
        LineFault::Failed(kind) => AssembleFault::Listing(ListingFault {
            line,
            kind: kind.number(),
        }),
    }
}

// ---- the first reading

fn first_on(
    alloc: Global,
    reading: &mut Reading,
    draft: &mut Draft,
    line: TextLine,
) -> Result<(), AssembleFault>
    requires { IsThere draft.old.works.text.now line.first line.bytes.now }
    ensures passes { Passes result (on line.entry.number (line_gives line.entry.number line.entry.bytes.now (plan_of draft.old)))
        (plan_of draft.new) }
    ensures text { draft.new.works.text ≡ draft.old.works.text }
{
    match read_first(alloc, reading, draft, line) {
        Ok(()) => Ok(()),
        Err(fault) => Err(on_line(line.number, fault)),
    }
}

/// Reads all lines of the draft's text for the first time.
fn first_over(alloc: Global, draft: &mut Draft) -> Result<(), AssembleFault>
    requires size { length draft.old.works.text.now ≤ most_bytes }
    requires lines { length (pieces_by 10 draft.old.works.text.now) ≤ most_lines }
    ensures { Passes result (first_over 1 (pieces_by 10 draft.old.works.text.now) (plan_of draft.old))
        (plan_of draft.new) }
{
    let text = draft.works.text;
    let mut reading = Reading::new(alloc);
    let mut number = 1;
    let mut rest = text;
    while 0 < rest.len() {
        let (piece, behind) = first_piece(b'\n', rest);
        let line = TextLine {
            number,
            first: (text.len() - rest.len()) as u32,
            bytes: without_end(piece),
        };
        first_on(alloc, &mut reading, draft, line)?;
        number += 1;
        rest = behind;
    }
    Ok(())
}

#[tactic(auto, unfolding(z_reading::specs::Text::copies))]
fn zeros(alloc: Global, count: usize) -> Result<Vec<u8>, AllocError>
    ensures is { IfOk result (λ v. v.items ≡ copies count 0) }
    ensures len { IfOk result (λ v. length v.items ≡ count) }
{
    vec![in alloc; 0; count]
}

#[tactic(auto, unfolding(z_reading::specs::Text::copies))]
fn unmarked(alloc: Global, count: usize) -> Result<Vec<bool>, AllocError>
    ensures is { IfOk result (λ v. v.items ≡ copies count false) }
    ensures len { IfOk result (λ v. length v.items ≡ count) }
{
    vec![in alloc; false; count]
}

/// The numbers of the names that lines begin with: at most one a line.
fn names_in(alloc: Global, text: &[u8]) -> Result<Vec<u128>, AllocError>
    ensures { IfOk result (λ v. length v.items ≤ length (pieces_by 10 text.now)) }
{
    let mut names = Vec::new(alloc);
    let mut rest = text;
    while 0 < rest.len() {
        let (line, behind) = first_piece(b'\n', rest);
        if let Some(name) = key_in_front(line) {
            names.push(name)?;
        }
        rest = behind;
    }
    Ok(names)
}

/// No labels, with room for those of a text.
fn no_labels(alloc: Global, text: &[u8]) -> Result<Labels, AllocError>
    ensures { IfOk result (λ labels. value_in labels ≡ no_label) }
{
    let names = names_in(alloc, text)?;
    Labels::expecting(alloc, names)
}

#[tactic(auto, unfolding(crate::specs::Whole::blank))]
fn blank<'a>(alloc: Global, text: &'a [u8]) -> Result<Draft<'a>, AllocError>
    ensures is { IfOk result (λ d. plan_of d ≡ blank) }
    ensures text { IfOk result (λ d. d.works.text.now ≡ text.now) }
{
    let labels = no_labels(alloc, text)?;
    let storage = zeros(alloc, SIZE)?;
    let taken = unmarked(alloc, SIZE)?;
    let begins = unmarked(alloc, SIZE)?;
    Ok(Draft {
        here: FIRST_LOCATION,
        labels,
        storage,
        taken,
        begins,
        ended: false,
        cpus: 0,
        works: Works::none(alloc, text),
    })
}

// ---- the second reading

fn second_on(
    alloc: Global,
    reading: &mut Reading,
    setup: &mut Setup,
    labels: &Labels,
    works: &Works,
    work: Work,
) -> Result<(), AssembleFault>
    requires { setup.old.entered < 2 ^ 64 - 1 }
    ensures passes { Passes result (second_on (known_of labels.now works.now) (task_of work.entry)
        (machine_of setup.old)) (machine_of setup.new) }
    ensures entered { setup.new.entered ≤ setup.old.entered + 1 }
{
    match read_second(alloc, reading, setup, labels, works, work) {
        Ok(()) => Ok(()),
        Err(fault) => Err(on_line(work.line, fault)),
    }
}

fn second_over(
    alloc: Global,
    setup: &mut Setup,
    labels: &Labels,
    works: &Works,
) -> Result<(), AssembleFault>
    requires { setup.old.entered ≡ 0 }
    ensures { Passes result (second_over (known_of labels.now works.now) (tasks_of works.now)
        (machine_of setup.old)) (machine_of setup.new) }
{
    let mut reading = Reading::new(alloc);
    for kept in &works.kept {
        let work = works.with_text(*kept);
        second_on(alloc, &mut reading, setup, labels, works, work)?;
    }
    Ok(())
}

fn entering(alloc: Global, count: u32) -> Result<Vec<CpuImage>, AllocError>
    requires { count ≤ 16 }
    ensures { IfOk result (λ v. map cpu_of v.items ≡ replicate count (started 0)) }
{
    let mut cpus = Vec::new(alloc);
    for cpu in 0..count {
        cpus.push(CpuImage::entering(0))?;
    }
    Ok(cpus)
}

// ---- the image

fn add_page(guard: &mut Guard, page: u32)
    ensures { guard.new ≡ with_page page guard.old }
{
    if page < 256 {
        guard.add(page);
    }
}

/// Adds the pages of the first and the last byte of an instruction.
fn add_pages(guard: &mut Guard, storage: &[u8], start: u32)
    requires size { length storage.now ≡ storage_size }
    requires start { start < storage_size }
    ensures { guard.new ≡ with_pages storage.now start guard.old }
{
    let count = u32::from(length_of(storage[start as usize]));
    add_page(guard, start / 4096);
    add_page(guard, (start + count - 1) / 4096);
}

/// The pages that hold bytes of instructions.
#[tactic(auto, using(crate::proofs::Pages::page_steps))]
fn text_pages(storage: &[u8], starts: &[u32]) -> Guard
    requires size { length storage.now ≡ storage_size }
    requires inside { All (λ start. start < storage_size) starts.now }
    ensures { result ≡ pages_with storage.now starts.now empty }
{
    let mut guard = Guard::none();
    for start in starts {
        add_pages(&mut guard, storage, *start);
    }
    guard
}

#[tactic(auto, unfolding(crate::specs::Whole::ready_for))]
fn ready(alloc: Global, storage: Vec<u8>, count: u32) -> Result<Setup, AllocError>
    requires size { length storage.items ≡ storage_size }
    requires few { count ≤ 16 }
    ensures is { IfOk result (λ s. machine_of s ≡ ready_for storage.items count) }
    ensures entered { IfOk result (λ s. s.entered ≡ 0) }
{
    Ok(Setup {
        storage,
        cpus: entering(alloc, count)?,
        entered: 0,
        shows: Vec::new(alloc),
        schedule: Vec::new(alloc),
        scheduled: false,
        parms: Parms::usual(),
    })
}

/// The image of what both readings have made.
#[tactic(auto, unfolding(crate::specs::Whole::image_of))]
fn image(alloc: Global, begins: &[bool], setup: Setup) -> Result<Parts, AllocError>
    requires { length begins.now ≡ storage_size }
    ensures { IfOk result (λ i. i ≡ image_of begins.now (machine_of setup)) }
{
    let Setup {
        storage,
        cpus,
        shows,
        schedule,
        scheduled,
        parms,
        ..
    } = setup;
    let starts = places_of(alloc, begins)?;
    let guard = text_pages(&storage, &starts);
    Ok(Parts {
        storage,
        guard,
        starts,
        cpus,
        shows,
        schedule: all_events(alloc, &schedule)?,
        scheduled,
        parms,
    })
}

fn whole_fault(kind: Kind) -> AssembleFault
    ensures { result ≡ AssembleFault.Listing (fault_at 0 kind) }
{
    AssembleFault::Listing(ListingFault {
        line: 0,
        kind: kind.number(),
    })
}

/// The image that the lines of a text in capitals stand for, or the first fault.
fn over_lines(alloc: Global, text: &[u8]) -> Result<Parts, AssembleFault>
    requires size { length text.now ≤ most_bytes }
    requires lines { length (pieces_by 10 text.now) ≤ most_lines }
    ensures { IsOutcome result (over_lines (pieces_by 10 text.now)) }
{
    let mut draft = blank(alloc, text)?;
    first_over(alloc, &mut draft)?;
    let Draft {
        labels,
        storage,
        taken,
        begins,
        cpus,
        works,
        ..
    } = draft;
    drop(taken);
    let mut setup = ready(alloc, storage, cpus)?;
    second_over(alloc, &mut setup, &labels, &works)?;
    if cpus == 0 {
        return Err(whole_fault(Kind::NoCpu));
    }
    Ok(image(alloc, &begins, setup)?)
}

#[tactic(auto, unfolding(crate::specs::Whole::assembled, z_reading::specs::Text::lines_of))]
fn assembled(alloc: Global, text: &[u8]) -> Result<Parts, AssembleFault>
    ensures { IsOutcome result (assembled text.now) }
{
    if MOST_BYTES < text.len() {
        return Err(whole_fault(Kind::ListingTooLong));
    }
    let capitals = text.to_ascii_uppercase(alloc)?;
    if MOST_LINES < count_pieces(b'\n', &capitals) {
        return Err(whole_fault(Kind::TooManyLines));
    }
    over_lines(alloc, &capitals)
}

/// The image that the text of a listing stands for, or the first fault of the text, in the order of the
/// tests.
pub fn assemble(alloc: Global, text: &[u8]) -> Result<Image, AssembleFault>
    ensures image { IfOk result (λ image. Stands text.now image) }
    ensures fault { IfErr result (λ e. HasFault text.now e) }
{
    match assembled(alloc, text) {
        Ok(parts) => Ok(parts.into_image()),
        Err(fault) => Err(fault),
    }
}
