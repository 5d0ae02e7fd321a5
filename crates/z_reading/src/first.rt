//! The first reading of the lines: labels, the location, and what is placed.
ghost use Rattle.std.specs.Prelude.{◌≡◌, ◌≤◌, ◌<◌, length, pos, Ok, IsTrue, false};
ghost use Rattle.z_instr.specs.declared.table.TheConstants.{ROWS};
ghost use Rattle.z_text.specs.Labels.{value_in};
ghost use Rattle.z_text.specs.Tokens.{AreTokensIn};
ghost use Rattle.z_reading.specs.Listing.{plan_of, operands_in, table_with, is_bad_label, is_defined, value_on};
ghost use Rattle.z_reading.specs.Listing.{org_line, equ_line, ds_line, dc_line, instruction_line, cpu_line};
ghost use Rattle.z_reading.specs.Listing.{end_line, operation_line, line_gives, tasked, labelled};
ghost use Rattle.z_reading.specs.Listing.{is_nil, is_doubleword};
ghost use Rattle.z_operands.specs.Sizes.{IsKnown, IsMask};
ghost use Rattle.z_reading.specs.Kept.{IsThere};
ghost use Rattle.z_reading.specs.Sizes.{IsPlaced};
ghost use Rattle.z_fields.specs.Steps.{Gives, Answers};

use crate::draft::{Draft, MOST_CPUS, SIZE};
use crate::kept::TextLine;
use crate::parts::{behind, field_behind, heads_in, label_in, operation_in};
use crate::place::{place, start, write};
use crate::reading::Reading;
use std::alloc::Global;
use z_fields::{Kind, LineFault, data_of};
use z_operands::{Operation, Room, one_in, operation_named, read_operands, size_of_row};
use z_text::{Labels, Token, read_tokens};

// ---- labels

fn is_bad_label(operation: Operation, label: &[u8]) -> bool
    ensures { result ≡ is_bad_label operation label.now }
{
    match operation {
        Operation::Equ => label.is_empty(),
        Operation::Instruction(_, _) | Operation::Ds | Operation::Dc => false,
        _ => !label.is_empty(),
    }
}

fn is_defined(label: &[u8], labels: &Labels) -> bool
    ensures { result ≡ is_defined label.now (value_in labels.now) }
{
    match label {
        [] => false,
        _ => labels.value(label).is_some(),
    }
}

/// Gives the label, where there is one, its value.
fn define(labels: &mut Labels, label: &[u8], value: i128) -> Result<(), LineFault>
    requires fresh { is_defined label.now (value_in labels.old) ≡ false }
    requires value { IsTrue (is_doubleword value) }
    ensures { Gives result (Ok (table_with label.now value (value_in labels.old))) (value_in labels.new) }
{
    match label {
        [] => Ok(()),
        _ => {
            labels.set(label, value)?;
            Ok(())
        }
    }
}

/// Gives the label, where there is one, the location as its value.
fn define_here(draft: &mut Draft, label: &[u8]) -> Result<(), LineFault>
    requires fresh { is_defined label.now (value_in draft.old.labels) ≡ false }
    ensures gives { Gives result (Ok (labelled label.now (pos draft.old.here) (plan_of draft.old)))
        (plan_of draft.new) }
    ensures text { draft.new.works.text ≡ draft.old.works.text }
{
    define(&mut draft.labels, label, draft.here as i128)
}

// ---- operations

/// The value of the one expression of a line, by the labels so far.
fn value_on(
    room: &mut Room,
    draft: &Draft,
    line: &[u8],
    tokens: &[Token],
) -> Result<i128, LineFault>
    requires tokens { AreTokensIn line.now tokens.now }
    ensures { Answers (λ v. v) result (value_on line.now (operands_in tokens.now) (plan_of draft.now)) }
{
    let first = heads_in(tokens);
    read_operands(
        room,
        Kind::BadDirective,
        line,
        tokens,
        first,
        &draft.labels,
        draft.here,
    )?;
    Ok(one_in(&room.operands)?)
}

#[tactic(auto, unfolding(crate::specs::Listing::org_line))]
fn org(room: &mut Room, draft: &mut Draft, line: &[u8], tokens: &[Token]) -> Result<(), LineFault>
    requires tokens { AreTokensIn line.now tokens.now }
    ensures gives { Gives result (org_line line.now (operands_in tokens.now) (plan_of draft.old))
        (plan_of draft.new) }
    ensures text { draft.new.works.text ≡ draft.old.works.text }
{
    let value = value_on(room, draft, line, tokens)?;
    if value < 0 || (SIZE as i128) < value {
        return Err(LineFault::Failed(Kind::OutOfRange));
    }
    draft.here = value as usize;
    Ok(())
}

#[tactic(auto, unfolding(crate::specs::Listing::equ_line))]
fn equ(
    room: &mut Room,
    draft: &mut Draft,
    label: &[u8],
    line: &[u8],
    tokens: &[Token],
) -> Result<(), LineFault>
    requires tokens { AreTokensIn line.now tokens.now }
    requires fresh { is_defined label.now (value_in draft.old.labels) ≡ false }
    ensures gives { Gives result (equ_line label.now line.now (operands_in tokens.now) (plan_of draft.old))
        (plan_of draft.new) }
    ensures text { draft.new.works.text ≡ draft.old.works.text }
{
    let value = value_on(room, draft, line, tokens)?;
    if !is_doubleword(value) {
        return Err(LineFault::Failed(Kind::OutOfRange));
    }
    define(&mut draft.labels, label, value)
}

/// Whether it is from -2^63 to 2^64 - 1.
pub fn is_doubleword(value: i128) -> bool
    ensures { result ≡ is_doubleword value }
{
    -0x8000_0000_0000_0000 <= value && value <= 0xFFFF_FFFF_FFFF_FFFF
}

#[tactic(auto, unfolding(crate::specs::Listing::ds_line))]
fn ds(
    room: &mut Room,
    draft: &mut Draft,
    label: &[u8],
    line: &[u8],
    tokens: &[Token],
) -> Result<(), LineFault>
    requires tokens { AreTokensIn line.now tokens.now }
    requires fresh { is_defined label.now (value_in draft.old.labels) ≡ false }
    ensures gives { Gives result (ds_line label.now line.now (operands_in tokens.now) (plan_of draft.old))
        (plan_of draft.new) }
    ensures text { draft.new.works.text ≡ draft.old.works.text }
{
    let value = value_on(room, draft, line, tokens)?;
    if value < 0 || (SIZE as i128) < value {
        return Err(LineFault::Failed(Kind::OutOfRange));
    }
    define_here(draft, label)?;
    place(draft, value as usize)
}

#[tactic(auto, unfolding(crate::specs::Listing::dc_line))]
fn dc(alloc: Global, draft: &mut Draft, label: &[u8], field: &[u8]) -> Result<(), LineFault>
    requires fresh { is_defined label.now (value_in draft.old.labels) ≡ false }
    ensures gives { Gives result (dc_line label.now field.now (plan_of draft.old)) (plan_of draft.new) }
    ensures text { draft.new.works.text ≡ draft.old.works.text }
{
    let bytes = data_of(alloc, field)?;
    define_here(draft, label)?;
    write(draft, &bytes)
}

#[tactic(auto, unfolding(crate::specs::Listing::instruction_line))]
fn instruction(
    draft: &mut Draft,
    label: &[u8],
    line: TextLine,
    row: u16,
    mask: Option<u8>,
) -> Result<(), LineFault>
    requires there { IsThere draft.old.works.text.now line.first line.bytes.now }
    requires short { length line.bytes.now ≤ 120 }
    requires fresh { is_defined label.now (value_in draft.old.labels) ≡ false }
    requires row { row < ROWS }
    requires mask { IsMask mask }
    ensures gives { Gives result (instruction_line line.entry.number label.now line.entry.bytes.now row mask
        (plan_of draft.old))
        (plan_of draft.new) }
    ensures text { draft.new.works.text ≡ draft.old.works.text }
{
    let here = draft.here;
    define_here(draft, label)?;
    start(draft, size_of_row(row))?;
    draft
        .works
        .keep(line, here as u32, Operation::Instruction(row, mask))?;
    Ok(())
}

/// Leaves a line to the second reading.
fn leave(draft: &mut Draft, line: TextLine, operation: Operation) -> Result<(), LineFault>
    requires there { IsThere draft.old.works.text.now line.first line.bytes.now }
    requires short { length line.bytes.now ≤ 120 }
    requires placed { IsPlaced draft.old.here operation }
    ensures gives { Gives result (Ok (tasked line.entry.number draft.old.here line.entry.bytes.now operation
        (plan_of draft.old)))
        (plan_of draft.new) }
    ensures text { draft.new.works.text ≡ draft.old.works.text }
{
    let here = draft.here;
    draft.works.keep(line, here as u32, operation)?;
    Ok(())
}

#[tactic(auto, unfolding(crate::specs::Listing::cpu_line))]
fn cpu(draft: &mut Draft, line: TextLine) -> Result<(), LineFault>
    requires there { IsThere draft.old.works.text.now line.first line.bytes.now }
    requires short { length line.bytes.now ≤ 120 }
    ensures gives { Gives result (cpu_line line.entry.number line.entry.bytes.now (plan_of draft.old)) (plan_of draft.new) }
    ensures text { draft.new.works.text ≡ draft.old.works.text }
{
    if draft.cpus >= MOST_CPUS {
        return Err(LineFault::Failed(Kind::OutOfRange));
    }
    draft.cpus += 1;
    leave(draft, line, Operation::Cpu)
}

fn is_nil(tokens: &[Token]) -> bool
    ensures { result ≡ is_nil tokens.now }
{
    matches!(tokens, [])
}

#[tactic(auto, unfolding(crate::specs::Listing::end_line))]
fn end(draft: &mut Draft, tokens: &[Token]) -> Result<(), LineFault>
    ensures gives { Gives result (end_line (operands_in tokens.now) (plan_of draft.old)) (plan_of draft.new) }
    ensures text { draft.new.works.text ≡ draft.old.works.text }
{
    if !is_nil(behind(tokens, heads_in(tokens))) {
        return Err(LineFault::Failed(Kind::BadDirective));
    }
    draft.ended = true;
    Ok(())
}

/// Does what a line of this operation does. The tokens are those of the line; `behind` is the place after the
/// operation.
#[tactic(auto, unfolding(crate::specs::Listing::operation_line))]
fn run(
    alloc: Global,
    room: &mut Room,
    draft: &mut Draft,
    operation: Operation,
    label: &[u8],
    line: TextLine,
    behind: usize,
    tokens: &[Token],
) -> Result<(), LineFault>
    requires there { IsThere draft.old.works.text.now line.first line.bytes.now }
    requires short { length line.bytes.now ≤ 120 }
    requires tokens { AreTokensIn line.bytes.now tokens.now }
    requires fresh { is_defined label.now (value_in draft.old.labels) ≡ false }
    requires known { IsKnown operation }
    requires behind { behind ≤ length line.bytes.now }
    ensures gives { Gives result (operation_line operation line.entry.number label.now line.entry.bytes.now behind
        (operands_in tokens.now) (plan_of draft.old)) (plan_of draft.new) }
    ensures text { draft.new.works.text ≡ draft.old.works.text }
{
    match operation {
        Operation::Instruction(row, mask) => instruction(draft, label, line, row, mask),
        Operation::Org => org(room, draft, line.bytes, tokens),
        Operation::Equ => equ(room, draft, label, line.bytes, tokens),
        Operation::Ds => ds(room, draft, label, line.bytes, tokens),
        Operation::Dc => dc(alloc, draft, label, field_behind(behind, line.bytes)),
        Operation::Cpu => cpu(draft, line),
        Operation::End => end(draft, tokens),
        _ => leave(draft, line, operation),
    }
}

/// Reads a line for the first time.
#[tactic(auto, unfolding(crate::specs::Listing::line_gives))]
pub fn read_first(
    alloc: Global,
    reading: &mut Reading,
    draft: &mut Draft,
    line: TextLine,
) -> Result<(), LineFault>
    requires { IsThere draft.old.works.text.now line.first line.bytes.now }
    ensures gives { Gives result (line_gives line.entry.number line.entry.bytes.now (plan_of draft.old))
        (plan_of draft.new) }
    ensures text { draft.new.works.text ≡ draft.old.works.text }
{
    read_tokens(line.bytes, &mut reading.tokens)?;
    let tokens = &reading.tokens;
    let Some(name) = operation_in(tokens) else {
        return Ok(());
    };
    if draft.ended {
        return Err(LineFault::Failed(Kind::BadDirective));
    }
    let Some(operation) = operation_named(&line.bytes[name.first..name.end]) else {
        return Err(LineFault::Failed(Kind::UnknownMnemonic));
    };
    let label = label_in(line.bytes, tokens);
    if is_bad_label(operation, label) {
        return Err(LineFault::Failed(Kind::BadDirective));
    }
    if is_defined(label, &draft.labels) {
        return Err(LineFault::Failed(Kind::DoubleLabel));
    }
    run(
        alloc,
        &mut reading.room,
        draft,
        operation,
        label,
        line,
        name.end,
        tokens,
    )
}
