//! The operands of instructions.
ghost use Rattle.std.specs.Prelude.{◌≡◌, ◌≤◌, ◌<◌, ◌+◌, ◌-◌, ◌^◌, length, drop, IfOk};
ghost use Rattle.std.specs.List.{list_any};
ghost use Rattle.z_instr.specs.Lines.{entry_of};
ghost use Rattle.z_instr.specs.Table.{entry_at};
ghost use Rattle.z_instr.specs.declared.table.TheConstants.{ROWS};
ghost use Rattle.z_operands.specs.Code.{allowed_code, code_for, IsCode};
ghost use Rattle.z_operands.specs.Operands.{is_plain, is_full, lacks_value, known, outer, inner, innermost};
ghost use Rattle.z_operands.specs.Operands.{takes, has_form, register, displacement};
ghost use Rattle.z_operands.specs.Operands.{immediate, length_code, half, jump, with_slot, fields_from};
ghost use Rattle.z_operands.specs.Operands.{are_allowed, slots_for, fields_for, instruction_in};
ghost use Rattle.z_operands.specs.Operations.{size_of_row};
ghost use Rattle.z_operands.specs.Sizes.{IsMask};
ghost use Rattle.z_regs.specs.Prefix.{storage_size};

use crate::operand::Operand;
use z_decode::{Code, encode};
use z_fields::Kind;
use z_instr::form::{Slot, slots_of};
use z_instr::instr::{Fields, Instr};
use z_instr::lookup::line;
use z_instr::op::Op;
use z_instr::table::Line;

// ---- the values of an operand

fn is_plain(operand: Operand) -> bool
    ensures { result ≡ is_plain operand }
{
    matches!(operand, Operand::Plain(_))
}

fn is_full(operand: Operand) -> bool
    ensures { result ≡ is_full operand }
{
    matches!(operand, Operand::Full(_, _, _))
}

fn lacks_value(operand: Operand) -> bool
    ensures { result ≡ lacks_value operand }
{
    match operand {
        Operand::Plain(outer) => outer.is_none(),
        Operand::Short(outer, inner) => outer.is_none() || inner.is_none(),
        Operand::Full(outer, inner, innermost) => {
            outer.is_none() || (inner.is_none() || innermost.is_none())
        }
    }
}

fn is_any_without_value(operands: &[Operand]) -> bool
    ensures { result ≡ list_any lacks_value operands.now }
{
    operands.iter().any(|operand| lacks_value(*operand))
}

fn known(value: Option<i128>) -> i128
    ensures { result ≡ known value }
{
    match value {
        None => 0,
        Some(value) => value,
    }
}

fn outer(operand: Operand) -> i128
    ensures { result ≡ outer operand }
{
    match operand {
        Operand::Plain(value) | Operand::Short(value, _) | Operand::Full(value, _, _) => {
            known(value)
        }
    }
}

fn inner(operand: Operand) -> i128
    ensures { result ≡ inner operand }
{
    match operand {
        Operand::Plain(_) => 0,
        Operand::Short(_, value) | Operand::Full(_, value, _) => known(value),
    }
}

fn innermost(operand: Operand) -> i128
    ensures { result ≡ innermost operand }
{
    match operand {
        Operand::Full(_, _, value) => known(value),
        _ => 0,
    }
}

// ---- forms

/// What the operands of a row's instructions stand for; the mask of an extended mnemonic stands for the
/// first.
fn slots_for(row: Line, mask: Option<u8>) -> &'static [Slot]
    ensures { result.now ≡ slots_for (entry_of row) mask }
{
    let slots = slots_of(row.form);
    match mask {
        None => slots,
        Some(_) => behind_first(slots),
    }
}

fn behind_first(slots: &[Slot]) -> &[Slot]
    ensures { result.now ≡ drop 1 slots.now }
{
    match slots {
        [] => slots,
        [_, rest @ ..] => rest,
    }
}

fn takes(slot: Slot, operand: Operand) -> bool
    ensures { result ≡ takes slot operand }
{
    match slot {
        Slot::Indexed => true,
        Slot::Based | Slot::SecondBased => !is_full(operand),
        Slot::Counted => is_full(operand),
        _ => is_plain(operand),
    }
}

#[tactic(auto, using(crate::proofs::Forms::form_steps))]
fn has_form(slots: &[Slot], operands: &[Operand]) -> bool
    ensures { result ≡ has_form slots.now operands.now }
{
    if slots.len() != operands.len() {
        return false;
    }
    for (at, slot) in slots.iter().enumerate() {
        if !takes(*slot, operands[at]) {
            return false;
        }
    }
    true
}

// ---- fields

fn register(value: i128) -> Option<u8>
    ensures { result ≡ register value }
{
    if value < 0 || 15 < value {
        return None;
    }
    Some(value as u8)
}

fn displacement(value: i128) -> Option<i32>
    ensures { result ≡ displacement value }
{
    if value < -524_288 || 524_287 < value {
        return None;
    }
    Some(value as i32)
}

fn immediate(value: i128) -> Option<i64>
    ensures { result ≡ immediate value }
{
    if value < -0x8000_0000 || 0xFFFF_FFFF < value {
        return None;
    }
    Some(value as i64)
}

fn length_code(value: i128) -> Option<i64>
    ensures { result ≡ length_code value }
{
    if value < 1 || 256 < value {
        return None;
    }
    Some((value - 1) as i64)
}

fn half(value: i128) -> Option<i128>
    ensures { result ≡ half value }
{
    let size = value.unsigned_abs();
    if size % 2 == 1 {
        return None;
    }
    let half = (size / 2) as i128;
    if value < 0 { Some(-half) } else { Some(half) }
}

/// The halfwords from an address to a target.
fn jump(here: usize, value: i128) -> Option<i64>
    requires { here ≤ storage_size }
    ensures { result ≡ jump here value }
{
    if value < -0x2_0000_0000 || 0x2_0000_0000 <= value {
        return None;
    }
    let halfwords = half(value - here as i128)?;
    immediate(halfwords)
}

/// The fields with a displacement, an index and a base.
fn with_indexed(operand: Operand, fields: Fields) -> Option<Fields>
    ensures { result ≡ with_slot 0 Slot.Indexed operand fields }
{
    let d = displacement(outer(operand))?;
    let x = register(inner(operand))?;
    let b = register(innermost(operand))?;
    Some(Fields { d, x, b, ..fields })
}

/// The fields with a displacement and a base.
fn with_based(operand: Operand, fields: Fields) -> Option<Fields>
    ensures { result ≡ with_slot 0 Slot.Based operand fields }
{
    let d = displacement(outer(operand))?;
    let b = register(inner(operand))?;
    Some(Fields { d, b, ..fields })
}

/// The fields with a displacement, a length and a base.
fn with_counted(operand: Operand, fields: Fields) -> Option<Fields>
    ensures { result ≡ with_slot 0 Slot.Counted operand fields }
{
    let d = displacement(outer(operand))?;
    let imm = length_code(inner(operand))?;
    let b = register(innermost(operand))?;
    Some(Fields {
        d,
        imm,
        b,
        ..fields
    })
}

/// The fields with the second displacement and its base.
fn with_second_based(operand: Operand, fields: Fields) -> Option<Fields>
    ensures { result ≡ with_slot 0 Slot.SecondBased operand fields }
{
    let d2 = displacement(outer(operand))?;
    let b2 = register(inner(operand))?;
    Some(Fields { d2, b2, ..fields })
}

/// The fields with those of one more operand, where its values are in range.
fn with_slot(here: usize, slot: Slot, operand: Operand, fields: Fields) -> Option<Fields>
    requires { here ≤ storage_size }
    ensures { result ≡ with_slot here slot operand fields }
{
    match slot {
        Slot::First => {
            let r1 = register(outer(operand))?;
            Some(Fields { r1, ..fields })
        }
        Slot::Second => {
            let r2 = register(outer(operand))?;
            Some(Fields { r2, ..fields })
        }
        Slot::Third => {
            let r3 = register(outer(operand))?;
            Some(Fields { r3, ..fields })
        }
        Slot::Mask => {
            let mask = register(outer(operand))?;
            Some(Fields { mask, ..fields })
        }
        Slot::Immediate => {
            let imm = immediate(outer(operand))?;
            Some(Fields { imm, ..fields })
        }
        Slot::Compared => {
            let d2 = displacement(outer(operand))?;
            Some(Fields { d2, ..fields })
        }
        Slot::Target => {
            let imm = jump(here, outer(operand))?;
            Some(Fields { imm, ..fields })
        }
        Slot::Indexed => with_indexed(operand, fields),
        Slot::Based => with_based(operand, fields),
        Slot::Counted => with_counted(operand, fields),
        Slot::SecondBased => with_second_based(operand, fields),
    }
}

#[tactic(auto, using(crate::proofs::Forms::field_steps))]
fn fields_from(here: usize, slots: &[Slot], operands: &[Operand], start: Fields) -> Option<Fields>
    requires here { here ≤ storage_size }
    requires same { length slots.now ≡ length operands.now }
    ensures { result ≡ fields_from here slots.now operands.now start }
{
    let mut fields = start;
    for (at, slot) in slots.iter().enumerate() {
        fields = with_slot(here, *slot, operands[at], fields)?;
    }
    Some(fields)
}

fn fields_for(mask: Option<u8>) -> Fields
    ensures { result ≡ fields_for mask }
{
    match mask {
        None => Fields::zero(),
        Some(mask) => Fields {
            mask,
            ..Fields::zero()
        },
    }
}

/// The bytes of an instruction of these fields, where its row allows them.
fn encoded(op: Op, fields: Fields) -> Result<Code, Kind>
    ensures code { IsCode result (allowed_code (entry_at op.number) fields) }
    ensures size { IfOk result (λ code. code.length ≡ size_of_row op.number) }
{
    match Instr::new(op, fields) {
        Some(instr) => Ok(encode(&instr)),
        None => Err(Kind::OutOfRange),
    }
}

/// The bytes of an instruction by its operands, or what is wrong with these: their form, a label, a range.
#[tactic(auto, unfolding(crate::specs::Operands::instruction_in))]
pub fn code_for(row: u16, mask: Option<u8>, here: usize, operands: &[Operand]) -> Result<Code, Kind>
    requires row { row < ROWS }
    requires mask { IsMask mask }
    requires here { here ≤ storage_size }
    ensures code { IsCode result (code_for (entry_at row) mask here operands.now) }
    ensures size { IfOk result (λ code. code.length ≡ size_of_row row) }
{
    let op = Op { number: row };
    let slots = slots_for(line(op), mask);
    if !has_form(slots, operands) {
        return Err(Kind::WrongOperands);
    }
    if is_any_without_value(operands) {
        return Err(Kind::UnknownLabel);
    }
    let Some(fields) = fields_from(here, slots, operands, fields_for(mask)) else {
        return Err(Kind::OutOfRange);
    };
    encoded(op, fields)
}
