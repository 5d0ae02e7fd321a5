//! The texts of operands and of instructions.
ghost use Rattle.std.specs.Prelude.{◌≡◌, ◌++◌, IfOk, OnOk};
ghost use Rattle.std.specs.Fmt.{decimal, signed_decimal};
ghost use Rattle.z_instr.specs.Made.{fields_of};
ghost use Rattle.z_list.specs.Operands.{target_text, pair_text, based_text, operand_text, further_text};
ghost use Rattle.z_list.specs.Operands.{operands_at, field_text, instruction_text};

use crate::parts::{Operand, operand_at};
use std::alloc::{AllocError, Global};
use tx_journal::NoMemory;
use z_instr::form::{Slot, slots_of};
use z_instr::instr::Instr;
use z_instr::lookup::line;

/// Adds a number in decimal.
fn add_number(text: &mut Vec<u8>, number: u64) -> Result<(), AllocError>
    ensures { OnOk result (text.new.items ≡ text.old.items ++ decimal number) }
{
    let mut digits = itoa::Buffer::new();
    text.extend_from_slice(digits.format(number).as_bytes())
}

/// Adds a number in decimal, behind a minus where it is below 0.
fn add_signed(text: &mut Vec<u8>, number: i64) -> Result<(), AllocError>
    ensures { OnOk result (text.new.items ≡ text.old.items ++ signed_decimal number) }
{
    let mut digits = itoa::Buffer::new();
    text.extend_from_slice(digits.format(number).as_bytes())
}

/// Adds the distance of a target.
fn add_target(text: &mut Vec<u8>, distance: i64) -> Result<(), AllocError>
    ensures { OnOk result (text.new.items ≡ text.old.items ++ target_text distance) }
{
    if distance < 0 {
        text.extend_from_slice(b"*")?;
        add_signed(text, distance)
    } else {
        text.extend_from_slice(b"*+")?;
        add_signed(text, distance)
    }
}

/// Adds a displacement, and a number behind it in parentheses.
fn add_based(text: &mut Vec<u8>, displacement: i32, base: u8) -> Result<(), AllocError>
    ensures { OnOk result (text.new.items ≡ text.old.items ++ based_text displacement base) }
{
    add_signed(text, i64::from(displacement))?;
    text.extend_from_slice(b"(")?;
    add_number(text, u64::from(base))?;
    text.extend_from_slice(b")")
}

/// Adds a displacement, and two numbers behind it in parentheses.
fn add_pair(text: &mut Vec<u8>, displacement: i32, inner: u16, base: u8) -> Result<(), AllocError>
    ensures { OnOk result (text.new.items ≡ text.old.items ++ pair_text displacement inner base) }
{
    add_signed(text, i64::from(displacement))?;
    text.extend_from_slice(b"(")?;
    add_number(text, u64::from(inner))?;
    text.extend_from_slice(b",")?;
    add_number(text, u64::from(base))?;
    text.extend_from_slice(b")")
}

/// Adds an operand.
fn add_operand(text: &mut Vec<u8>, operand: Operand) -> Result<(), AllocError>
    ensures { OnOk result (text.new.items ≡ text.old.items ++ operand_text operand) }
{
    match operand {
        Operand::Number(number) => add_signed(text, number),
        Operand::Target(distance) => add_target(text, distance),
        Operand::Indexed(d, index, base) => add_pair(text, d, u16::from(index), base),
        Operand::Based(d, base) => add_based(text, d, base),
        Operand::Counted(d, count, base) => add_pair(text, d, count, base),
    }
}

/// Adds the operands of an instruction, by what each stands for, behind a blank and with commas between them;
/// nothing where there are none.
fn add_field(text: &mut Vec<u8>, slots: &[Slot], instr: &Instr) -> Result<(), AllocError>
    ensures { OnOk result
        (text.new.items ≡ text.old.items ++ field_text (operands_at slots.now (fields_of instr.now))) }
{
    let Some((first, others)) = slots.split_first() else {
        return Ok(());
    };
    text.extend_from_slice(b" ")?;
    add_operand(text, operand_at(*first, instr))?;
    for slot in others {
        text.extend_from_slice(b",")?;
        add_operand(text, operand_at(*slot, instr))?;
    }
    Ok(())
}

/// Adds the mnemonic and the operands of an instruction.
#[tactic(auto, unfolding(crate::specs::Operands::instruction_text))]
pub(crate) fn add_instruction(text: &mut Vec<u8>, instr: &Instr) -> Result<(), AllocError>
    ensures { OnOk result (text.new.items ≡ text.old.items ++ instruction_text instr.now) }
{
    let line = line(instr.op);
    text.extend_from_slice(&line.letters[..usize::from(line.count)])?;
    add_field(text, slots_of(line.form), instr)
}

/// The mnemonic and the operands of an instruction as the listing has them, without its address and its
/// bytes. `NoMemory` comes for want of memory.
pub fn instruction_text(alloc: Global, instr: &Instr) -> Result<Vec<u8>, NoMemory>
    ensures { IfOk result (λ text. text.items ≡ instruction_text instr.now) }
{
    let mut text = Vec::new(alloc);
    add_instruction(&mut text, instr)?;
    Ok(text)
}
