//! Operations: instructions and directives.
ghost use Rattle.std.specs.Prelude.{◌≡◌, ◌<◌, ◌≤◌, IfSome, option_map, codes};
ghost use Rattle.z_instr.specs.declared.table.TheConstants.{ROWS};
ghost use Rattle.z_operands.specs.Operations.{placing_named, machine_named, directive_named, branch_mask, row_named};
ghost use Rattle.z_operands.specs.Operations.{instruction, extended};
ghost use Rattle.z_operands.specs.Operations.{or_else, operation_named, size_of_row};
ghost use Rattle.z_operands.specs.Sizes.{IsKnown, IsMask};

use crate::names::row_in_order;
use z_instr::format::length_in;
use z_instr::lookup::{find, line};
use z_instr::op::Op;

/// What a line asks for.
#[derive(Clone, Copy, Debug, PartialEq, Eq)]
pub enum Operation {
    /// An instruction: its row in the instruction table, and the mask of an extended mnemonic.
    Instruction(u16, Option<u8>),
    /// ORG: the location changes.
    Org,
    /// EQU: a label gets a value.
    Equ,
    /// DS: zeros.
    Ds,
    /// DC: bytes.
    Dc,
    /// CPU: the next CPU's entry.
    Cpu,
    /// REG: a general register's first value.
    Reg,
    /// SHOW: bytes that are shown.
    Show,
    /// TDB: a diagnostic block that is shown.
    Tdb,
    /// SCHED: events.
    Sched,
    /// PARM: a number of the retry ladder.
    Parm,
    /// PREFIX: a CPU's prefix.
    Prefix,
    /// END: no more lines that say something.
    End,
}

/// The directive of a name that places bytes, or says where.
#[tactic(auto, unfolding(crate::specs::Operations::placing_named))]
fn placing_named(name: &[u8]) -> Option<Operation>
    ensures is { result ≡ placing_named name.now }
    ensures known { IfSome result IsKnown }
{
    match name {
        b"ORG" => Some(Operation::Org),
        b"EQU" => Some(Operation::Equ),
        b"DS" => Some(Operation::Ds),
        b"DC" => Some(Operation::Dc),
        _ => None,
    }
}

/// The directive of a name that says something of the machine.
#[tactic(auto, unfolding(crate::specs::Operations::machine_named))]
fn machine_named(name: &[u8]) -> Option<Operation>
    ensures is { result ≡ machine_named name.now }
    ensures known { IfSome result IsKnown }
{
    match name {
        b"CPU" => Some(Operation::Cpu),
        b"REG" => Some(Operation::Reg),
        b"SHOW" => Some(Operation::Show),
        b"TDB" => Some(Operation::Tdb),
        b"SCHED" => Some(Operation::Sched),
        b"PARM" => Some(Operation::Parm),
        b"END" => Some(Operation::End),
        _ => None,
    }
}

fn directive_named(name: &[u8]) -> Option<Operation>
    ensures is { result ≡ directive_named name.now }
    ensures known { IfSome result IsKnown }
{
    if name == b"PREFIX".as_slice() {
        return Some(Operation::Prefix);
    }
    if let Some(directive) = placing_named(name) {
        return Some(directive);
    }
    machine_named(name)
}

/// The mask of an extended mnemonic that branches to a target.
#[tactic(auto, unfolding(crate::specs::Operations::branch_mask))]
fn branch_mask(name: &[u8]) -> Option<u8>
    ensures is { result ≡ branch_mask name.now }
    ensures known { IsMask result }
{
    match name {
        b"J" => Some(15),
        b"JE" | b"JZ" => Some(8),
        b"JNE" | b"JNZ" => Some(7),
        b"JH" | b"JP" => Some(2),
        b"JL" | b"JM" => Some(4),
        b"JO" => Some(1),
        b"JNH" => Some(13),
        b"JNL" => Some(11),
        b"JNO" => Some(14),
        _ => None,
    }
}

/// The number of the row of a name.
fn row_named(name: &[u8]) -> Option<u16>
    ensures is { result ≡ row_named name.now }
    ensures known { IfSome result (λ row. row < ROWS) }
{
    if let Some(row) = row_in_order(name) {
        return Some(row);
    }
    Some(find(name)?.number)
}

fn instruction(row: Option<u16>, mask: Option<u8>) -> Option<Operation>
    requires row { IfSome row (λ row. row < ROWS) }
    requires mask { IsMask mask }
    ensures is { result ≡ instruction row mask }
    ensures known { IfSome result IsKnown }
{
    Some(Operation::Instruction(row?, mask))
}

/// The operation of an extended mnemonic.
fn extended(name: &[u8]) -> Option<Operation>
    ensures is { result ≡ extended name.now (branch_mask name.now) }
    ensures known { IfSome result IsKnown }
{
    if let Some(mask) = branch_mask(name) {
        return instruction(row_named(b"BRC"), Some(mask));
    }
    match name {
        b"BR" => instruction(row_named(b"BCR"), Some(15)),
        _ => None,
    }
}

/// The operation of a name in capitals, if it is one.
#[tactic(auto, unfolding(crate::specs::Operations::operation_named))]
pub fn operation_named(name: &[u8]) -> Option<Operation>
    ensures is { result ≡ operation_named name.now }
    ensures known { IfSome result IsKnown }
{
    if let Some(directive) = directive_named(name) {
        return Some(directive);
    }
    if let Some(mask) = branch_mask(name) {
        return instruction(row_named(b"BRC"), Some(mask));
    }
    if let Some(operation) = instruction(row_named(name), None) {
        return Some(operation);
    }
    extended(name)
}

/// How many bytes a row's instructions have: 2, 4 or 6.
pub fn size_of_row(row: u16) -> usize
    requires { row < ROWS }
    ensures is { result ≡ size_of_row row }
    ensures some { 0 < result }
    ensures few { result ≤ 6 }
{
    usize::from(length_in(line(Op { number: row }).form))
}
