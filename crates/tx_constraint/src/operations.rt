//! What the constraints ask of an operation.
ghost use Rattle.std.specs.Prelude.{◌≡◌, ◌≤◌};
ghost use Rattle.tx_constraint.specs.Operations.{is_permitted as permits, is_multiple as is_many, unit_of, bytes_of};

use z_instr::format::length_in;
use z_instr::instr::Instr;
use z_instr::lookup::line;
use z_instr::operand::Operands;
use z_instr::roles::is_relative_branch;

/// The bytes of an octoword.
pub const OCTOWORD_SIZE: u64 = 32;

/// The bytes of a doubleword.
pub const DOUBLEWORD_SIZE: u64 = 8;

/// Whether constrained transactions may have the instruction: the table permits its operation, and a branch
/// with a target goes ahead.
pub fn is_permitted(instr: &Instr) -> bool
    ensures { result ≡ permits instr.now }
{
    line(instr.op).usage.is_permitted() && (instr.imm > 0 || !is_relative_branch(instr.op))
}

/// Whether an operation with these operands is one on several registers.
fn is_multiple(operands: Operands) -> bool
    ensures { result ≡ is_many operands }
{
    match operands {
        Operands::FetchedMany(_) => true,
        Operands::StoredMany(_) => true,
        _ => false,
    }
}

/// The size of the piece of storage in which each operand has to lie.
pub fn unit(instr: &Instr) -> u64
    ensures value { result ≡ unit_of instr.now }
    ensures some { 1 ≤ result }
    ensures few { result ≤ 32 }
{
    if is_multiple(line(instr.op).kind.operands()) {
        OCTOWORD_SIZE
    } else {
        DOUBLEWORD_SIZE
    }
}

/// How many bytes the instruction has.
pub fn instruction_length(instr: &Instr) -> u64
    ensures value { result ≡ bytes_of instr.now }
    ensures small { result ≤ 6 }
{
    u64::from(length_in(line(instr.op).form))
}
