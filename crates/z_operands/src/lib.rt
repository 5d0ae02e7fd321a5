//! What the operation and the operands of a line of a listing say: values, and the bytes of instructions.
#![tactic(auto)]

mod instruction;
mod names;
mod operand;
mod operation;
mod values;

pub use instruction::code_for;
pub use operand::{Atom, Operand, Piece};
pub use operation::{Operation, operation_named, size_of_row};
pub use values::{Room, one_in, read_operands, three_in, two_in};
