//! The disassembler: the instructions of an image as lines of text, each with its address, its bytes, its
//! mnemonic and its operands.
#![tactic(auto)]

mod laws;
mod lines;
mod parts;
mod spelling;

pub use laws::{each_instruction_has_a_line, operands_tell_instructions, texts_tell_instructions};
pub use lines::listing;
pub use parts::{Operand, operand_at};
pub use spelling::instruction_text;
