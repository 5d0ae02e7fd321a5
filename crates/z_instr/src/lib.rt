//! The instructions of the machine: their table, their fields, and how their bytes are read. Names, formats,
//! opcodes and operands are those of z/Architecture, as its Principles of Operation gives them; which
//! operations transactions refuse is this machine's choice.
#![tactic(auto)]

pub mod addresses;
pub mod form;
pub mod format;
pub mod instr;
pub mod kind;
pub mod laws;
pub mod layout;
pub mod limits;
pub mod lookup;
pub mod name;
pub mod op;
pub mod operand;
pub mod roles;
pub mod row;
pub mod table;
