//! The rows of the instruction table.

use crate::format::Format;
use crate::name::Name;

/// A row: the mnemonic and the opcode of an operation, its format, whether every transaction refuses it
/// (`restricted`), and whether constrained transactions may have it (`permitted`). SAR is refused only where
/// changes of access registers are not allowed, so it is not `restricted`.
#[derive(Drop)]
pub struct Row {
    pub name: Name,
    pub opcode: u16,
    pub format: Format,
    pub restricted: bool,
    pub permitted: bool,
}
