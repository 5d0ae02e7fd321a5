//! The interruption codes of the program exceptions that this machine recognizes.

/// No instruction has these bytes, or a service call has a number that is not served.
pub const OPERATION: u16 = 0x0001;
/// A store into a page that may not be changed, or a fetch of instructions from a page that has none.
pub const PROTECTION: u16 = 0x0004;
/// Storage that is not there for the program.
pub const ADDRESSING: u16 = 0x0005;
/// A field, a boundary or an address that the instruction does not allow.
pub const SPECIFICATION: u16 = 0x0006;
/// A sum, a difference or a shift whose value does not fit its register.
pub const FIXED_POINT_OVERFLOW: u16 = 0x0008;
/// A division by zero, or a quotient that does not fit its register.
pub const FIXED_POINT_DIVIDE: u16 = 0x0009;
/// An instruction that wants a transaction, outside one.
pub const SPECIAL_OPERATION: u16 = 0x0013;
/// A constrained transaction that breaks one of its constraints.
pub const TRANSACTION_CONSTRAINT: u16 = 0x0018;
