//! Operations.
ghost use Rattle.std.specs.Prelude.{◌<◌};
ghost use Rattle.z_instr.specs.declared.table.TheConstants.{ROWS};

/// An operation: the number of its row in the instruction table, which begins at 0.
#[derive(Clone, Copy, PartialEq, Eq)]
pub struct Op {
    pub number: u16,
    ghost known: { number < ROWS },
}
