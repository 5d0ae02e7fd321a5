//! Rows by operations and by names, and kinds by operations.
ghost use Rattle.std.specs.Prelude.{◌≡◌, ◌<◌, ◌≤◌, ℕ, IfSome, IfNone, take};
ghost use Rattle.std.specs.Str.{IsAscii};
ghost use Rattle.z_instr.specs.Table.{entry_at, kind_at};
ghost use Rattle.z_instr.specs.Layout.{place, room};
ghost use Rattle.z_instr.specs.declared.table.TheConstants.{ROWS};
ghost use Rattle.z_instr.specs.Lines.{entry_of, row_of};

use crate::format::format_of;
use crate::kind::Kind;
use crate::name::Name;
use crate::op::Op;
use crate::row::Row;
use crate::table::{Line, ROWS, TABLE};

/// The line of an operation: its row and the further columns of the table.
pub fn line(op: Op) -> Line
    ensures row { entry_of result ≡ entry_at op.number }
    ensures count { result.count ≤ 8 }
    ensures ascii { IsAscii (take result.count result.letters) }
    ensures room { result.opcode < room (place result.form) }
{
    TABLE[op.number as usize]
}

/// What an operation does, where the table has it.
pub fn kind_in(op: Op) -> &'static Kind
    ensures { result.now ≡ kind_at op.number }
{
    &TABLE[op.number as usize].kind
}

/// What an operation does.
pub fn kind_of(op: Op) -> Kind
    ensures { result ≡ kind_at op.number }
{
    *kind_in(op)
}

/// The row of an operation.
pub fn row(op: Op) -> Row
    ensures { result ≡ row_of (entry_at op.number) }
{
    let line = line(op);
    Row {
        name: Name::new(line.letters, line.count),
        opcode: line.opcode,
        format: format_of(line.form),
        restricted: line.usage.is_restricted(),
        permitted: line.usage.is_permitted(),
    }
}

/// The operation of a mnemonic, in upper case; None exactly where no row has that name.
pub fn find(name: &[u8]) -> Option<Op>
    ensures found { IfSome result (λ op. (entry_at op.number).name ≡ name.now) }
    ensures none { IfNone result ((n : ℕ) → n < ROWS → (entry_at n).name ≡ name.now → ⊥) }
{
    for number in 0..ROWS {
        let line = line(Op { number });
        if Name::new(line.letters, line.count).bytes() == name {
            return Some(Op { number });
        }
    }
    None
}
