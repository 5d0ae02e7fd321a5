//! The row of a name, found by halving the rows in the order of their names.
ghost use Rattle.std.specs.Prelude.{◌≡◌, ◌<◌, ◌≤◌, length, IfSome, IsTrue, nat_lt};
ghost use Rattle.z_instr.specs.Table.{entry_at};
ghost use Rattle.z_instr.specs.declared.table.TheConstants.{ROWS};

use z_instr::lookup::line;
use z_instr::name::Name;
use z_instr::op::Op;
use z_instr::table::{NAMED, ROWS};

/// The first eight bytes of a name as a number, with blanks behind the last byte.
fn key_of(name: &[u8]) -> u64 {
    let mut letters = *b"        ";
    let count = name.len().min(8);
    letters[..count].copy_from_slice(&name[..count]);
    u64::from_be_bytes(letters)
}

/// The row that stands where a name would stand, whether or not it has this name.
fn guess(name: &[u8]) -> Option<u16>
    ensures { IfSome result (λ row. row < ROWS) }
{
    let key = key_of(name);
    let place = NAMED
        .as_slice()
        .partition_point(|named| u64::from_be_bytes(named.letters) < key);
    let row = NAMED.get(place)?.row;
    if row < ROWS { Some(row) } else { None }
}

/// Whether a row has this name.
fn has_name(row: u16, name: &[u8]) -> bool
    requires { row < ROWS }
    ensures { IsTrue result → (entry_at row).name ≡ name.now }
{
    let line = line(Op { number: row });
    Name::new(line.letters, line.count).bytes() == name
}

/// The row of a name, where the order of names has it.
pub(crate) fn row_in_order(name: &[u8]) -> Option<u16>
    ensures known { IfSome result (λ row. row < ROWS) }
    ensures found { IfSome result (λ row. (entry_at row).name ≡ name.now) }
{
    let row = guess(name)?;
    if has_name(row, name) { Some(row) } else { None }
}
