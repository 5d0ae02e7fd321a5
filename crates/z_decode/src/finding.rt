//! The row of an opcode, by a binary search of the instruction table, whose rows stand in the order of their opcodes.
ghost use Rattle.std.specs.Prelude.{◌≡◌, ℕ, ◌<◌, ◌≤◌, length, slice_index, IfSome, IfNone};
ghost use Rattle.z_instr.specs.Table.{entry_at};
ghost use Rattle.z_instr.specs.Layout.{length_by, form_length};
ghost use Rattle.z_instr.specs.Lines.{entry_of};
ghost use Rattle.z_instr.specs.Places.{HasOpcode};
ghost use Rattle.z_instr.specs.declared.table.TheConstants.{ROWS};
ghost use Rattle.z_instr.specs.declared.format.Place.TheVariants.{Ends};
ghost use Rattle.z_decode.specs.Keys.{place_by, key_at as key_in_place, key_in, key_of};

use z_instr::format::{Place, place_of};
use z_instr::op::Op;
use z_instr::table::{Line, TABLE};

/// Where an instruction has its opcode, by its first byte.
fn place_of_lead(first: u8) -> Place
    ensures place { result ≡ place_by first }
    ensures long { result ≡ Ends → 192 ≤ first }
{
    match first {
        0xB2 | 0xB9 | 0xE5 => Place::FirstTwo,
        0xA5 | 0xA7 | 0xC0 | 0xC2 => Place::FirstHalf,
        0xE3 | 0xEB | 0xEC => Place::Ends,
        _ => Place::First,
    }
}

/// The key of an opcode in its place: its first byte, and then the rest of it as a second byte, 0 where it has one byte
/// alone. Rows are in the order of their keys.
fn key_at(place: Place, opcode: u16) -> u32
    ensures { result ≡ key_in_place place opcode }
{
    let opcode = opcode as u32;
    match place {
        Place::First => opcode * 256,
        Place::FirstTwo | Place::Ends => opcode,
        Place::FirstHalf => opcode / 16 * 256 + opcode % 16,
    }
}

/// The key of a row's opcode.
fn key_of_line(line: &Line) -> u32
    ensures { result ≡ key_of (entry_of line.now) }
{
    key_at(place_of(line.form), line.opcode)
}

/// The key of the opcode that bytes have.
fn key_for(bytes: &[u8]) -> u32
    requires { length bytes.now ≡ length_by (slice_index bytes.now 0) }
    ensures { result ≡ key_in bytes.now }
{
    let first = bytes[0] as u32 * 256;
    match place_of_lead(bytes[0]) {
        Place::First => first,
        Place::FirstTwo => first + bytes[1] as u32,
        Place::FirstHalf => first + bytes[1] as u32 % 16,
        Place::Ends => first + bytes[5] as u32,
    }
}

/// The operation of a key.
fn search(key: u32) -> Option<Op>
    ensures found { IfSome result (λ op. key_of (entry_at op.number) ≡ key) }
    ensures none { IfNone result ((n : ℕ) → n < ROWS → key_of (entry_at n) ≡ key → ⊥) }
{
    match TABLE.binary_search_by_key(&key, |line| key_of_line(line)) {
        Ok(at) => Some(Op { number: at as u16 }),
        Err(_) => None,
    }
}

/// The operation whose opcode bytes have.
pub fn find_row(bytes: &[u8]) -> Option<Op>
    requires { length bytes.now ≡ length_by (slice_index bytes.now 0) }
    ensures found { IfSome result (λ op. HasOpcode (entry_at op.number) bytes.now) }
    ensures length { IfSome result (λ op. length bytes.now ≡ form_length (entry_at op.number).form) }
    ensures none { IfNone result ((n : ℕ) → n < ROWS → HasOpcode (entry_at n) bytes.now → ⊥) }
{
    search(key_for(bytes))
}
