//! What holds of the whole table, and of every reading. Each law is the contract of a function that does
//! nothing.
ghost use Rattle.std.specs.Prelude.{◌≡◌, ◌<◌, ℕ, List, length, get_or, true, nat_eq, ◌≤◌, All};
ghost use Rattle.std.specs.Prelude.{◌↔◌, Some, None, ◌*◌, ◌%◌, ◌^◌};
ghost use Rattle.std.specs.List.{list_any};
ghost use Rattle.z_instr.specs.Operands.{Span, IsSmall, pieces, spans, HoldsByteOf};
ghost use Rattle.z_instr.specs.Kinds.{operands_of, demand_of};
ghost use Rattle.z_instr.specs.Table.{table, row_count, entry_at, kind_at};
ghost use Rattle.z_instr.specs.Layout.{length_by, form_length, place, room};
ghost use Rattle.z_instr.specs.Facts.{has_fitting_name, is_refused_alike, has_two_lists, is_service, is_begin};
ghost use Rattle.z_instr.specs.Layouts.{layout_of, is_whole, taken, spelled, width};
ghost use Rattle.z_instr.specs.Ranges.{is_within, byte, half};
ghost use Rattle.z_instr.specs.Places.{HasOpcode, opcode_at};
ghost use Rattle.z_instr.specs.Reading.{AreBytes, AreSame, Reads};
ghost use Rattle.z_instr.specs.Computing.{reading_of};
ghost use Rattle.z_instr.specs.declared.instr.Instr.{Instr};
ghost use Rattle.z_instr.specs.declared.layout.Digit.{Digit};
ghost use Rattle.z_instr.specs.declared.table.TheConstants.{ROWS};

/// The code's number of rows is that of the defined table, which has as many as is written beside it.
pub fn rows_are_counted()
    ensures all { ROWS ≡ length table }
    ensures number { length table ≡ row_count }
{}

/// No two rows have one name, and no bytes have the opcodes of two rows in their places.
pub fn rows_are_distinct()
    ensures names { (m n : ℕ) → m < ROWS → n < ROWS → (entry_at m).name ≡ (entry_at n).name → m ≡ n }
    ensures opcodes { (m n : ℕ) (bytes : List ℕ) → m < ROWS → n < ROWS → AreBytes bytes →
        HasOpcode (entry_at m) bytes → HasOpcode (entry_at n) bytes → m ≡ n }
{}

/// Each name has one to eight ASCII letters, each opcode fits its place, and what every transaction refuses
/// is not permitted in constrained ones.
pub fn rows_are_sound()
    ensures names { (n : ℕ) → n < ROWS → has_fitting_name (entry_at n) ≡ true }
    ensures opcodes { (n : ℕ) → n < ROWS → (entry_at n).opcode < room (place (entry_at n).form) }
    ensures refused { (n : ℕ) → n < ROWS → is_refused_alike (entry_at n) ≡ true }
{}

/// The operands in storage that an operation touches, and what it demands, are those of its kind.
pub fn columns_follow_from_kinds()
    ensures operands { (n : ℕ) → n < ROWS → (entry_at n).operands ≡ operands_of (kind_at n) }
    ensures demands { (n : ℕ) → n < ROWS → (entry_at n).demand ≡ demand_of (kind_at n) }
{}

/// No list has two readings, no instruction is read from two lists, and what has a reading is a list of
/// bytes, as long as its first byte says.
pub fn readings_are_unique()
    ensures instruction { (bytes : List ℕ) (i j : Instr) → Reads bytes i → Reads bytes j → AreSame i j }
    ensures bytes { (some others : List ℕ) (i : Instr) → Reads some i → Reads others i → some ≡ others }
    ensures list { (bytes : List ℕ) (i : Instr) → Reads bytes i → AreBytes bytes }
    ensures length { (bytes : List ℕ) (i : Instr) → Reads bytes i →
        length bytes ≡ length_by (get_or bytes 0 0) }
{}

/// The pages, lines, blocks or octowords of a range are exactly those that hold a byte of it.
pub fn pieces_hold_bytes()
    ensures held { (size : ℕ) (s : Span) (piece : ℕ) → 0 < size → 0 < s.length →
        list_any (nat_eq piece) (pieces size s) ≡ true → HoldsByteOf size s piece }
    ensures all { (size : ℕ) (s : Span) (piece : ℕ) → 0 < size → 0 < s.length → HoldsByteOf size s piece →
        list_any (nat_eq piece) (pieces size s) ≡ true }
{}

/// The immediate of an instruction on two lists of bytes, and of a service call, is from 0 to 255; that of a
/// begin is from 0 to 65535.
pub fn immediates_are_plain()
    ensures lists { (i : Instr) → has_two_lists (entry_at i.op.number).operands ≡ true →
        is_within byte i.imm ≡ true }
    ensures services { (i : Instr) → is_service (entry_at i.op.number).demand ≡ true →
        is_within byte i.imm ≡ true }
    ensures begins { (i : Instr) → is_begin (entry_at i.op.number).demand ≡ true →
        is_within half i.imm ≡ true }
{}

/// An instruction has at most two operands in storage, each of 1 to 256 bytes.
pub fn operands_are_small()
    ensures count { (i : Instr) (general : List ℕ) (code : ℕ) → length (spans i general code) ≤ 2 }
    ensures size { (i : Instr) (general : List ℕ) (code : ℕ) → All IsSmall (spans i general code) }
{}

/// Instructions of one operation with the same fields are one instruction.
pub fn fields_make_instructions()
    ensures { (i j : Instr) → AreSame i j → i ≡ j }
{}

/// The computed reading of a list is an instruction exactly where the list reads as it, and there is none
/// exactly where the list reads as no instruction.
pub fn reading_computes()
    ensures there { (bytes : List ℕ) (i : Instr) → Reads bytes i → reading_of bytes ≡ Some i }
    ensures reads { (bytes : List ℕ) (i : Instr) → reading_of bytes ≡ Some i → Reads bytes i }
    ensures none { (bytes : List ℕ) → (reading_of bytes ≡ None) ↔ ((i : Instr) → Reads bytes i → ⊥) }
{}

/// Each field stands whole and once in the layout of a row, two digits of it make a byte, and the opcode that bytes
/// have in its place is the one that these digits hold.
pub fn layouts_are_whole()
    ensures whole { (n : ℕ) → n < ROWS → is_whole (layout_of (entry_at n)) ≡ true }
    ensures length { (n : ℕ) → n < ROWS →
        length (layout_of (entry_at n)) ≡ 2 * form_length (entry_at n).form }
    ensures opcodes { (n : ℕ) (bytes : List ℕ) → n < ROWS →
        opcode_at (place (entry_at n).form) bytes ≡ taken (layout_of (entry_at n)) bytes 0 }
{}

/// What is spelled by a whole layout holds each field's number, as many bits of it as the layout has.
pub fn layouts_keep_fields()
    ensures { (ds : List Digit) (v : ℕ → ℕ) (r : ℕ) → is_whole ds ≡ true → r < 12 →
        taken ds (spelled ds v) r ≡ v r % 16 ^ width ds r }
{}
