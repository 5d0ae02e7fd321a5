//! Names and columns as the instruction table lists them, names in their order, and fields at the edges of their
//! ranges.

use std::test::Fail;
use z_instr::addresses::{first_address, is_selected, registers_named, second_address};
use z_instr::form::{Form, has_target};
use z_instr::format::{Format, Place, format_of, length_in, place_of};
use z_instr::instr::{Fields, Instr};
use z_instr::limits::field_limits;
use z_instr::lookup::{find, line, row};
use z_instr::name::Name;
use z_instr::op::Op;
use z_instr::operand::{Demand, Operands, Size};
use z_instr::roles::{begins, block_named, is_end, is_relative_branch, sets_access_register};
use z_instr::table::{NAMED, Named, ROWS};

/// Names, and the opcodes of their rows.
static NAMES: [(&[u8], Option<u16>); 8] = [
    (b"SPM", Some(0x04)),
    (b"AGR", Some(0xB908)),
    (b"AGRK", Some(0xB9E8)),
    (b"CGIJ", Some(0xEC7C)),
    (b"AG R", None),
    (b"AGRKX", None),
    (b"TBEG", None),
    (b"", None),
];

/// The opcode of a name's row, if there is one.
fn opcode_of(name: &[u8]) -> Option<u16> {
    let op = find(name)?;
    Some(row(op).opcode)
}

#[test]
fn names_are_found_whole(rt: HostRuntime) {
    for (name, opcode) in NAMES {
        assert_eq!(rt; opcode_of(name), opcode);
    }
}

/// The operation of a name.
fn op_of(name: &[u8]) -> Result<Op, Fail> {
    Ok(find(name).ok_or("no such mnemonic")?)
}

/// Whether a name stands behind these letters, and is that of its row.
fn stands_behind(before: [u8; 8], named: &Named) -> [bool; 2] {
    let is_behind = u64::from_be_bytes(before) < u64::from_be_bytes(named.letters);
    let is_of_row = named.row < ROWS && line(Op { number: named.row }).letters == named.letters;
    [is_behind, is_of_row]
}

// There are as many names as rows, so none is missing.
#[test]
fn names_of_rows_stand_in_their_order(rt: HostRuntime) {
    let mut before = [0; 8];
    for named in &NAMED {
        let row = named.row;
        assert_eq!(rt; stands_behind(before, named), [true; 2], "row {row}");
        before = named.letters;
    }
}

/// Names, with what transactions do: refuse, and permit under constraints.
static FLAGS: [(&[u8], [bool; 2]); 3] = [
    (b"STG", [false, true]),
    (b"SVC", [true, false]),
    (b"SAR", [false, false]),
];

/// Whether the row of an operation has this name and these flags.
fn has_columns(op: Op, name: &[u8], flags: [bool; 2]) -> bool {
    let row = row(op);
    row.name.bytes() == name && [row.restricted, row.permitted] == flags
}

/// The opcode and the format of an operation.
fn opcode_and_format(op: Op) -> (u16, Format) {
    let row = row(op);
    (row.opcode, row.format)
}

#[test]
fn rows_have_their_columns(rt: HostRuntime) -> Result<(), Fail> {
    for (name, flags) in FLAGS {
        assert!(rt; has_columns(op_of(name)?, name, flags));
    }
    let store = opcode_and_format(op_of(b"STG")?);
    assert!(rt; store == (0xE324, Format::RXY));
    Ok(())
}

/// Which operands an operation has, and what it demands of them.
fn operands_and_demand(op: Op) -> (Operands, Demand) {
    let kind = line(op).kind;
    (kind.operands(), kind.demand())
}

/// Whether an operand of the operation is relative to its address.
fn is_relative(op: Op) -> bool {
    has_target(line(op).form)
}

#[test]
fn lines_have_their_columns(rt: HostRuntime) -> Result<(), Fail> {
    let swap = operands_and_demand(op_of(b"CSG")?);
    let relative = [is_relative(op_of(b"LARL")?), is_relative(op_of(b"LGFI")?)];
    assert!(rt; swap == (Operands::Stored(Size::Doubleword), Demand::Boundary));
    assert_eq!(rt; relative, [true, false]);
    Ok(())
}

#[test]
fn formats_and_names(rt: HostRuntime) {
    assert!(rt; place_of(Form::RILa) == Place::FirstHalf);
    assert_eq!(rt; length_in(Form::SILSigned), 6);
    assert!(rt; format_of(Form::RXb) == Format::RX);
    assert_eq!(rt; Name::new(*b"BCR     ", 3).bytes(), b"BCR".as_slice());
}

/// An operation, its first two registers, displacement and immediate, and whether they are an instruction's.
static FIELDS: [(&[u8], u8, u8, i32, i64, bool); 8] = [
    (b"STG", 15, 0, -524288, 0, true),
    (b"STG", 15, 0, -524289, 0, false),
    (b"STG", 15, 0, 524288, 0, false),
    (b"STG", 16, 0, -524288, 0, false),
    (b"STG", 15, 1, -524288, 0, false),
    (b"NILL", 0, 0, 0, 65535, true),
    (b"NILL", 0, 0, 0, -1, false),
    (b"LGHI", 0, 0, 0, 65535, false),
];

/// The instruction of an operation and fields.
fn instruction(op: Op, fields: Fields) -> Result<Instr, Fail> {
    Ok(Instr::new(op, fields).ok_or("no such instruction")?)
}

/// The first register, the displacement and the immediate of the instruction with these fields, if there is one.
fn made(op: Op, r1: u8, r2: u8, d: i32, imm: i64) -> Option<(u8, i32, i64)> {
    let fields = Fields {
        r1,
        r2,
        d,
        imm,
        ..Fields::zero()
    };
    let instr = Instr::new(op, fields)?;
    Some((instr.r1, instr.d, instr.imm))
}

/// Whether the immediate of an operation may be a halfword's lowest number, and the one below.
fn has_lowest(op: Op) -> [bool; 2] {
    let limits = field_limits(op);
    [limits.imm.has(-32768), limits.imm.has(-32769)]
}

#[test]
fn fields_are_held_to_their_ranges(rt: HostRuntime) -> Result<(), Fail> {
    for (name, r1, r2, d, imm, allowed) in FIELDS {
        let wanted = if allowed { Some((r1, d, imm)) } else { None };
        assert_eq!(rt; made(op_of(name)?, r1, r2, d, imm), wanted);
    }
    assert_eq!(rt; has_lowest(op_of(b"LGHI")?), [true, false]);
    Ok(())
}

/// The first address of an instruction with base register 5 and index register 7, by their values, and the second.
fn addresses_by(instr: &Instr, base: u64, index: u64) -> [u64; 2] {
    let mut general = [3; 16];
    general[5] = base;
    general[7] = index;
    [
        first_address(instr, &general),
        second_address(instr, &general),
    ]
}

// An address takes base, index and displacement; register number 0 adds nothing, and the sum goes on from
// 2^64 at 0.
#[test]
fn addresses_of_operands(rt: HostRuntime) -> Result<(), Fail> {
    let fields = Fields {
        b: 5,
        x: 7,
        d: -8,
        ..Fields::zero()
    };
    let load = instruction(op_of(b"LG")?, fields)?;
    let [first, second] = addresses_by(&load, 0x9000, 0x100);
    let [around, _] = addresses_by(&load, u64::MAX, 0x100);
    assert_eq!(rt; [first, second, around], [0x90f8, 0, 0xf7]);
    Ok(())
}

/// Whether these masks select these codes: 8 code 0, 8 code 3, 1 code 3, 1 code 0.
fn selections() -> [bool; 4] {
    [
        is_selected(8, 0),
        is_selected(8, 3),
        is_selected(1, 3),
        is_selected(1, 0),
    ]
}

// The registers from 15 up to 1 are three, and a mask of 8 is for code 0 alone.
#[test]
fn registers_and_codes_named(rt: HostRuntime) -> Result<(), Fail> {
    let fields = Fields {
        r1: 15,
        r3: 1,
        ..Fields::zero()
    };
    let store = instruction(op_of(b"STM")?, fields)?;
    assert_eq!(rt; registers_named(&store), 3);
    assert_eq!(rt; selections(), [true, false, true, false]);
    assert_eq!(rt; [Size::Halfword.bytes(), Size::Doubleword.bytes()], [2, 8]);
    Ok(())
}

/// Operations, and whether they are ends, set an access register, are relative branches and begins.
static ROLES: [(&[u8], [bool; 4]); 6] = [
    (b"BRC", [false, false, true, false]),
    (b"LARL", [false, false, false, false]),
    (b"TEND", [true, false, false, false]),
    (b"SAR", [false, true, false, false]),
    (b"TBEGIN", [false, false, false, true]),
    (b"TBEGINC", [false, false, false, true]),
];

/// Whether an operation is an end, sets an access register, is a relative branch or a begin.
fn roles_of(op: Op) -> [bool; 4] {
    [
        is_end(op),
        sets_access_register(op),
        is_relative_branch(op),
        begins(op),
    ]
}

// Which operations the rules of transactions name.
#[test]
fn roles_in_transactions(rt: HostRuntime) -> Result<(), Fail> {
    for (name, wanted) in ROLES {
        assert_eq!(rt; roles_of(op_of(name)?), wanted);
    }
    Ok(())
}

#[test]
fn a_begin_names_its_block(rt: HostRuntime) -> Result<(), Fail> {
    let fields = Fields {
        b: 5,
        d: 8,
        ..Fields::zero()
    };
    let begin = instruction(op_of(b"TBEGIN")?, fields)?;
    assert_eq!(rt; block_named(&begin, &[0x9000; 16]), Some(0x9008));
    Ok(())
}
