//! Encodings that an outside assembler gave, the ends of each field's range, and every row by way of its
//! bytes.

use std::process::Abort;
use z_decode::{Code, NoReading, decode, encode, length_of};
use z_instr::instr::{Fields, Instr};
use z_instr::limits::{Bounds, field_limits};
use z_instr::lookup::{find, line, row};
use z_instr::op::Op;
use z_instr::operand::Demand;
use z_instr::table::ROWS;

/// An instruction and its bytes. The registers are R1, R2, R3, the index, both bases and the mask; the
/// numbers are both displacements and the immediate.
struct Case {
    name: &'static [u8],
    registers: [u8; 7],
    numbers: [i64; 3],
    bytes: &'static [u8],
}

macro_rules! case {
    ($name:literal [$($register:expr),*] [$($number:expr),*] => [$($byte:expr),*]) => {
        Case {
            name: $name,
            registers: [$($register),*],
            numbers: [$($number),*],
            bytes: &[$($byte),*],
        }
    };
}

static CASES: [Case; 55] = [
    case!(b"LPR" [7, 15, 0, 0, 0, 0, 0] [0, 0, 0] => [0x10, 0x7F]),
    case!(b"SPM" [15, 0, 0, 0, 0, 0, 0] [0, 0, 0] => [0x04, 0xF0]),
    case!(b"BCR" [0, 15, 0, 0, 0, 0, 7] [0, 0, 0] => [0x07, 0x7F]),
    case!(b"SVC" [0, 0, 0, 0, 0, 0, 0] [0, 0, 128] => [0x0A, 0x80]),
    case!(b"BC" [0, 0, 0, 12, 6, 0, 14] [4095, 0, 0] => [0x47, 0xEC, 0x6F, 0xFF]),
    case!(b"CS" [8, 0, 15, 0, 9, 0, 0] [4095, 0, 0] => [0xBA, 0x8F, 0x9F, 0xFF]),
    case!(b"IPM" [6, 0, 0, 0, 0, 0, 0] [0, 0, 0] => [0xB2, 0x22, 0x00, 0x60]),
    case!(b"ETND" [8, 0, 0, 0, 0, 0, 0] [0, 0, 0] => [0xB2, 0xEC, 0x00, 0x80]),
    case!(b"AGRK" [6, 10, 15, 0, 0, 0, 0] [0, 0, 0] => [0xB9, 0xE8, 0xF0, 0x6A]),
    case!(b"LOCGR" [9, 15, 0, 0, 0, 0, 0] [0, 0, 0] => [0xB9, 0xE2, 0x00, 0x9F]),
    case!(b"PPA" [11, 15, 0, 0, 0, 0, 8] [0, 0, 0] => [0xB2, 0xE8, 0x80, 0xBF]),
    case!(b"STY" [15, 0, 0, 15, 15, 0, 0] [524287, 0, 0] => [0xE3, 0xFF, 0xFF, 0xFF, 0x7F, 0x50]),
    case!(b"STY" [2, 0, 0, 9, 1, 0, 0] [-524288, 0, 0] => [0xE3, 0x29, 0x10, 0x00, 0x80, 0x50]),
    case!(b"LG" [0, 0, 0, 15, 12, 0, 0] [-1, 0, 0] => [0xE3, 0x0F, 0xCF, 0xFF, 0xFF, 0x04]),
    case!(b"LGHI" [0, 0, 0, 0, 0, 0, 0] [0, 0, -32768] => [0xA7, 0x09, 0x80, 0x00]),
    case!(b"LGHI" [8, 0, 0, 0, 0, 0, 0] [0, 0, -1] => [0xA7, 0x89, 0xFF, 0xFF]),
    case!(b"NILL" [8, 0, 0, 0, 0, 0, 0] [0, 0, 54803] => [0xA5, 0x87, 0xD6, 0x13]),
    case!(b"TMLL" [0, 0, 0, 0, 0, 0, 0] [0, 0, 32768] => [0xA7, 0x01, 0x80, 0x00]),
    case!(b"BRC" [0, 0, 0, 0, 0, 0, 1] [0, 0, 32767] => [0xA7, 0x14, 0x7F, 0xFF]),
    case!(b"BRAS" [6, 0, 0, 0, 0, 0, 0] [0, 0, -32768] => [0xA7, 0x65, 0x80, 0x00]),
    case!(b"LARL" [15, 0, 0, 0, 0, 0, 0] [0, 0, 2147483647] => [0xC0, 0xF0, 0x7F, 0xFF, 0xFF, 0xFF]),
    case!(b"BRCL" [0, 0, 0, 0, 0, 0, 8] [0, 0, -256] => [0xC0, 0x84, 0xFF, 0xFF, 0xFF, 0x00]),
    case!(b"LGFI" [12, 0, 0, 0, 0, 0, 0] [0, 0, 1073741823] => [0xC0, 0xC1, 0x3F, 0xFF, 0xFF, 0xFF]),
    case!(b"CLGFI" [5, 0, 0, 0, 0, 0, 0] [0, 0, 4294967295] => [0xC2, 0x5E, 0xFF, 0xFF, 0xFF, 0xFF]),
    case!(b"SRA" [15, 0, 0, 0, 15, 0, 0] [4095, 0, 0] => [0x8A, 0xF0, 0xFF, 0xFF]),
    case!(b"LM" [14, 0, 7, 0, 1, 0, 0] [1, 0, 0] => [0x98, 0xE7, 0x10, 0x01]),
    case!(b"LMG" [3, 0, 0, 0, 9, 0, 0] [-328317, 0, 0] => [0xEB, 0x30, 0x9D, 0x83, 0xAF, 0x04]),
    case!(b"SRAG" [2, 0, 15, 0, 12, 0, 0] [-1, 0, 0] => [0xEB, 0x2F, 0xCF, 0xFF, 0xFF, 0x0A]),
    case!(b"LOCG" [15, 0, 0, 0, 15, 0, 15] [524287, 0, 0] => [0xEB, 0xFF, 0xFF, 0xFF, 0x7F, 0xE2]),
    case!(b"STOCG" [7, 0, 0, 0, 10, 0, 7] [-513772, 0, 0] => [0xEB, 0x77, 0xA9, 0x14, 0x82, 0xE3]),
    case!(b"CLI" [0, 0, 0, 0, 9, 0, 0] [4095, 0, 16] => [0x95, 0x10, 0x9F, 0xFF]),
    case!(b"ASI" [0, 0, 0, 0, 12, 0, 0] [-143970, 0, -128] => [0xEB, 0x80, 0xCD, 0x9E, 0xDC, 0x6A]),
    case!(b"AGSI" [0, 0, 0, 0, 5, 0, 0] [-524288, 0, -16] => [0xEB, 0xF0, 0x50, 0x00, 0x80, 0x7A]),
    case!(b"MVHI" [0, 0, 0, 0, 4, 0, 0] [493, 0, -32768] => [0xE5, 0x4C, 0x41, 0xED, 0x80, 0x00]),
    case!(b"TBEGIN" [0, 0, 0, 0, 1, 0, 0] [3072, 0, 61338] => [0xE5, 0x60, 0x1C, 0x00, 0xEF, 0x9A]),
    case!(b"TBEGINC" [0, 0, 0, 0, 10, 0, 0] [1333, 0, 33253] => [0xE5, 0x61, 0xA5, 0x35, 0x81, 0xE5]),
    case!(b"TEND" [0, 0, 0, 0, 0, 0, 0] [0, 0, 0] => [0xB2, 0xF8, 0x00, 0x00]),
    case!(b"TABORT" [0, 0, 0, 0, 0, 0, 0] [3780, 0, 0] => [0xB2, 0xFC, 0x0E, 0xC4]),
    case!(b"MVC" [0, 0, 0, 0, 15, 15, 0] [4095, 4095, 255] => [0xD2, 0xFF, 0xFF, 0xFF, 0xFF, 0xFF]),
    case!(b"MVC" [0, 0, 0, 0, 7, 1, 0] [3972, 693, 13] => [0xD2, 0x0D, 0x7F, 0x84, 0x12, 0xB5]),
    case!(b"CGRJ" [2, 0, 0, 0, 0, 0, 15] [0, 0, -256] => [0xEC, 0x20, 0xFF, 0x00, 0xF0, 0x64]),
    case!(b"CGRJ" [10, 12, 0, 0, 0, 0, 7] [0, 0, -29828] => [0xEC, 0xAC, 0x8B, 0x7C, 0x70, 0x64]),
    case!(b"CGIJ" [10, 0, 0, 0, 0, 0, 9] [0, -128, -26788] => [0xEC, 0xA9, 0x97, 0x5C, 0x80, 0x7C]),
    case!(b"CGIJ" [15, 0, 0, 0, 0, 0, 8] [0, -78, 32767] => [0xEC, 0xF8, 0x7F, 0xFF, 0xB2, 0x7C]),
    case!(b"AGR" [1, 2, 0, 0, 0, 0, 0] [0, 0, 0] => [0xB9, 0x08, 0x00, 0x12]),
    // the ends of ranges that are not among those above
    case!(b"STG" [1, 0, 0, 0, 0, 0, 0] [36864, 0, 0] => [0xE3, 0x10, 0x00, 0x00, 0x09, 0x24]),
    case!(b"NILL" [0, 0, 0, 0, 0, 0, 0] [0, 0, 65535] => [0xA5, 0x07, 0xFF, 0xFF]),
    case!(b"LGHI" [1, 0, 0, 0, 0, 0, 0] [0, 0, 32767] => [0xA7, 0x19, 0x7F, 0xFF]),
    case!(b"LGFI" [0, 0, 0, 0, 0, 0, 0] [0, 0, -2147483648] => [0xC0, 0x01, 0x80, 0x00, 0x00, 0x00]),
    case!(b"LGFI" [15, 0, 0, 0, 0, 0, 0] [0, 0, 2147483647] => [0xC0, 0xF1, 0x7F, 0xFF, 0xFF, 0xFF]),
    case!(b"CLI" [0, 0, 0, 0, 0, 0, 0] [0, 0, 255] => [0x95, 0xFF, 0x00, 0x00]),
    case!(b"ASI" [0, 0, 0, 0, 15, 0, 0] [-1, 0, 127] => [0xEB, 0x7F, 0xFF, 0xFF, 0xFF, 0x6A]),
    case!(b"CGIJ" [1, 0, 0, 0, 0, 0, 15] [0, 127, -32768] => [0xEC, 0x1F, 0x80, 0x00, 0x7F, 0x7C]),
    case!(b"SVC" [0, 0, 0, 0, 0, 0, 0] [0, 0, 255] => [0x0A, 0xFF]),
    case!(b"MVGHI" [0, 0, 0, 0, 15, 0, 0] [4095, 0, 32767] => [0xE5, 0x48, 0xFF, 0xFF, 0x7F, 0xFF]),
];

/// Bytes without a reading: spare bits of instructions that there are, opcodes that no machine has, and
/// instructions on floating-point and decimal numbers, which this machine leaves out. So an instruction more
/// changes none of them.
static REFUSED: [&[u8]; 21] = [
    // a bit that no field uses
    &[0xB9, 0x08, 0x01, 0x12],
    // R2 in an instruction with R1 alone
    &[0x04, 0x04],
    // a byte that no field uses
    &[0xB2, 0x22, 0x01, 0x00],
    &[0xB2, 0xEC, 0x04, 0xF0],
    // the half behind a third register
    &[0xB9, 0xE8, 0x31, 0x10],
    // R3 in a shift
    &[0x8A, 0x3B, 0xF3, 0x5C],
    // an address in an instruction without operands
    &[0xB2, 0xF8, 0x00, 0x01],
    // the half behind a mask, with the low bit alone
    &[0xEC, 0x00, 0x00, 0x00, 0x08, 0x64],
    // opcodes that no machine has, some of them beside those of rows
    &[0x00, 0x00],
    &[0x52, 0x19, 0x22, 0x4E],
    &[0xAA, 0xE7, 0xC7, 0x8D],
    &[0xB2, 0xF7, 0x00, 0x00],
    &[0xC0, 0x22, 0x78, 0x1E, 0xEB, 0x71],
    &[0xC2, 0x23, 0x00, 0x00, 0x00, 0x00],
    &[0xE3, 0x12, 0x30, 0x04, 0x00, 0x9B],
    &[0xE5, 0x05, 0x00, 0x00, 0x00, 0x00],
    &[0xEB, 0x12, 0x30, 0x04, 0x00, 0x7D],
    // floating-point and decimal numbers: MDR, AD, LDEB and AP
    &[0x2C, 0x28],
    &[0x6A, 0x64, 0x6F, 0x9F],
    &[0xED, 0x12, 0x30, 0x04, 0x00, 0x04],
    &[0xFA, 0xC3, 0xD2, 0x14, 0x28, 0x7E],
];

fn fields_of(case: &Case) -> Fields {
    Fields {
        r1: case.registers[0],
        r2: case.registers[1],
        r3: case.registers[2],
        x: case.registers[3],
        b: case.registers[4],
        b2: case.registers[5],
        mask: case.registers[6],
        d: case.numbers[0].clamp(-1000000, 1000000) as i32,
        d2: case.numbers[1].clamp(-1000000, 1000000) as i32,
        imm: case.numbers[2],
    }
}

fn has_fields(instr: &Instr, fields: &Fields) -> bool {
    let registers = instr.r1 == fields.r1 && instr.r2 == fields.r2 && instr.r3 == fields.r3;
    let first = instr.x == fields.x && instr.b == fields.b && instr.d == fields.d;
    let second = instr.b2 == fields.b2 && instr.d2 == fields.d2;
    registers && first && second && instr.imm == fields.imm && instr.mask == fields.mask
}

/// What bytes of any length read as.
fn reading(bytes: &[u8]) -> Option<Instr> {
    if bytes.is_empty() || bytes.len() != length_of(bytes[0]) as usize {
        return None;
    }
    decode(bytes).ok()
}

fn spelling(code: &Code) -> &[u8] {
    &code.bytes[..code.length as usize]
}

fn is_read(case: &Case, op: Op) -> bool {
    match reading(case.bytes) {
        Some(instr) => instr.op == op && has_fields(&instr, &fields_of(case)),
        None => false,
    }
}

fn is_spelled(case: &Case, op: Op) -> bool {
    match Instr::new(op, fields_of(case)) {
        Some(instr) => spelling(&encode(&instr)) == case.bytes,
        None => false,
    }
}

/// Whether the bytes of a case read as its instruction, and whether this is spelled as them.
fn agreements(case: &Case) -> [bool; 2] {
    match find(case.name) {
        Some(op) => [is_read(case, op), is_spelled(case, op)],
        None => [false; 2],
    }
}

#[test]
fn outside_encodings_are_read_and_spelled(rt: HostRuntime) {
    for case in &CASES {
        assert_eq!(rt; agreements(case), [true; 2], "{:?}", case.bytes);
    }
}

/// Whether bytes of any length have no reading.
fn is_refused(bytes: &[u8]) -> bool {
    reading(bytes).is_none()
}

/// Why two zeros have no reading, if they have none.
fn fault_of_zeros() -> Option<NoReading> {
    decode(&[0x00, 0x00]).err()
}

#[test]
fn bytes_without_a_reading_are_refused(rt: HostRuntime) {
    for bytes in REFUSED {
        assert!(rt; is_refused(bytes), "{bytes:?}");
    }
    assert!(rt; fault_of_zeros() == Some(NoReading));
}

#[test]
fn lengths_follow_the_first_two_bits(rt: HostRuntime) {
    for (first, length) in [
        (0x00, 2),
        (0x3F, 2),
        (0x40, 4),
        (0xBF, 4),
        (0xC0, 6),
        (0xFF, 6),
    ] {
        assert_eq!(rt; length_of(first), length);
    }
}

/// The highest number of some bounds.
fn highest(bounds: Bounds) -> i64 {
    (bounds.above.clamp(1, 0x1_0000_0000) - 1) as i64
}

/// Each field of an operation at the end of its range.
fn highest_fields(op: Op) -> Fields {
    let limits = field_limits(op);
    Fields {
        r1: limits.r1.saturating_sub(1),
        r2: limits.r2.saturating_sub(1),
        r3: limits.r3.saturating_sub(1),
        x: limits.x.saturating_sub(1),
        b: limits.b.saturating_sub(1),
        d: highest(limits.d).clamp(0, 1000000) as i32,
        b2: limits.b2.saturating_sub(1),
        d2: highest(limits.d2).clamp(0, 1000000) as i32,
        imm: highest(limits.imm),
        mask: limits.mask.saturating_sub(1),
    }
}

fn comes_back(op: Op, fields: Fields) -> bool {
    let Some(instr) = Instr::new(op, fields) else {
        return false;
    };
    match reading(spelling(&encode(&instr))) {
        Some(read) => read.op == op && has_fields(&read, &fields),
        None => false,
    }
}

/// Whether an operation comes back from its bytes with fields of zero, with the highest ones, and from its name.
fn returns(op: Op) -> [bool; 3] {
    [
        comes_back(op, Fields::zero()),
        comes_back(op, highest_fields(op)),
        find(row(op).name.bytes()) == Some(op),
    ]
}

#[test]
fn every_row_comes_back_from_its_bytes(rt: HostRuntime) {
    for number in 0..ROWS {
        assert_eq!(rt; returns(Op { number }), [true; 3], "row {number}");
    }
}

/// Refused in every transaction.
static RESTRICTED: [&[u8]; 3] = [b"PPA", b"SPM", b"SVC"];

/// Refused in constrained transactions, in the order of the alphabet.
static NOT_PERMITTED: [&[u8]; 43] = [
    b"AGSI", b"ASI", b"BASR", b"BC", b"BCR", b"BCT", b"BCTGR", b"BCTR", b"BRAS", b"BRASL", b"CLC",
    b"CS", b"CSG", b"DLGR", b"DR", b"DSGR", b"ETND", b"FLOGR", b"LAA", b"LAAG", b"LANG", b"LAOG",
    b"LAXG", b"MGHI", b"MHI", b"MLGR", b"MR", b"MS", b"MSG", b"MSGR", b"MSR", b"MVC", b"NC",
    b"NTSTG", b"OC", b"PPA", b"SAR", b"SPM", b"SVC", b"TABORT", b"TBEGIN", b"TBEGINC", b"XC",
];

/// R1 has to be even.
static EVEN_PAIRS: [&[u8]; 6] = [b"DLGR", b"DR", b"DSGR", b"FLOGR", b"MLGR", b"MR"];

/// The operand has to stand on a boundary of its size.
static BOUNDARIES: [&[u8]; 8] = [
    b"CS", b"CSG", b"LAA", b"LAAG", b"LANG", b"LAOG", b"LAXG", b"NTSTG",
];

/// What an operation demands by the lists above and by its name.
fn demand_of(name: &[u8]) -> Demand {
    if EVEN_PAIRS.contains(&name) {
        return Demand::EvenPair;
    }
    if BOUNDARIES.contains(&name) {
        return Demand::Boundary;
    }
    match name {
        b"TABORT" => Demand::AbortCode,
        b"TBEGIN" => Demand::Begin,
        b"TBEGINC" => Demand::BeginConstrained,
        b"SVC" => Demand::ServiceZero,
        _ => Demand::Nothing,
    }
}

/// Whether the flags of an operation and its demand are those of the lists.
fn follows_lists(op: Op) -> [bool; 3] {
    let row = row(op);
    let name = row.name.bytes();
    [
        row.restricted == RESTRICTED.contains(&name),
        row.permitted != NOT_PERMITTED.contains(&name),
        line(op).kind.demand() == demand_of(name),
    ]
}

/// The lists were copied from the architecture's, and from no table here.
#[test]
fn flags_of_every_row_are_those_of_the_lists(rt: HostRuntime) {
    for number in 0..ROWS {
        assert_eq!(rt; follows_lists(Op { number }), [true; 3], "row {number}");
    }
}
