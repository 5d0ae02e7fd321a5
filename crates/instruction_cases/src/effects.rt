//! Expected values follow from what the architecture says of the operations; where a line says so, they are
//! those that QEMU and Hercules answer.

use std::test::Fail;
use tx_control::Exception;
use tx_control::codes::FIXED_POINT_OVERFLOW;
use z_arith::{Answer, Shift, Width};
use z_effect::{
    advance, after, combine, compare, conclude, delay, exception, extend, immediate, interrupt,
    logic, next_address, opened, operand, put, put_pair, register, settle, shift, target, transact,
    zero_code,
};
use z_instr::instr::{Fields, Instr};
use z_instr::kind::{
    Branch, Combination, General, Kind, Logic, Operation, Order, Part, Place, Source, Storage,
    Transaction, item, size_in,
};
use z_instr::lookup::{find, kind_of};
use z_instr::operand::Size;
use z_instr::roles::begins;
use z_regs::{CpuImage, RunState};

/// A CPU at 4000, in hexadecimal, with all registers zero but register 1.
fn cpu(value: u64) -> CpuImage {
    let mut image = CpuImage::entering(0x4000);
    image.general[1] = value;
    image
}

/// The instruction of a name, with register 1 and an immediate.
fn instruction(name: &[u8], imm: i64) -> Result<Instr, Fail> {
    let op = find(name).ok_or("no such mnemonic")?;
    let fields = Fields {
        r1: 1,
        imm,
        ..Fields::zero()
    };
    Ok(Instr::new(op, fields).ok_or("no such instruction")?)
}

fn answer(value: u64, condition: u8, overflow: bool) -> Answer {
    Answer {
        value,
        condition,
        overflow,
    }
}

/// What the operation of a name does.
fn kind(name: &[u8]) -> Option<Kind> {
    Some(kind_of(find(name)?))
}

fn adds_signed_words(kind: Option<Kind>) -> bool {
    matches!(
        kind,
        Some(Kind::General(General::Compute(
            Operation::Add,
            Width::Double,
            Source::Second(Part::Signed(Size::Word))
        )))
    )
}

fn moves_bytes(kind: Option<Kind>) -> bool {
    matches!(
        kind,
        Some(Kind::Storage(Storage::ByteByByte(Combination::Move)))
    )
}

fn branches_on_words(kind: Option<Kind>) -> bool {
    matches!(
        kind,
        Some(Kind::Branch(Branch::OnCount(Place::Relative, Width::Word)))
    )
}

fn ends(kind: Option<Kind>) -> bool {
    matches!(kind, Some(Kind::Transaction(Transaction::End)))
}

#[test]
fn kinds_by_operations(rt: HostRuntime) {
    let right = [
        adds_signed_words(kind(b"AGFR")),
        moves_bytes(kind(b"MVC")),
        branches_on_words(kind(b"BRCT")),
        ends(kind(b"TEND")),
    ];
    assert_eq!(rt; right, [true; 4]);
}

/// Answers of operations on words.
fn made_of_words() -> [Answer; 5] {
    let w = Width::Word;
    // as QEMU answers for AR and for LCR
    [
        combine(Operation::Add, w, 0, 0x7FFF_FFFF, 0x80),
        combine(Operation::LoadComplement, w, 2, 0, 0xFFFF_FFFF),
        combine(Operation::Multiply, w, 3, 0xFFFF_FF80, 0xFFFF_FF80),
        combine(Operation::Subtract, w, 0, 5, 7),
        combine(Operation::Logic(Logic::ExclusiveOr), w, 3, 5, 5),
    ]
}

#[test]
fn operations_on_words(rt: HostRuntime) {
    let wanted = [
        answer(0x8000_007F, 3, true),
        answer(1, 2, false),
        answer(0x4000, 3, false),
        answer(0xFFFF_FFFE, 1, false),
        answer(0, 0, false),
    ];
    assert_eq!(rt; made_of_words(), wanted);
}

/// Answers of operations on doublewords with a carry, a carry out and a borrow.
fn made_with_carry() -> [Answer; 3] {
    let w = Width::Double;
    // as QEMU answers for ALCGR and SLBGR
    let (lowest, highest) = (0x8000_0000_0000_0001, 0x7FFF_FFFF_FFFF_FFFF);
    [
        combine(Operation::AddWithCarry, w, 0, lowest, highest),
        combine(Operation::AddWithCarry, w, 2, lowest, 1 << 63),
        combine(Operation::SubtractWithBorrow, w, 1, 0, 0),
    ]
}

#[test]
fn operations_with_carry(rt: HostRuntime) {
    let wanted = [
        answer(0, 2, false),
        answer(2, 3, false),
        answer(u64::MAX, 1, false),
    ];
    assert_eq!(rt; made_with_carry(), wanted);
}

/// The codes of all ones in a word beside 1, with a sign, without, and in a doubleword.
fn compared() -> [u8; 3] {
    [
        compare(Order::Signed, Width::Word, 0xFFFF_FFFF, 1),
        compare(Order::Logical, Width::Word, 0xFFFF_FFFF, 1),
        compare(Order::Signed, Width::Double, 0xFFFF_FFFF, 1),
    ]
}

#[test]
fn comparisons(rt: HostRuntime) {
    assert_eq!(rt; compared(), [1, 2, 2]);
}

/// The bits that both have, that either has, and two codes.
fn joined() -> ([u64; 2], [u8; 2]) {
    let both = logic(Logic::And, 0b1100, 0b1010);
    let either = logic(Logic::Or, 0b1100, 0b1010);
    ([both, either], [zero_code(0), zero_code(0b1000)])
}

#[test]
fn bits(rt: HostRuntime) {
    assert_eq!(rt; joined(), ([0b1000, 0b1110], [0, 1]));
}

/// Parts of registers with a sign, and one without.
const SIGNED: Part = Part::Signed(Size::Halfword);

fn pieces_made() -> [u64; 4] {
    [
        extend(Width::Word, SIGNED, 0x8000),
        extend(Width::Double, SIGNED, 0x8000),
        extend(Width::Double, Part::Plain(Size::Byte), 0x80),
        immediate(Width::Word, -2),
    ]
}

/// Whether parts and widths have their sizes.
fn have_sizes() -> bool {
    size_in(SIGNED) == Size::Halfword && item(Width::Word) == Size::Word
}

#[test]
fn pieces(rt: HostRuntime) {
    let wanted = [0xFFFF_8000, 0xFFFF_FFFF_FFFF_8000, 0x80, 0xFFFF_FFFE];
    assert_eq!(rt; (pieces_made(), have_sizes()), (wanted, true));
}

/// A shift without a sign, which leaves the code; one by which a bit is lost that is unlike the sign; and a word that
/// rotates by the amount modulo 32.
fn shifted() -> [Answer; 3] {
    let w = Width::Word;
    [
        shift(Shift::LeftLogical, w, 3, 0x8000_0001, 1),
        shift(Shift::LeftSigned, w, 0, 0x4000_0001, 1),
        shift(Shift::Rotate, w, 1, 0x8000_0001, 33),
    ]
}

#[test]
fn shifts(rt: HostRuntime) {
    let wanted = [answer(2, 3, false), answer(2, 3, true), answer(3, 1, false)];
    assert_eq!(rt; shifted(), wanted);
}

/// The word of register 1, and registers 1 to 3 once a word and a pair have been put.
fn registers_put(mut image: CpuImage) -> (u64, [u64; 3]) {
    let right = operand(&image, Width::Word, 1);
    put(&mut image, Width::Word, 1, 5);
    put_pair(&mut image, Width::Double, 2, 7, 8);
    let whole = [
        register(&image, 1),
        register(&image, 2),
        register(&image, 3),
    ];
    (right, whole)
}

/// The registers behind the second and the last.
fn registers_behind() -> [u8; 2] {
    [after(2), after(15)]
}

#[test]
fn registers(rt: HostRuntime) {
    let found = (
        registers_put(cpu(0x1111_2222_3333_4444)),
        registers_behind(),
    );
    let put = (0x3333_4444, [0x1111_2222_0000_0005, 7, 8]);
    assert_eq!(rt; found, (put, [3, 0]));
}

/// The target of one instruction and the address behind it, and at the end of all addresses the target of another, and
/// where the CPU goes on.
fn places_of(back: &Instr, forward: &Instr, mut image: CpuImage) -> [u64; 4] {
    let behind = target(back, &image);
    let next = next_address(&image, 6);
    image.address = u64::MAX - 1;
    let around = target(forward, &image);
    advance(&mut image, 4);
    [behind, next, around, image.address]
}

#[test]
fn places(rt: HostRuntime) -> Result<(), Fail> {
    let back = instruction(b"LARL", -3)?;
    let forward = instruction(b"LARL", 2)?;
    let places = places_of(&back, &forward, cpu(0));
    assert_eq!(rt; places, [0x3FFA, 0x4006, 2, 2]);
    Ok(())
}

/// What a CPU answers to an overflow whose mask is 7, and its code and address then; and what it answers to one of an
/// instruction behind it, where the mask is 8, and its register 1 and address then.
type Overflows = (
    (Result<(), Exception>, u8, u64),
    (Result<(), Exception>, u64, u64),
);

fn overflows(instr: &Instr, mut image: CpuImage) -> Overflows {
    image.mask = 7;
    let goes_on = conclude(&mut image, 2, 3, true);
    let first = (goes_on, image.condition, image.address);
    image.mask = 8;
    let nine = Answer {
        value: 9,
        condition: 3,
        overflow: true,
    };
    let ended = settle(instr, &mut image, 4, Width::Word, nine);
    (first, (ended, image.general[1], image.address))
}

/// A fixed-point overflow of an instruction of so many bytes.
fn overflow(length: u8) -> Exception {
    Exception {
        code: FIXED_POINT_OVERFLOW,
        fetch: false,
        length,
    }
}

#[test]
fn overflow_by_the_mask(rt: HostRuntime) -> Result<(), Fail> {
    let instr = instruction(b"AHI", 0)?;
    let found = (
        exception(FIXED_POINT_OVERFLOW, 2),
        overflows(&instr, cpu(0)),
    );
    let first = (Ok(()), 3, 0x4002);
    let second = (Err(overflow(4)), 9, 0x4006);
    assert_eq!(rt; found, (overflow(2), (first, second)));
    Ok(())
}

/// The instruction of a name, with these fields.
fn with_fields(name: &[u8], fields: Fields) -> Option<Instr> {
    Instr::new(find(name)?, fields)
}

/// What the two executors of the transaction instructions share: the turns that an assist waits, the depth, the address
/// behind it, and the address and the state behind an interruption.
fn steps(assist: &Instr, mut image: CpuImage) -> (u32, [u64; 3], RunState) {
    let turns = delay(assist, &image);
    transact(Transaction::ExtractDepth, assist, &mut image, 4, 16);
    let depth = image.general[1];
    let next = image.address;
    interrupt(&mut image, exception(FIXED_POINT_OVERFLOW, 6));
    (turns, [depth, next, image.address], image.state)
}

#[test]
fn transaction_steps(rt: HostRuntime) -> Result<(), Fail> {
    let fields = Fields {
        r1: 1,
        mask: 1,
        ..Fields::zero()
    };
    let assist = with_fields(b"PPA", fields).ok_or("an assist")?;
    let state = RunState::Interrupted(FIXED_POINT_OVERFLOW);
    assert_eq!(rt; steps(&assist, cpu(256)), (64, [16, 0x4004, 0x400A], state));
    Ok(())
}

/// Mask, constraint, and both controls of the level that a begin opens, if it is one.
fn level(begin: &Instr) -> Option<(u8, bool, bool, u8)> {
    if !begins(begin.op) {
        return None;
    }
    let level = opened(begin, &cpu(0));
    Some((level.mask, level.constrained, level.f, level.pifc))
}

#[test]
fn a_level_is_opened(rt: HostRuntime) -> Result<(), Fail> {
    let fields = Fields {
        imm: 0xFF0F,
        ..Fields::zero()
    };
    let begin = with_fields(b"TBEGINC", fields).ok_or("a begin")?;
    assert_eq!(rt; level(&begin), Some((0xFF, true, false, 0)));
    Ok(())
}
