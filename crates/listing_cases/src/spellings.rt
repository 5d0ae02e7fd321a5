//! Readings that an outside disassembler gave, in the listing's spelling, and the listing of a small program.

use std::test::Fail;
use z_assemble::assemble;
use z_decode::{decode, length_of};
use z_instr::form::Slot;
use z_instr::instr::Instr;
use z_list::{Operand, instruction_text, listing, operand_at};

/// The bytes of an instruction, and its mnemonic and operands.
struct Case {
    bytes: &'static [u8],
    text: &'static [u8],
}

macro_rules! case {
    ([$($byte:literal),*] => $text:literal) => {
        Case {
            bytes: &[$($byte),*],
            text: $text,
        }
    };
}

static CASES: [Case; 39] = [
    case!([0x18, 0x1E] => b"LR 1,14"),
    case!([0x04, 0xB0] => b"SPM 11"),
    case!([0x07, 0x1E] => b"BCR 1,14"),
    case!([0x0A, 0xFF] => b"SVC 255"),
    case!([0x47, 0x7E, 0x27, 0x7B] => b"BC 7,1915(14,2)"),
    case!([0x58, 0xC2, 0xD2, 0xE9] => b"L 12,745(2,13)"),
    case!([0xB9, 0x08, 0x00, 0xFF] => b"AGR 15,15"),
    case!([0xB2, 0x22, 0x00, 0x80] => b"IPM 8"),
    case!([0xB2, 0x4E, 0x00, 0x00] => b"SAR 0,0"),
    case!([0xB9, 0xE8, 0x00, 0x00] => b"AGRK 0,0,0"),
    case!([0xB9, 0xE2, 0x40, 0x8B] => b"LOCGR 8,11,4"),
    case!([0xE3, 0x0C, 0xCF, 0xDD, 0xA5, 0x02] => b"LTG 0,-368675(12,12)"),
    case!([0xE3, 0x06, 0xCB, 0xCB, 0x18, 0x02] => b"LTG 0,101323(6,12)"),
    case!([0xA7, 0x94, 0xE2, 0x3B] => b"BRC 9,*-15242"),
    case!([0xA7, 0x85, 0x2B, 0x54] => b"BRAS 8,*+22184"),
    case!([0xA7, 0x15, 0x00, 0x00] => b"BRAS 1,*+0"),
    case!([0xA5, 0xF7, 0x00, 0x01] => b"NILL 15,1"),
    case!([0xC0, 0x84, 0xAF, 0xA0, 0x4B, 0x0F] => b"BRCL 8,*-2696899042"),
    case!([0xC0, 0x00, 0x92, 0x36, 0x59, 0x37] => b"LARL 0,*-3683863954"),
    case!([0xC2, 0xBE, 0xE5, 0xC7, 0x76, 0xD9] => b"CLGFI 11,3855054553"),
    case!([0x88, 0x80, 0xCC, 0xAD] => b"SRL 8,3245(12)"),
    case!([0xBA, 0x00, 0x00, 0x00] => b"CS 0,0,0(0)"),
    case!([0xEB, 0x21, 0x34, 0x34, 0xCF, 0xE2] => b"LOCG 2,-199628(3),1"),
    case!([0x91, 0x01, 0xFF, 0xFF] => b"TM 4095(15),1"),
    case!([0xEB, 0xA0, 0xD0, 0x00, 0x00, 0x7A] => b"AGSI 0(13),-96"),
    case!([0xE5, 0x60, 0xE9, 0x35, 0xF3, 0x4A] => b"TBEGIN 2357(14),62282"),
    case!([0xE5, 0x48, 0x98, 0x47, 0xF6, 0xFF] => b"MVGHI 2119(9),-2305"),
    case!([0xB2, 0xFC, 0xCE, 0xA3] => b"TABORT 3747(12)"),
    case!([0xD2, 0x82, 0x09, 0xCD, 0xFB, 0x4E] => b"MVC 2509(131,0),2894(15)"),
    case!([0xD7, 0xFF, 0xFF, 0xFF, 0xFF, 0xFF] => b"XC 4095(256,15),4095(15)"),
    case!([0xEC, 0x10, 0x71, 0x4F, 0x10, 0x64] => b"CGRJ 1,0,1,*+58014"),
    case!([0xEC, 0x12, 0x30, 0x04, 0x00, 0x7C] => b"CGIJ 1,0,2,*+24584"),
    case!([0xA7, 0xF8, 0xFF, 0xFF] => b"LHI 15,-1"),
    case!([0xEB, 0x30, 0x9D, 0x83, 0xAF, 0x04] => b"LMG 3,0,-328317(9)"),
    case!([0xEB, 0x06, 0x35, 0xCF, 0x4E, 0x0A] => b"SRAG 0,6,320975(3)"),
    case!([0xEB, 0x80, 0xCD, 0x9E, 0xDC, 0x6A] => b"ASI -143970(12),-128"),
    case!([0xB2, 0xF8, 0x00, 0x00] => b"TEND"),
    case!([0xEC, 0x74, 0xFF, 0xFF, 0xA0, 0x64] => b"CGRJ 7,4,10,*-2"),
    case!([0xEC, 0x51, 0x91, 0xBF, 0xCD, 0x7C] => b"CGIJ 5,-51,1,*-56450"),
];

/// The instruction of some bytes, if they are as many as their first one says and have a reading.
fn instr_of(bytes: &[u8]) -> Option<Instr> {
    match bytes.first() {
        Some(first) if bytes.len() == usize::from(length_of(*first)) => decode(bytes).ok(),
        _ => None,
    }
}

#[test]
fn instructions_are_spelled(rt: HostRuntime) -> Result<(), Fail> {
    for case in &CASES {
        let instr = instr_of(case.bytes).expect(&rt, "a reading");
        let text = instruction_text(rt.alloc(), &instr)?;
        assert_eq!(rt; text.as_slice(), case.text);
    }
    Ok(())
}

#[test]
fn targets_are_in_bytes(rt: HostRuntime) {
    let instr = instr_of(&[0xA7, 0x94, 0xE2, 0x3B]).expect(&rt, "a reading");
    assert!(rt; operand_at(Slot::Mask, &instr) == Operand::Number(9));
    assert!(rt; operand_at(Slot::Target, &instr) == Operand::Target(-15242));
}

/// A program at hex 4000, and its listing by the model.
const PROGRAM: &str = " CPU 16384\n LGHI 1,5\n LGHI 2,7\n AGR 1,2\n SVC 0\n";

const LISTED: &str = "00004000 a7190005     LGHI 1,5\n\
    00004004 a7290007     LGHI 2,7\n\
    00004008 b9080012     AGR 1,2\n\
    0000400c 0a00         SVC 0\n";

#[test]
fn programs_are_listed(rt: HostRuntime) -> Result<(), Fail> {
    let image = assemble(rt.alloc(), PROGRAM.as_bytes())?;
    let text = listing(rt.alloc(), &image)?;
    assert_eq!(rt; text.as_slice(), LISTED.as_bytes());
    let empty = assemble(rt.alloc(), b" CPU 16384\n")?;
    assert_eq!(rt; listing(rt.alloc(), &empty)?.len(), 0);
    Ok(())
}
