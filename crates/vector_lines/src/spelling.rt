//! Lines of the listing as people write them.

use crate::fault::Fault;
use crate::numbers::{first_word, listing_number};
use std::alloc::Global;
use z_instr::form::{Slot, slots_of};
use z_instr::instr::Instr;
use z_instr::lookup::{line, row};
use z_list::{Operand, operand_at};

/// Mnemonics that stand for BRC with this mask.
static BRANCHES: [(&str, i64); 13] = [
    ("J", 15),
    ("JE", 8),
    ("JZ", 8),
    ("JNE", 7),
    ("JNZ", 7),
    ("JH", 2),
    ("JP", 2),
    ("JL", 4),
    ("JM", 4),
    ("JO", 1),
    ("JNH", 13),
    ("JNL", 11),
    ("JNO", 14),
];

/// The mask of one of these.
fn mask_of(mnemonic: &str) -> Option<i64> {
    for (name, mask) in &BRANCHES {
        if *name == mnemonic {
            return Some(*mask);
        }
    }
    None
}

/// The mnemonic of the table, and the mask that is its first operand, where that is not written.
fn base_of(mnemonic: &str) -> (&str, Option<i64>) {
    if mnemonic == "BR" {
        return ("BCR", Some(15));
    }
    match mask_of(mnemonic) {
        Some(mask) => ("BRC", Some(mask)),
        None => (mnemonic, None),
    }
}

/// Whether a parenthesis opens before any comma.
fn opens_first(text: &str) -> bool {
    match (text.find('('), text.find(',')) {
        (Some(open), Some(comma)) => open < comma,
        (Some(_), None) => true,
        (None, _) => false,
    }
}

/// Where the first operand ends that others follow.
fn end_of(text: &str) -> Option<usize> {
    if opens_first(text) {
        return Some(text.find("),")? + 1);
    }
    text.find(',')
}

/// The first operand, and what stands behind its comma.
fn cut(text: &str) -> Option<(&str, &str)> {
    let Some(end) = end_of(text) else {
        return Some((text, ""));
    };
    let (operand, rest) = text.split_at_checked(end)?;
    match rest.strip_prefix(',') {
        Some("") | None => None,
        Some(rest) => Some((operand, rest)),
    }
}

/// The numbers of an operand; those that its form lacks are 0.
fn numbers_of(operand: &Operand) -> [i64; 3] {
    match *operand {
        Operand::Number(n) | Operand::Target(n) => [n, 0, 0],
        Operand::Indexed(d, x, b) => [i64::from(d), i64::from(x), i64::from(b)],
        Operand::Based(d, b) => [i64::from(d), i64::from(b), 0],
        Operand::Counted(d, count, b) => [i64::from(d), i64::from(count), i64::from(b)],
    }
}

/// One or two numbers in parentheses, and how many they are; a second one that is left out is 0.
fn inner_numbers(inner: &str) -> Option<(u8, i64, i64)> {
    match inner.split_once(',') {
        Some((first, second)) => Some((2, listing_number(first)?, listing_number(second)?)),
        None => Some((1, listing_number(inner)?, 0)),
    }
}

/// The numbers of an operand in storage: a displacement, and those in parentheses, of which there have to be from
/// `least` to `most`. The register of an index or a base that is left out is 0.
fn storage_numbers(text: &str, least: u8, most: u8) -> Option<[i64; 3]> {
    let Some((displacement, inner)) = text.split_once('(') else {
        return if least == 0 {
            Some([listing_number(text)?, 0, 0])
        } else {
            None
        };
    };
    let displacement = listing_number(displacement)?;
    let (count, first, second) = inner_numbers(inner.strip_suffix(')')?)?;
    if least <= count && count <= most {
        Some([displacement, first, second])
    } else {
        None
    }
}

/// The numbers of a text in the form of an operand.
fn read_as(form: &Operand, text: &str) -> Option<[i64; 3]> {
    match form {
        Operand::Number(_) => Some([listing_number(text)?, 0, 0]),
        Operand::Target(_) => Some([listing_number(text.strip_prefix('*')?)?, 0, 0]),
        Operand::Indexed(..) => storage_numbers(text, 0, 2),
        Operand::Based(..) => storage_numbers(text, 0, 1),
        Operand::Counted(..) => storage_numbers(text, 2, 2),
    }
}

/// Whether the operands of an instruction that have these slots are written like this.
fn are_written(instr: &Instr, slots: &[Slot], text: &str) -> Option<bool> {
    let mut rest = text;
    for slot in slots {
        let (text, further) = cut(rest)?;
        let operand = operand_at(*slot, instr);
        if read_as(&operand, text)? != numbers_of(&operand) {
            return Some(false);
        }
        rest = further;
    }
    Some(rest.is_empty())
}

/// Whether operands are written like this, the first by a mask that the mnemonic stands for, if it does.
fn are_operands(instr: &Instr, mask: Option<i64>, text: &str) -> Option<bool> {
    match (mask, slots_of(line(instr.op).form)) {
        (None, slots) => are_written(instr, slots, text),
        (Some(mask), [first, others @ ..]) if operand_at(*first, instr) == Operand::Number(mask) =>
            are_written(instr, others, text),
        (Some(_), _) => Some(false),
    }
}

/// Whether a line of the listing in capitals is a spelling of an instruction; none where it is malformed.
fn is_spelling_in_capitals(line: &str, instr: &Instr) -> Option<bool> {
    let (mnemonic, text) = first_word(line);
    let (base, mask) = base_of(mnemonic);
    if row(instr.op).name.bytes() != base.as_bytes() {
        return Some(false);
    }
    are_operands(instr, mask, text)
}

/// Whether a line of the listing is a spelling of an instruction.
pub fn is_spelling(alloc: Global, line: &str, instr: &Instr) -> Result<bool, Fault> {
    let line = line.to_ascii_uppercase(alloc)?;
    is_spelling_in_capitals(line.as_str(), instr).ok_or(Fault::Malformed)
}
