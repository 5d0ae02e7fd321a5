//! The operands of an instruction, by what each stands for.
ghost use Rattle.std.specs.Prelude.{◌≡◌, ◌+◌, ◌+ℤ◌, true};
ghost use Rattle.z_instr.specs.Made.{fields_of};
ghost use Rattle.z_instr.specs.Ranges.{is_within, bounds};
ghost use Rattle.z_instr.specs.Reading.{modulo};
ghost use Rattle.z_list.specs.Operands.{operand_at};

use z_instr::form::Slot;
use z_instr::instr::Instr;

/// One operand.
#[derive(Clone, Copy, PartialEq, Eq)]
pub enum Operand {
    /// A register, a mask or an immediate.
    Number(i64),
    /// The distance of a target from the instruction, in bytes.
    Target(i64),
    /// Storage at a displacement with an index and a base: the displacement and the two registers.
    Indexed(i32, u8, u8),
    /// Storage at a displacement with a base: the displacement and the register.
    Based(i32, u8),
    /// So many bytes of storage at a displacement with a base: the displacement, the number of bytes and the
    /// register.
    Counted(i32, u16, u8),
}

/// A distance in bytes, by that in halfwords.
fn bytes_in(halfwords: i64) -> i64
    requires { is_within (bounds 2147483648 4294967296) halfwords ≡ true }
    ensures { result ≡ halfwords +ℤ halfwords }
{
    halfwords + halfwords
}

/// The number of bytes of a length code, which is one less.
fn count_of(code: i64) -> u16
    ensures { result ≡ modulo 8 code + 1 }
{
    code.rem_euclid(256) as u16 + 1
}

/// The operand that stands for some of an instruction's fields.
///
/// An address is given in full, with a register number 0 where it has no index or no base, and a target by its
/// distance in bytes.
pub fn operand_at(slot: Slot, instr: &Instr) -> Operand
    ensures { result ≡ operand_at slot (fields_of instr.now) }
{
    let i = instr;
    match slot {
        Slot::First => Operand::Number(i64::from(i.r1)),
        Slot::Second => Operand::Number(i64::from(i.r2)),
        Slot::Third => Operand::Number(i64::from(i.r3)),
        Slot::Mask => Operand::Number(i64::from(i.mask)),
        Slot::Immediate => Operand::Number(i.imm),
        Slot::Compared => Operand::Number(i64::from(i.d2)),
        Slot::Target => Operand::Target(bytes_in(i.imm)),
        Slot::Indexed => Operand::Indexed(i.d, i.x, i.b),
        Slot::Based => Operand::Based(i.d, i.b),
        Slot::Counted => Operand::Counted(i.d, count_of(i.imm), i.b),
        Slot::SecondBased => Operand::Based(i.d2, i.b2),
    }
}
