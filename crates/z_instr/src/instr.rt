//! Instructions.
ghost use Rattle.std.specs.Prelude.{◌≡◌, ◌<◌, ◌↔◌, IsTrue, true, IfSome, IsSome};
ghost use Rattle.z_instr.specs.Table.{entry_at};
ghost use Rattle.z_instr.specs.Ranges.{are_within, are_registers_within, are_numbers_within, limits_of, AreBelowSixteen};

use crate::limits::{Limits, field_limits};
use crate::op::Op;

/// The fields of an instruction as plain numbers, of which nothing is known.
#[derive(Clone, Copy)]
pub struct Fields {
    pub r1: u8,
    pub r2: u8,
    pub r3: u8,
    pub x: u8,
    pub b: u8,
    pub d: i32,
    pub b2: u8,
    pub d2: i32,
    pub imm: i64,
    pub mask: u8,
}

/// An instruction: its operation and its fields, each in the range of its format. A field that the format
/// lacks is 0.
///
/// The first address is base `b`, index `x` and displacement `d`; the second is base `b2` and displacement
/// `d2`. `imm` is the immediate, the distance of the target in halfwords, or the length code of an operation
/// on two operands in storage. In a compare-immediate-and-branch `imm` is that distance and `d2` the
/// compared byte. `mask` is the mask, also where it stands in the place of a register.
#[derive(Clone, Copy)]
pub struct Instr {
    pub op: Op,
    pub r1: u8,
    pub r2: u8,
    pub r3: u8,
    pub x: u8,
    pub b: u8,
    pub d: i32,
    pub b2: u8,
    pub d2: i32,
    pub imm: i64,
    pub mask: u8,
    ghost r1_in: { r1 < 16 },
    ghost r2_in: { r2 < 16 },
    ghost r3_in: { r3 < 16 },
    ghost x_in: { x < 16 },
    ghost b_in: { b < 16 },
    ghost b2_in: { b2 < 16 },
    ghost mask_in: { mask < 16 },
    ghost shaped: { IsTrue (are_within (limits_of (entry_at op.number)) r1 r2 r3 x b d b2 d2 imm mask) },
}

impl Fields {
    ghost use Rattle.z_instr.specs.Made.{no_fields};

    /// All fields 0.
    pub fn zero() -> Fields
        ensures { result ≡ no_fields }
    {
        Fields {
            r1: 0,
            r2: 0,
            r3: 0,
            x: 0,
            b: 0,
            d: 0,
            b2: 0,
            d2: 0,
            imm: 0,
            mask: 0,
        }
    }

    fn are_registers_in(self, limits: Limits) -> bool
        ensures { result ≡
            are_registers_within limits self.r1 self.r2 self.r3 self.x self.b self.b2 self.mask }
    {
        self.r1 < limits.r1
            && (self.r2 < limits.r2
                && (self.r3 < limits.r3
                    && (self.x < limits.x
                        && (self.b < limits.b
                            && (self.b2 < limits.b2 && self.mask < limits.mask)))))
    }

    fn are_numbers_in(self, limits: Limits) -> bool
        ensures { result ≡ are_numbers_within limits self.d self.d2 self.imm }
    {
        limits.d.has(self.d as i64) && (limits.d2.has(self.d2 as i64) && limits.imm.has(self.imm))
    }

    fn are_in(self, limits: Limits) -> bool
        ensures { result ≡
            are_within limits self.r1 self.r2 self.r3 self.x self.b self.d self.b2 self.d2 self.imm self.mask }
    {
        self.are_registers_in(limits) && self.are_numbers_in(limits)
    }
}

/// Whether the operation's format allows each of the fields.
fn are_allowed(op: Op, fields: Fields) -> bool
    ensures exact { result ≡
        are_within (limits_of
        (entry_at op.number)) fields.r1 fields.r2 fields.r3 fields.x fields.b fields.d fields.b2 fields.d2 fields.imm fields.mask }
    ensures small { result ≡ true →
        AreBelowSixteen fields.r1 fields.r2 fields.r3 fields.x fields.b fields.b2 fields.mask }
{
    fields.are_in(field_limits(op))
}

impl Instr {
    ghost use Rattle.z_instr.specs.Made.{IsAllowed, Has};

    /// The instruction of an operation and of fields; None exactly where the operation's format does not
    /// allow one of them.
    pub fn new(op: Op, fields: Fields) -> Option<Instr>
        ensures allowed { IsSome result ↔ IsAllowed op fields }
        ensures made { IfSome result (Has op fields) }
    {
        if are_allowed(op, fields) {
            Some(Instr {
                op,
                r1: fields.r1,
                r2: fields.r2,
                r3: fields.r3,
                x: fields.x,
                b: fields.b,
                d: fields.d,
                b2: fields.b2,
                d2: fields.d2,
                imm: fields.imm,
                mask: fields.mask,
            })
        } else {
            None
        }
    }
}
