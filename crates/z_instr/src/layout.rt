//! Forms as data: which digit of which field stands where in an instruction.
ghost use Rattle.std.specs.Prelude.{◌≡◌, ◌<◌};
ghost use Rattle.z_instr.specs.Layouts.{layout, rank, layout_of};
ghost use Rattle.z_instr.specs.Lines.{entry_of};

use crate::form::Form;
use crate::table::Line;

/// What stands in an instruction: its opcode, its fields, and bits that no field uses, which are zero.
#[derive(Clone, Copy, PartialEq, Eq)]
pub enum Field {
    Opcode,
    R1,
    R2,
    R3,
    X,
    B,
    D,
    B2,
    D2,
    Imm,
    Mask,
    Spare,
}

/// Four bits of an instruction: a hexadecimal digit of a field, by its index; the last digit has the index 0.
#[derive(Clone, Copy)]
pub struct Digit {
    pub field: Field,
    pub index: u8,
}

/// The number of a field, 0 to 11.
pub fn rank_of(field: Field) -> u8
    ensures rank { result ≡ rank field }
    ensures few { result < 12 }
{
    match field {
        Field::Opcode => 0,
        Field::R1 => 1,
        Field::R2 => 2,
        Field::R3 => 3,
        Field::X => 4,
        Field::B => 5,
        Field::D => 6,
        Field::B2 => 7,
        Field::D2 => 8,
        Field::Imm => 9,
        Field::Mask => 10,
        Field::Spare => 11,
    }
}

/// Digits from left to right: a field alone is its last digit, and a number behind it is the digit's index.
macro_rules! digits {
    ($($field:ident $index:literal),*) => {
        [$(Digit { field: Field::$field, index: $index }),*]
    };
}

static RR: [Digit; 4] = digits!(Opcode 1, Opcode 0, R1 0, R2 0);

static RR_MASK: [Digit; 4] = digits!(Opcode 1, Opcode 0, Mask 0, R2 0);

static RR_SINGLE: [Digit; 4] = digits!(Opcode 1, Opcode 0, R1 0, Spare 0);

static I: [Digit; 4] = digits!(Opcode 1, Opcode 0, Imm 1, Imm 0);

static RX_A: [Digit; 8] = digits!(Opcode 1, Opcode 0, R1 0, X 0, B 0, D 2, D 1, D 0);

static RX_B: [Digit; 8] = digits!(Opcode 1, Opcode 0, Mask 0, X 0, B 0, D 2, D 1, D 0);

static RRE: [Digit; 8] =
    digits!(Opcode 3, Opcode 2, Opcode 1, Opcode 0, Spare 1, Spare 0, R1 0, R2 0);

static RRE_SINGLE: [Digit; 8] =
    digits!(Opcode 3, Opcode 2, Opcode 1, Opcode 0, Spare 2, Spare 1, R1 0, Spare 0);

static RRF_A: [Digit; 8] =
    digits!(Opcode 3, Opcode 2, Opcode 1, Opcode 0, R3 0, Spare 0, R1 0, R2 0);

static RRF_C: [Digit; 8] =
    digits!(Opcode 3, Opcode 2, Opcode 1, Opcode 0, Mask 0, Spare 0, R1 0, R2 0);

static RXY_A: [Digit; 12] =
    digits!(Opcode 3, Opcode 2, R1 0, X 0, B 0, D 2, D 1, D 0, D 4, D 3, Opcode 1, Opcode 0);

static RI_A: [Digit; 8] = digits!(Opcode 2, Opcode 1, R1 0, Opcode 0, Imm 3, Imm 2, Imm 1, Imm 0);

static RI_C: [Digit; 8] = digits!(Opcode 2, Opcode 1, Mask 0, Opcode 0, Imm 3, Imm 2, Imm 1, Imm 0);

static RIL_A: [Digit; 12] = digits!(Opcode 2, Opcode 1, R1 0, Opcode 0,
    Imm 7, Imm 6, Imm 5, Imm 4, Imm 3, Imm 2, Imm 1, Imm 0);

static RIL_C: [Digit; 12] = digits!(Opcode 2, Opcode 1, Mask 0, Opcode 0,
    Imm 7, Imm 6, Imm 5, Imm 4, Imm 3, Imm 2, Imm 1, Imm 0);

static RS_A: [Digit; 8] = digits!(Opcode 1, Opcode 0, R1 0, R3 0, B 0, D 2, D 1, D 0);

static RS_A_SINGLE: [Digit; 8] = digits!(Opcode 1, Opcode 0, R1 0, Spare 0, B 0, D 2, D 1, D 0);

static RSY_A: [Digit; 12] =
    digits!(Opcode 3, Opcode 2, R1 0, R3 0, B 0, D 2, D 1, D 0, D 4, D 3, Opcode 1, Opcode 0);

static RSY_B: [Digit; 12] =
    digits!(Opcode 3, Opcode 2, R1 0, Mask 0, B 0, D 2, D 1, D 0, D 4, D 3, Opcode 1, Opcode 0);

static SI: [Digit; 8] = digits!(Opcode 1, Opcode 0, Imm 1, Imm 0, B 0, D 2, D 1, D 0);

static SIY: [Digit; 12] =
    digits!(Opcode 3, Opcode 2, Imm 1, Imm 0, B 0, D 2, D 1, D 0, D 4, D 3, Opcode 1, Opcode 0);

static SIL: [Digit; 12] = digits!(Opcode 3, Opcode 2, Opcode 1, Opcode 0,
    B 0, D 2, D 1, D 0, Imm 3, Imm 2, Imm 1, Imm 0);

static S: [Digit; 8] = digits!(Opcode 3, Opcode 2, Opcode 1, Opcode 0, B 0, D 2, D 1, D 0);

static S_ALONE: [Digit; 8] =
    digits!(Opcode 3, Opcode 2, Opcode 1, Opcode 0, Spare 3, Spare 2, Spare 1, Spare 0);

static SS_A: [Digit; 12] =
    digits!(Opcode 1, Opcode 0, Imm 1, Imm 0, B 0, D 2, D 1, D 0, B2 0, D2 2, D2 1, D2 0);

static RIE_B: [Digit; 12] = digits!(Opcode 3, Opcode 2, R1 0, R2 0,
    Imm 3, Imm 2, Imm 1, Imm 0, Mask 0, Spare 0, Opcode 1, Opcode 0);

static RIE_C: [Digit; 12] = digits!(Opcode 3, Opcode 2, R1 0, Mask 0,
    Imm 3, Imm 2, Imm 1, Imm 0, D2 1, D2 0, Opcode 1, Opcode 0);

/// The digits of a form from left to right.
pub fn layout_in(form: Form) -> &'static [Digit]
    ensures { result.now ≡ layout form }
{
    match form {
        Form::RR => &RR,
        Form::RRMask => &RR_MASK,
        Form::RRSingle => &RR_SINGLE,
        Form::I => &I,
        Form::RXa => &RX_A,
        Form::RXb => &RX_B,
        Form::RRE => &RRE,
        Form::RRESingle => &RRE_SINGLE,
        Form::RRFa => &RRF_A,
        Form::RRFc => &RRF_C,
        Form::RXYa => &RXY_A,
        Form::RIa | Form::RIaSigned | Form::RIb => &RI_A,
        Form::RIc => &RI_C,
        Form::RILa | Form::RILaSigned | Form::RILb => &RIL_A,
        Form::RILc => &RIL_C,
        Form::RSa => &RS_A,
        Form::RSaSingle => &RS_A_SINGLE,
        Form::RSYa => &RSY_A,
        Form::RSYb => &RSY_B,
        Form::SI => &SI,
        Form::SIY => &SIY,
        Form::SIL | Form::SILSigned => &SIL,
        Form::S => &S,
        Form::SAlone => &S_ALONE,
        Form::SSa => &SS_A,
        Form::RIEb => &RIE_B,
        Form::RIEc => &RIE_C,
    }
}

/// The digits of a line's instructions from left to right.
pub fn digits_of(line: &Line) -> &'static [Digit]
    ensures { result.now ≡ layout_of (entry_of line.now) }
{
    layout_in(line.form)
}
