//! Which values the fields of instructions may have.
ghost use Rattle.std.specs.Prelude.{◌≡◌};
ghost use Rattle.z_instr.specs.Table.{entry_at};
ghost use Rattle.z_instr.specs.Ranges.{limits_in, limits_of, is_within};

use crate::form::Form;
use crate::lookup::line;
use crate::op::Op;

/// The numbers from -`below` up to `above`, which is not among them.
#[derive(Clone, Copy)]
pub struct Bounds {
    pub below: u32,
    pub above: u64,
}

/// The values of each field: how many there are from 0 up, or bounds. A field that an instruction lacks
/// has the value 0 alone.
#[derive(Clone, Copy)]
pub struct Limits {
    pub r1: u8,
    pub r2: u8,
    pub r3: u8,
    pub x: u8,
    pub b: u8,
    pub d: Bounds,
    pub b2: u8,
    pub d2: Bounds,
    pub imm: Bounds,
    pub mask: u8,
}

const ZERO_ALONE: Bounds = Bounds { below: 0, above: 1 };

const SHORT: Bounds = Bounds {
    below: 0,
    above: 4096,
};

const LONG: Bounds = Bounds {
    below: 524288,
    above: 524288,
};

const BYTE: Bounds = Bounds {
    below: 0,
    above: 256,
};

const SIGNED_BYTE: Bounds = Bounds {
    below: 128,
    above: 128,
};

const HALF: Bounds = Bounds {
    below: 0,
    above: 65536,
};

const SIGNED_HALF: Bounds = Bounds {
    below: 32768,
    above: 32768,
};

const FULL: Bounds = Bounds {
    below: 0,
    above: 4294967296,
};

const SIGNED_FULL: Bounds = Bounds {
    below: 2147483648,
    above: 2147483648,
};

/// No field at all.
const NOTHING: Limits = Limits {
    r1: 1,
    r2: 1,
    r3: 1,
    x: 1,
    b: 1,
    d: ZERO_ALONE,
    b2: 1,
    d2: ZERO_ALONE,
    imm: ZERO_ALONE,
    mask: 1,
};

/// The limits of these fields, the others being left out.
macro_rules! fields {
    ($($field:ident $values:expr),*) => {
        Limits { $($field: $values,)* ..NOTHING }
    };
}

impl Bounds {
    /// Whether a number is among them.
    pub fn has(self, number: i64) -> bool
        ensures { result ≡ is_within self number }
    {
        if number < 0 {
            number >= -(self.below as i64)
        } else {
            (number as u64) < self.above
        }
    }
}

/// The limits of a form's instructions.
fn form_limits(form: Form) -> Limits
    ensures { result ≡ limits_in form }
{
    match form {
        Form::RR | Form::RRE => fields!(r1 16, r2 16),
        Form::RRMask => fields!(mask 16, r2 16),
        Form::RRSingle | Form::RRESingle => fields!(r1 16),
        Form::I => fields!(imm BYTE),
        Form::RXa => fields!(r1 16, x 16, b 16, d SHORT),
        Form::RXb => fields!(mask 16, x 16, b 16, d SHORT),
        Form::RRFa => fields!(r1 16, r2 16, r3 16),
        Form::RRFc => fields!(r1 16, r2 16, mask 16),
        Form::RXYa => fields!(r1 16, x 16, b 16, d LONG),
        Form::RIa => fields!(r1 16, imm HALF),
        Form::RIaSigned | Form::RIb => fields!(r1 16, imm SIGNED_HALF),
        Form::RIc => fields!(mask 16, imm SIGNED_HALF),
        Form::RILa => fields!(r1 16, imm FULL),
        Form::RILaSigned | Form::RILb => fields!(r1 16, imm SIGNED_FULL),
        Form::RILc => fields!(mask 16, imm SIGNED_FULL),
        Form::RSa => fields!(r1 16, r3 16, b 16, d SHORT),
        Form::RSaSingle => fields!(r1 16, b 16, d SHORT),
        Form::RSYa => fields!(r1 16, r3 16, b 16, d LONG),
        Form::RSYb => fields!(r1 16, mask 16, b 16, d LONG),
        Form::SI => fields!(b 16, d SHORT, imm BYTE),
        Form::SIY => fields!(b 16, d LONG, imm SIGNED_BYTE),
        Form::SIL => fields!(b 16, d SHORT, imm HALF),
        Form::SILSigned => fields!(b 16, d SHORT, imm SIGNED_HALF),
        Form::S => fields!(b 16, d SHORT),
        Form::SAlone => NOTHING,
        Form::SSa => fields!(b 16, d SHORT, b2 16, d2 SHORT, imm BYTE),
        Form::RIEb => fields!(r1 16, r2 16, mask 16, imm SIGNED_HALF),
        Form::RIEc => fields!(r1 16, mask 16, imm SIGNED_HALF, d2 SIGNED_BYTE),
    }
}

/// The limits of the fields of an operation's instructions.
pub fn field_limits(op: Op) -> Limits
    ensures { result ≡ limits_of (entry_at op.number) }
{
    form_limits(line(op).form)
}
