//! What a transaction begins with.
ghost use Rattle.std.specs.Prelude.{◌≡◌, ◌<◌};
ghost use Rattle.tx_control.specs.Halfword.{bit_of};

/// What one TBEGIN or TBEGINC asks for.
#[derive(Clone, Copy, Debug, PartialEq, Eq)]
pub struct Begin {
    /// The general register save mask: bit i, from the left, is for general registers 2i and 2i + 1.
    pub mask: u8,
    /// Whether access registers may be changed.
    pub a: bool,
    /// Whether floating-point operations are allowed.
    pub f: bool,
    /// The program-interruption-filtering control.
    pub pifc: u8,
    /// The address of the diagnostic block, if one is named.
    pub block: Option<u64>,
    /// Whether the transaction is constrained.
    pub constrained: bool,
}

/// Whether bit `i` of a halfword is one, counted from the left, 0 to 15.
fn bit(halfword: u16, i: u8) -> bool
    requires { i < 16 }
    ensures { result ≡ bit_of i halfword }
{
    halfword >> (15 - i) & 1 == 1
}

impl Begin {
    ghost use Rattle.tx_control.specs.Begins.{asked_by};

    /// What a begin with this I field, this block and this kind asks for.
    ///
    /// Bits 0 to 7 of the field are the mask, bit 12 is the control of access registers, bit 13 that of
    /// floating point, and bits 14 and 15 are the filtering control. A constrained begin has the last two
    /// zero, whatever those bits are.
    pub fn of(i2: u16, block: Option<u64>, constrained: bool) -> Begin
        ensures { result ≡ asked_by i2 block constrained }
    {
        Begin {
            mask: (i2 >> 8) as u8,
            a: bit(i2, 12),
            f: !constrained && bit(i2, 13),
            pifc: if constrained { 0 } else { (i2 & 3) as u8 },
            block,
            constrained,
        }
    }
}
