//! The forms of instructions: the manual's formats with their letters, and what the operands of each stand for.
ghost use Rattle.std.specs.Prelude.{◌≡◌};
ghost use Rattle.std.specs.List.{list_any};
ghost use Rattle.z_instr.specs.Forms.{slots, is_target, has_target};

/// A format by the manual's own name: which fields stand in an instruction, and whether its immediate has a sign
/// (`Signed`). Where the last register, or the only address, is left out, its bits are zero (`Single`, `Alone`).
#[derive(Clone, Copy, PartialEq, Eq)]
pub enum Form {
    /// RR with two registers.
    RR,
    /// RR with a mask in the place of the first register.
    RRMask,
    /// RR with the first register alone.
    RRSingle,
    I,
    RXa,
    /// RX with a mask in the place of the register.
    RXb,
    /// RRE with two registers.
    RRE,
    /// RRE with the first register alone.
    RRESingle,
    RRFa,
    RRFc,
    RXYa,
    /// RI with a register and an immediate.
    RIa,
    RIaSigned,
    /// RI with a register and a target.
    RIb,
    /// RI with a mask and a target.
    RIc,
    /// RIL with a register and an immediate.
    RILa,
    RILaSigned,
    /// RIL with a register and a target.
    RILb,
    /// RIL with a mask and a target.
    RILc,
    /// RS with two registers.
    RSa,
    /// RS with the first register alone.
    RSaSingle,
    /// RSY with two registers.
    RSYa,
    /// RSY with a register and a mask.
    RSYb,
    SI,
    /// SI with a long displacement; the immediate has a sign.
    SIY,
    SIL,
    SILSigned,
    /// S with an address.
    S,
    /// S without one.
    SAlone,
    SSa,
    RIEb,
    RIEc,
}

/// What an operand of an instruction stands for.
#[derive(Clone, Copy, PartialEq, Eq)]
pub enum Slot {
    /// The first register.
    First,
    /// The second register.
    Second,
    /// The third register.
    Third,
    /// The mask.
    Mask,
    /// The immediate.
    Immediate,
    /// The immediate of a compare, which stands in the second displacement's place.
    Compared,
    /// The target, from which the instruction has the distance.
    Target,
    /// A displacement, an index and a base.
    Indexed,
    /// A displacement and a base.
    Based,
    /// A displacement, a length and a base.
    Counted,
    /// The second displacement and its base.
    SecondBased,
}

/// What the operands of a form's instructions stand for, in their order.
pub fn slots_of(form: Form) -> &'static [Slot]
    ensures { result.now ≡ slots form }
{
    match form {
        Form::SAlone => &[],
        Form::RRSingle | Form::RRESingle => &[Slot::First],
        Form::I => &[Slot::Immediate],
        Form::S => &[Slot::Based],
        Form::RR | Form::RRE => &[Slot::First, Slot::Second],
        Form::RRMask => &[Slot::Mask, Slot::Second],
        Form::RXa | Form::RXYa => &[Slot::First, Slot::Indexed],
        Form::RXb => &[Slot::Mask, Slot::Indexed],
        Form::RIa | Form::RIaSigned | Form::RILa | Form::RILaSigned => {
            &[Slot::First, Slot::Immediate]
        }
        Form::RIb | Form::RILb => &[Slot::First, Slot::Target],
        Form::RIc | Form::RILc => &[Slot::Mask, Slot::Target],
        Form::RSaSingle => &[Slot::First, Slot::Based],
        Form::SI | Form::SIY | Form::SIL | Form::SILSigned => &[Slot::Based, Slot::Immediate],
        Form::SSa => &[Slot::Counted, Slot::SecondBased],
        Form::RRFa => &[Slot::First, Slot::Second, Slot::Third],
        Form::RRFc => &[Slot::First, Slot::Second, Slot::Mask],
        Form::RSa | Form::RSYa => &[Slot::First, Slot::Third, Slot::Based],
        Form::RSYb => &[Slot::First, Slot::Based, Slot::Mask],
        Form::RIEb => &[Slot::First, Slot::Second, Slot::Mask, Slot::Target],
        Form::RIEc => &[Slot::First, Slot::Compared, Slot::Mask, Slot::Target],
    }
}

/// Whether the instructions of a form have a target. Asked at each turn of a constrained attempt, so by the forms that
/// have one, and not by a search through their slots.
#[inline(always)]
pub fn has_target(form: Form) -> bool
    ensures { result ≡ has_target form }
{
    matches!(
        form,
        Form::RIb | Form::RIc | Form::RILb | Form::RILc | Form::RIEb | Form::RIEc
    )
}
