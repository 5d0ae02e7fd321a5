//! The formats of instructions.
ghost use Rattle.std.specs.Prelude.{◌≡◌};
ghost use Rattle.z_instr.specs.Forms.{format_of as without_letter};
ghost use Rattle.z_instr.specs.Layout.{place, form_length};

use crate::form::Form;
use crate::layout::layout_in;

/// How the bits of an instruction are shared out among its opcode and its fields.
#[derive(Clone, Copy, PartialEq, Eq)]
pub enum Format {
    RR,
    I,
    RX,
    RRE,
    RRFa,
    RRFc,
    RXY,
    RI,
    RIL,
    RS,
    RSY,
    SI,
    SIY,
    SIL,
    S,
    SS,
    RIEb,
    RIEc,
}

/// Where an instruction has its opcode.
#[derive(Clone, Copy, PartialEq, Eq)]
pub enum Place {
    /// The first byte.
    First,
    /// The first two bytes.
    FirstTwo,
    /// The first byte and the right half of the second.
    FirstHalf,
    /// The first byte and the last of six.
    Ends,
}

/// The format of a form, without its letter.
pub fn format_of(form: Form) -> Format
    ensures { result ≡ without_letter form }
{
    match form {
        Form::RR | Form::RRMask | Form::RRSingle => Format::RR,
        Form::I => Format::I,
        Form::RXa | Form::RXb => Format::RX,
        Form::RRE | Form::RRESingle => Format::RRE,
        Form::RRFa => Format::RRFa,
        Form::RRFc => Format::RRFc,
        Form::RXYa => Format::RXY,
        Form::RIa | Form::RIaSigned | Form::RIb | Form::RIc => Format::RI,
        Form::RILa | Form::RILaSigned | Form::RILb | Form::RILc => Format::RIL,
        Form::RSa | Form::RSaSingle => Format::RS,
        Form::RSYa | Form::RSYb => Format::RSY,
        Form::SI => Format::SI,
        Form::SIY => Format::SIY,
        Form::SIL | Form::SILSigned => Format::SIL,
        Form::S | Form::SAlone => Format::S,
        Form::SSa => Format::SS,
        Form::RIEb => Format::RIEb,
        Form::RIEc => Format::RIEc,
    }
}

/// Where the instructions of a form have their opcodes.
pub fn place_of(form: Form) -> Place
    ensures { result ≡ place form }
{
    match format_of(form) {
        Format::RR | Format::I | Format::RX | Format::RS | Format::SI | Format::SS => Place::First,
        Format::RRE | Format::RRFa | Format::RRFc | Format::SIL | Format::S => Place::FirstTwo,
        Format::RI | Format::RIL => Place::FirstHalf,
        Format::RXY | Format::RSY | Format::SIY | Format::RIEb | Format::RIEc => Place::Ends,
    }
}

/// How many bytes the instructions of a form have: 2, 4 or 6.
pub fn length_in(form: Form) -> u8
    ensures { result ≡ form_length form }
{
    (layout_in(form).len() / 2) as u8
}
