//! Why a text is no listing.
ghost use Rattle.std.specs.Prelude.{◌≡◌, IfOk, string_bytes};
ghost use Rattle.z_assemble.specs.Words.{words_of, fault_line};

use std::alloc::{AllocError, Global};

/// The first fault of a text: its line, from 1 on, or 0 where it is of no line; and the number of its kind, 1
/// to 14.
#[derive(Clone, Copy, Debug, PartialEq, Eq)]
pub struct ListingFault {
    /// The line, or 0.
    pub line: u32,
    /// The number of the kind.
    pub kind: u8,
}

/// Why a text was not assembled.
#[derive(Clone, Copy, Debug, PartialEq, Eq)]
pub enum AssembleFault {
    /// There was no memory.
    Memory,
    /// The text is no listing.
    Listing(ListingFault),
}

impl From<AllocError> for AssembleFault {
    ghost use Rattle.z_assemble.specs.declared.fault.AssembleFault.TheVariants as ends;

    ghost from_gives = { λ _ e. e ≡ ends.Memory };

    fn from(_error: AllocError) -> AssembleFault {
        AssembleFault::Memory
    }
}

/// The words for the kind of a fault, by its number from 1 to 14.
#[tactic(auto, unfolding(crate::specs::Words::words_of))]
fn words_of(kind: u8) -> &'static str
    ensures value { result.now ≡ words_of kind }
{
    match kind {
        1 => "listing too long",
        2 => "too many lines",
        3 => "bad token",
        4 => "bad number",
        5 => "line too long",
        6 => "unknown mnemonic",
        7 => "wrong operands",
        8 => "out of range",
        9 => "unknown label",
        10 => "double label",
        11 => "overlap",
        12 => "bad directive",
        13 => "no CPU",
        _ => "bad schedule",
    }
}

/// The line that is printed for a fault, with its line end.
pub fn fault_line(alloc: Global, fault: ListingFault) -> Result<String, AllocError>
    ensures value { IfOk result (λ line. string_bytes line ≡ fault_line fault) }
{
    let line = fault.line;
    let words = words_of(fault.kind);
    format!(in alloc; "ztx: line {line}: {words}\n")
}
