//! Why bytes are no deck.
ghost use Rattle.std.specs.Prelude.{◌≡◌, IfOk, string_bytes};
ghost use Rattle.z_deck.specs.Words.{number_of, words_of, fault_line};

use std::alloc::{AllocError, Global};

/// What is wrong with a card.
#[derive(Clone, Copy, Debug, PartialEq, Eq)]
pub enum Kind {
    /// It has fewer than 80 bytes.
    ShortCard,
    /// Column 1 is not hex 02, or the type is not known.
    NotACard,
    /// RLD, which is left out.
    RelocationCard,
    /// SYM, which is left out.
    SymbolCard,
    /// More bytes than a card has room for.
    BadCount,
    /// A byte outside of accessible storage, or an entry behind storage.
    OutOfRange,
    /// It stands behind the end.
    AfterEnd,
    /// There is no end, and no further card.
    NoEnd,
}

impl Kind {
    /// The number of the kind, 1 to 8.
    pub fn number(self) -> u8
        ensures { result ≡ number_of self }
    {
        match self {
            Kind::ShortCard => 1,
            Kind::NotACard => 2,
            Kind::RelocationCard => 3,
            Kind::SymbolCard => 4,
            Kind::BadCount => 5,
            Kind::OutOfRange => 6,
            Kind::AfterEnd => 7,
            Kind::NoEnd => 8,
        }
    }
}

/// Why bytes were not read as a deck.
#[derive(Clone, Copy, Debug, PartialEq, Eq)]
pub enum DeckFault {
    /// There was no memory.
    Memory,
    /// The number of the first faulty card, from 1 on, and the number of its kind, 1 to 8.
    Card(u32, u8),
}

impl From<AllocError> for DeckFault {
    ghost use Rattle.z_deck.specs.declared.fault.DeckFault.TheVariants as ends;

    ghost from_gives = { λ _ e. e ≡ ends.Memory };

    fn from(_error: AllocError) -> DeckFault {
        DeckFault::Memory
    }
}

/// The words for the kind of a number from 1 to 8.
#[tactic(auto, unfolding(crate::specs::Words::words_of))]
fn words_of(kind: u8) -> &'static str
    ensures { result.now ≡ words_of kind }
{
    match kind {
        1 => "short card",
        2 => "not a card",
        3 => "relocation card",
        4 => "symbol card",
        5 => "bad count",
        6 => "address out of range",
        7 => "card after END",
        _ => "no END",
    }
}

/// The line that is printed for a fault, with its line end.
pub fn fault_line(alloc: Global, card: u32, kind: u8) -> Result<String, AllocError>
    ensures { IfOk result (λ line. string_bytes line ≡ fault_line card kind) }
{
    let words = words_of(kind);
    format!(in alloc; "ztx: card {card}: {words}\n")
}
