//! One card: its type, and what its columns say.
ghost use Rattle.std.specs.Prelude.{◌≡◌, ◌≤◌, false, Some, length};
ghost use Rattle.z_deck.specs.Columns.{type_named, type_of};
ghost use Rattle.z_deck.specs.Reading.{fault_of, address_of};
ghost use Rattle.z_deck.specs.Said.{IsReading};

use crate::fault::Kind;
use byteorder::{BigEndian, ByteOrder};

/// The bytes of a card.
pub const CARD: usize = 80;

/// The most bytes of storage on a card.
pub(crate) const MOST_TEXT: usize = 56;

/// The first accessible byte of storage.
pub(crate) const FIRST: usize = 8192;

/// The bytes of storage.
pub(crate) const SIZE: usize = 1_048_576;

/// What a card is, by its columns 2 to 4.
#[derive(Clone, Copy, Debug, PartialEq, Eq)]
pub enum CardType {
    /// ESD: the section that the deck is.
    Section,
    /// TXT: bytes of storage.
    Text,
    /// END: the end of the deck, and where the program enters.
    End,
    /// RLD: addresses in the text that move with it.
    Relocation,
    /// SYM: names for a test.
    Symbol,
}

/// What a reader takes from a card.
#[derive(Clone, Copy, Debug)]
pub enum Card<'a> {
    /// Nothing: the card is a section, or a text without bytes.
    Nothing,
    /// Bytes of storage, and the address of the first one.
    Text(usize, &'a [u8]),
    /// The end of the deck, and the entry, where it has one.
    End(Option<u32>),
}

/// The type of this name.
#[tactic(auto, unfolding(crate::specs::Columns::type_named))]
fn type_named(name: &[u8]) -> Option<CardType>
    ensures { result ≡ type_named name.now }
{
    match name {
        b"\xC5\xE2\xC4" => Some(CardType::Section),
        b"\xE3\xE7\xE3" => Some(CardType::Text),
        b"\xC5\xD5\xC4" => Some(CardType::End),
        b"\xD9\xD3\xC4" => Some(CardType::Relocation),
        b"\xE2\xE8\xD4" => Some(CardType::Symbol),
        _ => None,
    }
}

/// The type of a card.
fn type_of(card: &[u8]) -> Option<CardType>
    requires { length card.now ≡ 80 }
    ensures { result ≡ type_of card.now }
{
    if &card[..1] == b"\x02".as_slice() {
        type_named(&card[1..4])
    } else {
        None
    }
}

/// The address in columns 6 to 8, behind the origin.
fn address_of(card: &[u8], origin: u32) -> u32
    requires size { length card.now ≡ 80 }
    requires origin { origin ≤ 1040384 }
    ensures { result ≡ address_of origin card.now }
{
    BigEndian::read_u24(&card[5..8]) + origin
}

/// What a card with a text says.
fn read_text(card: &[u8], origin: u32) -> Result<Card<'_>, Kind>
    requires size { length card.now ≡ 80 }
    requires origin { origin ≤ 1040384 }
    requires typed { type_of card.now ≡ Some CardType.Text }
    ensures { IsReading origin card.now (fault_of origin false card.now) result }
{
    let count = usize::from(BigEndian::read_u16(&card[10..12]));
    if count > MOST_TEXT {
        return Err(Kind::BadCount);
    }
    if count == 0 {
        return Ok(Card::Nothing);
    }
    let first = address_of(card, origin) as usize;
    if first < FIRST || first + count > SIZE {
        return Err(Kind::OutOfRange);
    }
    Ok(Card::Text(first, &card[16..16 + count]))
}

/// What the card of the end says.
fn read_end(card: &[u8], origin: u32) -> Result<Card<'_>, Kind>
    requires size { length card.now ≡ 80 }
    requires origin { origin ≤ 1040384 }
    requires typed { type_of card.now ≡ Some CardType.End }
    ensures { IsReading origin card.now (fault_of origin false card.now) result }
{
    if &card[5..8] == b"\x40\x40\x40".as_slice() {
        return Ok(Card::End(None));
    }
    let entry = address_of(card, origin);
    if entry as usize >= SIZE {
        return Err(Kind::OutOfRange);
    }
    Ok(Card::End(Some(entry)))
}

/// What a card says, or its first fault. `ended` says that the end was before it.
pub(crate) fn read_card(card: &[u8], origin: u32, ended: bool) -> Result<Card<'_>, Kind>
    requires size { length card.now ≡ 80 }
    requires origin { origin ≤ 1040384 }
    ensures { IsReading origin card.now (fault_of origin ended card.now) result }
{
    if ended {
        return Err(Kind::AfterEnd);
    }
    match type_of(card) {
        None => Err(Kind::NotACard),
        Some(CardType::Section) => Ok(Card::Nothing),
        Some(CardType::Text) => read_text(card, origin),
        Some(CardType::End) => read_end(card, origin),
        Some(CardType::Relocation) => Err(Kind::RelocationCard),
        Some(CardType::Symbol) => Err(Kind::SymbolCard),
    }
}
