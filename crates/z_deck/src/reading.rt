//! Decks are read.
ghost use Rattle.std.specs.Prelude.{◌≡◌, ℕ, ◌≤◌, ◌+◌, ◌*◌, ◌^◌, ◌<◌, List, [], ◌∷◌, ◌++◌, length, take, drop};
ghost use Rattle.std.specs.Prelude.{is_some, Some, OnOk, IfOk, IfErr};
ghost use Rattle.z_deck.specs.Loading.{Loaded};
ghost use Rattle.z_deck.specs.Reading.{IsDeck, fault_of, zeros};
ghost use Rattle.z_deck.specs.Said.{IsFault};
ghost use Rattle.z_deck.specs.Words.{number_of};
ghost use Rattle.z_regs.specs.Prefix.{storage_size};

use crate::card::{CARD, Card, SIZE, read_card};
use crate::deck::Deck;
use crate::fault::{DeckFault, Kind};
use std::alloc::{AllocError, Global};

/// The most bytes that are read as a deck: as many as a listing may have.
pub const MOST_BYTES: usize = 16_777_216;

/// What the cards so far have left.
#[derive(Drop)]
struct Loading {
    /// The bytes of storage.
    storage: Vec<u8>,
    /// The entry of the card of the end, if that was there; the card may have none.
    end: Option<Option<u32>>,
    ghost size: { length storage.items ≡ storage_size },
}

/// The fault of the card behind so many cards.
fn fault_behind(cards: usize, kind: Kind) -> DeckFault
    requires { cards < 2 ^ 31 }
    ensures { result ≡ DeckFault.Card (cards + 1) (number_of kind) }
{
    DeckFault::Card(cards as u32 + 1, kind.number())
}

/// So many zeros.
#[tactic(auto, unfolding(crate::specs::Reading::zeros))]
fn zeros(alloc: Global, count: usize) -> Result<Vec<u8>, AllocError>
    ensures is { IfOk result (λ v. v.items ≡ zeros count) }
    ensures len { IfOk result (λ v. length v.items ≡ count) }
{
    vec![in alloc; 0u8; count]
}

/// Writes bytes over those from a place on.
fn write_bytes(storage: &mut Vec<u8>, first: usize, bytes: &[u8])
    requires { first + length bytes.now ≤ length storage.old.items }
    ensures is { storage.new.items ≡ take first storage.old.items
        ++ (bytes.now ++ drop (first + length bytes.now) storage.old.items) }
    ensures len { length storage.new.items ≡ length storage.old.items }
{
    storage[first..first + bytes.len()].copy_from_slice(bytes);
}

/// The card behind so many cards.
fn card_at(bytes: &[u8], k: usize) -> &[u8]
    requires { 80 * k + 80 ≤ length bytes.now }
    ensures is { result.now ≡ take 80 (drop (80 * k) bytes.now) }
    ensures len { length result.now ≡ 80 }
{
    let (_, rest) = bytes.split_at(CARD * k);
    let (card, _) = rest.split_at(CARD);
    card
}

/// Takes the next card, or finds its fault, and then leaves all as it is.
fn take_card(loading: &mut Loading, card: &[u8], origin: u32) -> Result<(), Kind>
    requires size { length card.now ≡ 80 }
    requires origin { origin ≤ 1040384 }
    ensures loaded { OnOk result ((cards : List (List ℕ))
        → Loaded origin cards loading.old.storage.items loading.old.end
        → Loaded origin (cards ++ card.now ∷ []) loading.new.storage.items loading.new.end) }
    ensures fault { IfErr result (λ kind.
        fault_of origin (is_some loading.old.end) card.now ≡ Some kind) }
{
    match read_card(card, origin, loading.end.is_some()) {
        Err(kind) => Err(kind),
        Ok(Card::Nothing) => Ok(()),
        Ok(Card::Text(first, bytes)) => {
            write_bytes(&mut loading.storage, first, bytes);
            Ok(())
        }
        Ok(Card::End(entry)) => {
            loading.end = Some(entry);
            Ok(())
        }
    }
}

/// What a deck says, where its addresses are counted from the origin on, at most 1,040,384.
///
/// A deck is cards of 80 bytes: texts (TXT), whose bytes come to their addresses, a later one over an earlier
/// one; a section (ESD), which is not looked at; and one card of the end (END) behind them, with the entry.
///
/// `Card` comes with the number of the first faulty card and the number of what is wrong with it, the first
/// of these that holds: 1 it is short, 7 the end was before it, 2 it is no card, 3 a relocation, 4 a symbol,
/// 5 it has more than 56 bytes, 6 a byte outside of accessible storage or an entry behind storage. Where the
/// cards have no fault and none is the end, 8 comes with the number past the last card. More than 16,777,216
/// bytes are card 209,716, short. `Memory` comes for want of memory.
pub fn read_deck(alloc: Global, bytes: &[u8], origin: u32) -> Result<Deck, DeckFault>
    requires { origin ≤ 1040384 }
    ensures deck { IfOk result (λ d. IsDeck bytes.now origin d.storage.items d.entry) }
    ensures fault { IfErr result (λ f. IsFault bytes.now origin f) }
{
    if bytes.len() > MOST_BYTES {
        return Err(DeckFault::Card(209_716, Kind::ShortCard.number()));
    }
    let storage = zeros(alloc, SIZE)?;
    let mut loading = Loading { storage, end: None };
    let cards = bytes.len() / CARD;
    for k in 0..cards {
        match take_card(&mut loading, card_at(bytes, k), origin) {
            Ok(()) => {}
            Err(kind) => return Err(fault_behind(k, kind)),
        }
    }
    if CARD * cards < bytes.len() {
        return Err(fault_behind(cards, Kind::ShortCard));
    }
    let Loading { storage, end } = loading;
    match end {
        None => Err(fault_behind(cards, Kind::NoEnd)),
        Some(entry) => Ok(Deck { storage, entry }),
    }
}
