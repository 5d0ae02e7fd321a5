//! What is due to the command that writes and reads decks.
ghost use Rattle.std.specs.Prelude.{◌≡◌, ◌≤◌, ℕ, List, IfOk};
ghost use Rattle.z_deck.specs.Listing.{listing_of};
ghost use Rattle.z_deck.specs.Words.{fault_line};
ghost use Rattle.z_deck.specs.Writing.{deck_of_image};
ghost use Rattle.listing_answers.specs.Decks.{IsDueToDeck, IsDueToReadDeck, long_deck_line};
ghost use Rattle.listing_answers.specs.Due.{IsStatus};

use crate::answer::Answer;
use crate::refused::refuse;
use std::alloc::Global;
use tx_journal::Image;
use z_assemble::assemble;
use z_deck::{Deck, DeckFault, deck_listing, fault_line, read_deck, write_deck};
use z_regs::NoMemory;

/// The deck of an image.
fn answer_deck(alloc: Global, image: &Image) -> Result<Answer, NoMemory>
    ensures status { IfOk result (λ answer. answer.status ≡ 0) }
    ensures text { IfOk result (λ answer. answer.text.items ≡ deck_of_image image.now) }
{
    let text = write_deck(alloc, image)?;
    Ok(Answer { status: 0, text })
}

/// The listing of a deck.
fn answer_listing(alloc: Global, deck: &Deck) -> Result<Answer, NoMemory>
    ensures status { IfOk result (λ answer. answer.status ≡ 0) }
    ensures text { IfOk result (λ answer.
        answer.text.items ≡ listing_of deck.now.storage.items deck.now.entry) }
{
    let text = deck_listing(alloc, deck)?;
    Ok(Answer { status: 0, text })
}

/// The line of a card's fault.
fn refuse_card(alloc: Global, card: u32, kind: u8) -> Result<Answer, NoMemory>
    ensures status { IfOk result (λ answer. answer.status ≡ 5) }
    ensures text { IfOk result (λ answer. answer.text.items ≡ fault_line card kind) }
{
    let line = fault_line(alloc, card, kind)?;
    Ok(Answer {
        status: 5,
        text: line.into_bytes(),
    })
}

/// What `deck --read` answers to an input that has more bytes than a deck may have.
pub fn refuse_long_deck(alloc: Global) -> Result<Answer, NoMemory>
    ensures status { IfOk result (λ answer. answer.status ≡ 5) }
    ensures text { IfOk result (λ answer. answer.text.items ≡ long_deck_line) }
{
    refuse_card(alloc, 209_716, 1)
}

/// What `deck` answers to the bytes of a listing: the deck of its image, or its first fault.
pub fn write_deck_of(alloc: Global, input: &[u8]) -> Result<Answer, NoMemory>
    ensures due { IfOk result (λ answer. IsDueToDeck input.now answer.status answer.text.items) }
    ensures statuses { IfOk result (λ answer. IsStatus answer.status) }
{
    match assemble(alloc, input) {
        Ok(image) => answer_deck(alloc, &image),
        Err(fault) => refuse(alloc, fault),
    }
}

/// What `deck --read` answers to the bytes of a deck whose addresses are counted from an origin on: the
/// listing of the deck, or its first fault.
pub fn read_deck_of(alloc: Global, origin: u32, input: &[u8]) -> Result<Answer, NoMemory>
    requires { origin ≤ 1040384 }
    ensures due { IfOk result (λ answer. IsDueToReadDeck origin input.now answer.status answer.text.items) }
    ensures statuses { IfOk result (λ answer. IsStatus answer.status) }
{
    match read_deck(alloc, input, origin) {
        Ok(deck) => answer_listing(alloc, &deck),
        Err(DeckFault::Memory) => Err(NoMemory),
        Err(DeckFault::Card(card, kind)) => refuse_card(alloc, card, kind),
    }
}
