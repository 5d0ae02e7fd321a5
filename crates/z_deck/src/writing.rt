//! Decks are written.
ghost use Rattle.std.specs.Prelude.{◌≡◌, ◌≤◌, ◌<◌, ◌++◌, length, IfOk, OnOk};
ghost use Rattle.std.specs.List.{concat};
ghost use Rattle.z_deck.specs.Writing.{section_card, text_card, end_card, is_zero, cards_of_piece, text_cards};
ghost use Rattle.z_deck.specs.Writing.{text_head, piece_at, first_entry, deck_of_image};
ghost use Rattle.z_regs.specs.Prefix.{storage_size};

use crate::card::{FIRST, MOST_TEXT};
use std::alloc::{AllocError, Global};
use tx_journal::{Image, NoMemory};

/// The pieces of accessible storage, of 56 bytes each but the last.
const PIECES: usize = 18_579;

/// The columns of the section's card up to 32: the count 16, the number 1, the name ZTX, type and address 0,
/// and the length of storage.
static SECTION: [u8; 32] = [
    0x02, 0xC5, 0xE2, 0xC4, 0x40, 0x40, 0x40, 0x40, 0x40, 0x40, 0x00, 0x10, 0x40, 0x40, 0x00, 0x01,
    0xE9, 0xE3, 0xE7, 0x40, 0x40, 0x40, 0x40, 0x40, 0x00, 0x00, 0x00, 0x00, 0x40, 0x10, 0x00, 0x00,
];

/// The columns behind the last field of a card.
static BLANKS: [u8; 64] = [0x40; 64];

/// Whether all bytes are zero.
pub(crate) fn is_zero(bytes: &[u8]) -> bool
    ensures { result ≡ is_zero bytes.now }
{
    bytes.iter().all(|byte| *byte == 0)
}

/// Adds the card of the section.
#[tactic(auto, unfolding(crate::specs::Writing::section_card))]
fn add_section(deck: &mut Vec<u8>) -> Result<(), AllocError>
    ensures { OnOk result (deck.new.items ≡ deck.old.items ++ section_card) }
{
    deck.extend_from_slice(&SECTION)?;
    deck.extend_from_slice(&BLANKS[..48])
}

/// Adds the columns up to 16 of the card of so many bytes.
#[tactic(auto, unfolding(crate::specs::Writing::text_head))]
fn add_head(deck: &mut Vec<u8>, address: u32, count: u16) -> Result<(), AllocError>
    ensures { OnOk result (deck.new.items ≡ deck.old.items ++ text_head address count) }
{
    let [_, high, middle, low] = address.to_be_bytes();
    let [count_high, count_low] = count.to_be_bytes();
    deck.extend_from_slice(&[
        0x02, 0xE3, 0xE7, 0xE3, 0x40, high, middle, low, 0x40, 0x40, count_high, count_low, 0x40,
        0x40, 0x00, 0x01,
    ])
}

/// Adds the card of bytes of storage from an address on.
fn add_text(deck: &mut Vec<u8>, address: u32, bytes: &[u8]) -> Result<(), AllocError>
    requires { length bytes.now ≤ 56 }
    ensures { OnOk result (deck.new.items ≡ deck.old.items ++ text_card address bytes.now) }
{
    add_head(deck, address, bytes.len() as u16)?;
    deck.extend_from_slice(bytes)?;
    deck.extend_from_slice(&BLANKS[bytes.len()..])
}

/// Adds the card of the end.
#[tactic(auto, unfolding(crate::specs::Writing::end_card))]
fn add_end(deck: &mut Vec<u8>, entry: u32) -> Result<(), AllocError>
    ensures { OnOk result (deck.new.items ≡ deck.old.items ++ end_card entry) }
{
    let [_, high, middle, low] = entry.to_be_bytes();
    deck.extend_from_slice(&[
        0x02, 0xC5, 0xD5, 0xC4, 0x40, high, middle, low, 0x40, 0x40, 0x40, 0x40, 0x40, 0x40, 0x00,
        0x01,
    ])?;
    deck.extend_from_slice(&BLANKS)
}

/// A piece of storage.
fn piece_at(storage: &[u8], i: usize) -> &[u8]
    requires size { length storage.now ≡ storage_size }
    requires there { i < 18579 }
    ensures is { result.now ≡ piece_at storage.now i }
    ensures few { length result.now ≤ 56 }
{
    let (_, rest) = storage.split_at(FIRST + MOST_TEXT * i);
    let (piece, _) = rest.split_at(rest.len().min(MOST_TEXT));
    piece
}

/// Adds the card of a piece of storage, if it is not all zero.
fn add_piece(deck: &mut Vec<u8>, storage: &[u8], i: usize) -> Result<(), AllocError>
    requires size { length storage.now ≡ storage_size }
    requires there { i < 18579 }
    ensures { OnOk result (deck.new.items ≡ deck.old.items ++ concat (cards_of_piece storage.now i)) }
{
    let piece = piece_at(storage, i);
    if is_zero(piece) {
        return Ok(());
    }
    add_text(deck, (FIRST + MOST_TEXT * i) as u32, piece)
}

/// Adds the cards of all pieces.
fn add_pieces(deck: &mut Vec<u8>, storage: &[u8]) -> Result<(), AllocError>
    requires { length storage.now ≡ storage_size }
    ensures { OnOk result (deck.new.items ≡ deck.old.items ++ concat (text_cards 18579 storage.now)) }
{
    for i in 0..PIECES {
        add_piece(deck, storage, i)?;
    }
    Ok(())
}

/// All of an image's storage.
fn storage_of(image: &Image) -> &[u8]
    ensures is { result.now ≡ image.now.storage }
    ensures len { length result.now ≡ storage_size }
{
    let _cpus = image.cpu_count();
    image.storage.as_slice()
}

/// Where an image's CPU 0 enters.
fn entry_of(image: &Image) -> u32
    ensures { result ≡ first_entry image.now.cpus }
{
    let _cpus = image.cpu_count();
    image.cpus[0].address as u32
}

/// Adds the whole deck.
fn add_deck(deck: &mut Vec<u8>, image: &Image) -> Result<(), AllocError>
    ensures { OnOk result (deck.new.items ≡ deck.old.items ++ deck_of_image image.now) }
{
    add_section(deck)?;
    add_pieces(deck, storage_of(image))?;
    add_end(deck, entry_of(image))
}

/// The deck of an image: its storage, and where its CPU 0 enters. `NoMemory` comes for want of memory.
///
/// The section's card comes first, then a card for each piece of 56 bytes of accessible storage, the last of
/// 16, which is not all zero, in rising order, and the card of the end. Columns without a field are blank.
pub fn write_deck(alloc: Global, image: &Image) -> Result<Vec<u8>, NoMemory>
    ensures { IfOk result (λ deck. deck.items ≡ deck_of_image image.now) }
{
    let mut deck = Vec::new(alloc);
    add_deck(&mut deck, image)?;
    Ok(deck)
}
