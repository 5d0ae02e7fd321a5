//! Worked decks: a program of four instructions written, read and listed, decks that are read, and each fault
//! at its place. What is expected is a model's that was written apart from this code.

use std::alloc::{AllocError, Global};
use std::test::Fail;
use z_assemble::assemble;
use z_deck::{CARD, Deck, DeckFault, deck_listing, fault_line, read_deck, write_deck};

const PROGRAM: &str = " CPU START\nSTART LGHI 1,5\n LGHI 2,7\n AGR 1,2\n SVC 0\n SCHED 0*4\n END\n";

/// The three cards of the program's deck.
const PROGRAM_DECK: &str = "02c5e2c4404040404040001040400001e9e3e740404040400000000040100000 \
    02e3e7e340003ff0404000384040000100000000000000000000000000000000a7190005a7290007b90800120a000000000000000000000000000000000000000000000000000000 \
    02c5d5c4400040004040404040400001";

/// The listing of the program's deck.
const PROGRAM_LISTING: &str = " CPU 16384\n ORG 16384\n DC X'\
    a7190005a7290007b90800120a00000000000000000000000000000000000000'\n END\n";

/// Cards, the origin, and the listing of the deck.
static DECKS: [(&str, u32, &str); 5] = [
    (
        "02e3e7e340001fff4040000040400001 02c5d5c440404040",
        0,
        " CPU 0\n END\n",
    ),
    (
        "02e3e7e340001000404000014040000177 02c5d5c440404040",
        4096,
        " CPU 0\n ORG 8192\n DC X'7700000000000000000000000000000000000000000000000000000000000000'\n END\n",
    ),
    (
        "02c5e2c4 02e3e7e340004000404000044040000711223344 02e3e7e3400040024040000440400001aabbccdd \
         02c5e2c4ff 02e3e7e3400040014040000040400001ee 02c5d5c440004002",
        0,
        " CPU 16386\n ORG 16384\n \
         DC X'1122aabbccdd0000000000000000000000000000000000000000000000000000'\n END\n",
    ),
    (
        "02c5e2c4 02e3e7e340004000404000044040000711223344 02e3e7e3400040024040000440400001aabbccdd \
         02c5e2c4ff 02e3e7e3400040014040000040400001ee 02c5d5c440004002",
        1_015_808,
        " CPU 1032194\n ORG 1032192\n \
         DC X'1122aabbccdd0000000000000000000000000000000000000000000000000000'\n END\n",
    ),
    (
        "02e3e7e3400ffff0404000104040000101010101010101010101010101010101 02c5d5c440404040",
        0,
        " CPU 0\n ORG 1048544\n \
         DC X'0000000000000000000000000000000001010101010101010101010101010101'\n END\n",
    ),
];

/// Cards, the origin, and the first fault.
static FAULTS: [(&str, u32, u32, u8); 18] = [
    ("", 0, 1, 8),
    ("02c5e2c4", 0, 2, 8),
    ("02c5e2c4!", 0, 1, 1),
    ("03c5e2c4", 0, 1, 2),
    ("02c5e2c5", 0, 1, 2),
    ("02d9d3c4", 0, 1, 3),
    ("03d9d3c4", 0, 1, 2),
    ("02e2e8d4", 0, 1, 4),
    ("02c5e2c4 02e3e7e3400040004040003940400001", 0, 2, 5),
    ("02c5e2c4 02e3e7e3400000004040003940400001", 0, 2, 5),
    ("02e3e7e340001fff4040000140400001", 0, 1, 6),
    ("02e3e7e3400fffff4040000240400001", 0, 1, 6),
    (
        "02e3e7e3400fe0004040000140400001 02c5d5c440404040",
        8192,
        1,
        6,
    ),
    (
        "02e3e7e3400fffff4040000140400001 02c5d5c440000000 02c5e2c4",
        0,
        3,
        7,
    ),
    ("02c5d5c440404040 02c5e2c4!", 0, 2, 1),
    ("02c5d5c440100000", 0, 1, 6),
    ("02c5d5c4400fffff", 1, 1, 6),
    ("02c5d5c440404040 03d9d3c4", 0, 2, 7),
];

/// The columns of a card in hexadecimal, and whether it is cut behind them, which a mark at the end says.
fn columns_of(word: &str) -> (&str, bool) {
    match word.strip_suffix('!') {
        Some(columns) => (columns, true),
        None => (word, false),
    }
}

/// Blanks that fill a card behind so many columns.
fn add_blanks(deck: &mut Vec<u8>, columns: usize) -> Result<(), AllocError> {
    for _ in columns..CARD {
        deck.push(0x40)?;
    }
    Ok(())
}

/// The bytes of the columns of a card, and the blanks that fill it, unless it is cut.
fn add_columns(deck: &mut Vec<u8>, columns: &[u8], is_cut: bool) -> Result<(), AllocError> {
    deck.extend_from_slice(columns)?;
    if is_cut {
        return Ok(());
    }
    add_blanks(deck, columns.len())
}

/// The bytes of a card whose first columns are given in hexadecimal: blanks fill it, unless a mark at the end
/// says that it is cut there.
fn add_card(deck: &mut Vec<u8>, alloc: Global, word: &str) -> Result<(), Fail> {
    let (columns, is_cut) = columns_of(word);
    let columns = hex::decode(alloc, columns)?;
    Ok(add_columns(deck, columns.as_slice(), is_cut)?)
}

fn add_cards(deck: &mut Vec<u8>, alloc: Global, cards: &str) -> Result<(), Fail> {
    for word in cards.split_whitespace() {
        add_card(deck, alloc, word)?;
    }
    Ok(())
}

/// The deck of these cards.
fn deck_of(alloc: Global, cards: &str) -> Result<Vec<u8>, Fail> {
    let mut deck = Vec::new(alloc);
    add_cards(&mut deck, alloc, cards)?;
    Ok(deck)
}

/// The deck of the program.
fn written(alloc: Global) -> Result<Vec<u8>, Fail> {
    let image = assemble(alloc, PROGRAM.as_bytes())?;
    Ok(write_deck(alloc, &image)?)
}

/// Whether the deck of the program is that of the cards.
fn is_written(alloc: Global) -> Result<bool, Fail> {
    let wanted = deck_of(alloc, PROGRAM_DECK)?;
    let deck = written(alloc)?;
    Ok(deck.as_slice() == wanted.as_slice())
}

/// Whether a deck is listed so.
fn is_listed(alloc: Global, deck: &Deck, wanted: &str) -> Result<bool, Fail> {
    let listing = deck_listing(alloc, deck)?;
    Ok(listing.as_slice() == wanted.as_bytes())
}

/// Where the deck of the program, read again, is entered, and whether it is listed as wanted.
fn read_again(alloc: Global) -> Result<(Option<u32>, bool), Fail> {
    let bytes = written(alloc)?;
    let deck = read_deck(alloc, bytes.as_slice(), 0)?;
    let is_listed = is_listed(alloc, &deck, PROGRAM_LISTING)?;
    Ok((deck.entry, is_listed))
}

#[test]
fn a_program_is_written(rt: HostRuntime) -> Result<(), Fail> {
    let found = (is_written(rt.alloc())?, read_again(rt.alloc())?);
    assert_eq!(rt; found, (true, (Some(16384), true)));
    Ok(())
}

/// Reads bytes at an origin, which has to be in range.
fn read(alloc: Global, bytes: &[u8], origin: u32) -> Result<Deck, Fail> {
    if origin > 1_040_384 {
        return Err("an origin out of range")?;
    }
    Ok(read_deck(alloc, bytes, origin)?)
}

/// Whether these cards at an origin are listed so.
fn are_listed(alloc: Global, cards: &str, origin: u32, wanted: &str) -> Result<bool, Fail> {
    let bytes = deck_of(alloc, cards)?;
    let deck = read(alloc, bytes.as_slice(), origin)?;
    is_listed(alloc, &deck, wanted)
}

#[test]
fn decks_are_read(rt: HostRuntime) -> Result<(), Fail> {
    for (cards, origin, wanted) in &DECKS {
        assert!(rt; are_listed(rt.alloc(), cards, *origin, wanted)?, "{cards}");
    }
    Ok(())
}

/// The first fault of bytes at an origin in range, if they have one.
fn fault_of(alloc: Global, bytes: &[u8], origin: u32) -> Option<DeckFault> {
    if origin > 1_040_384 {
        return None;
    }
    read_deck(alloc, bytes, origin).err()
}

/// The first fault of these cards at an origin, if they have one.
fn first_fault(alloc: Global, cards: &str, origin: u32) -> Result<Option<DeckFault>, Fail> {
    let bytes = deck_of(alloc, cards)?;
    Ok(fault_of(alloc, bytes.as_slice(), origin))
}

#[test]
fn each_fault_is_found(rt: HostRuntime) -> Result<(), Fail> {
    for (cards, origin, number, kind) in &FAULTS {
        let fault = first_fault(rt.alloc(), cards, *origin)?;
        assert_eq!(rt; fault, Some(DeckFault::Card(*number, *kind)), "{cards}");
    }
    Ok(())
}

/// Whether the fault of a relocation card in the second card has this line.
fn is_said(alloc: Global, line: &str) -> Result<bool, Fail> {
    let said = fault_line(alloc, 2, 3)?;
    Ok(said.as_str() == line)
}

#[test]
fn a_fault_has_its_words(rt: HostRuntime) -> Result<(), Fail> {
    assert!(rt; is_said(rt.alloc(), "ztx: card 2: relocation card\n")?);
    Ok(())
}
