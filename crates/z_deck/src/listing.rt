//! The listing of a deck.
ghost use Rattle.std.specs.Prelude.{◌≡◌, ◌≤◌, ◌<◌, ◌++◌, length, unwrap_or, IfOk, OnOk};
ghost use Rattle.std.specs.Fmt.{decimal};
ghost use Rattle.hex.specs.Hex.{encode_lower};
ghost use Rattle.z_deck.specs.Listing.{cpu_line, org_line, data_line, block_at, block_lines};
ghost use Rattle.z_deck.specs.Listing.{placing_lines, listing_of};
ghost use Rattle.z_regs.specs.Prefix.{storage_size};

use crate::card::FIRST;
use crate::deck::Deck;
use crate::writing::is_zero;
use std::alloc::{AllocError, Global};
use tx_journal::NoMemory;

/// The bytes that a line of data places.
const BLOCK: usize = 32;

/// The blocks of accessible storage.
const BLOCKS: usize = 32_512;

/// Adds a number in decimal.
fn add_number(text: &mut Vec<u8>, number: u32) -> Result<(), AllocError>
    ensures { OnOk result (text.new.items ≡ text.old.items ++ decimal number) }
{
    let mut digits = itoa::Buffer::new();
    text.extend_from_slice(digits.format(number).as_bytes())
}

/// Adds the line of the CPU.
fn add_cpu(text: &mut Vec<u8>, entry: Option<u32>) -> Result<(), AllocError>
    ensures { OnOk result (text.new.items ≡ text.old.items ++ cpu_line entry) }
{
    text.extend_from_slice(b" CPU ")?;
    add_number(text, entry.unwrap_or(0))?;
    text.extend_from_slice(b"\n")
}

/// Adds the line that sets the location.
fn add_org(text: &mut Vec<u8>, address: u32) -> Result<(), AllocError>
    ensures { OnOk result (text.new.items ≡ text.old.items ++ org_line address) }
{
    text.extend_from_slice(b" ORG ")?;
    add_number(text, address)?;
    text.extend_from_slice(b"\n")
}

/// Adds the line that places a block.
fn add_data(text: &mut Vec<u8>, block: &[u8]) -> Result<(), AllocError>
    requires { length block.now ≡ 32 }
    ensures { OnOk result (text.new.items ≡ text.old.items ++ data_line block.now) }
{
    let mut digits = [0u8; 64];
    text.extend_from_slice(b" DC X'")?;
    match hex::encode_to_slice(block, &mut digits) {
        Ok(()) => text.extend_from_slice(&digits)?,
        Err(_) => unreachable!(),
    }
    text.extend_from_slice(b"'\n")
}

/// A block of storage.
fn block_at(storage: &[u8], i: usize) -> &[u8]
    requires size { length storage.now ≡ storage_size }
    requires there { i < 32512 }
    ensures is { result.now ≡ block_at storage.now i }
    ensures len { length result.now ≡ 32 }
{
    let (_, rest) = storage.split_at(FIRST + BLOCK * i);
    let (block, _) = rest.split_at(BLOCK);
    block
}

/// Adds the lines of a block, if it is not all zero.
fn add_block(text: &mut Vec<u8>, storage: &[u8], i: usize) -> Result<(), AllocError>
    requires size { length storage.now ≡ storage_size }
    requires there { i < 32512 }
    ensures { OnOk result (text.new.items ≡ text.old.items ++ block_lines storage.now i) }
{
    let block = block_at(storage, i);
    if is_zero(block) {
        return Ok(());
    }
    add_org(text, (FIRST + BLOCK * i) as u32)?;
    add_data(text, block)
}

/// Adds the lines of all blocks.
fn add_blocks(text: &mut Vec<u8>, storage: &[u8]) -> Result<(), AllocError>
    requires { length storage.now ≡ storage_size }
    ensures { OnOk result (text.new.items ≡ text.old.items ++ placing_lines 32512 storage.now) }
{
    for i in 0..BLOCKS {
        add_block(text, storage, i)?;
    }
    Ok(())
}

/// Adds the whole listing.
fn add_listing(text: &mut Vec<u8>, deck: &Deck) -> Result<(), AllocError>
    ensures { OnOk result (text.new.items
        ≡ text.old.items ++ listing_of deck.now.storage.items deck.now.entry) }
{
    add_cpu(text, deck.entry)?;
    add_blocks(text, deck.storage.as_slice())?;
    text.extend_from_slice(b" END\n")
}

/// The listing of a deck: a CPU that enters at its entry, or at 0 where it has none, and its storage.
/// `NoMemory` comes for want of memory.
///
/// Each block of 32 bytes of accessible storage that is not all zero has a line ORG with its address and a
/// line DC with its bytes as hexadecimal digits in small letters.
pub fn deck_listing(alloc: Global, deck: &Deck) -> Result<Vec<u8>, NoMemory>
    ensures { IfOk result (λ text. text.items ≡ listing_of deck.now.storage.items deck.now.entry) }
{
    let mut text = Vec::new(alloc);
    add_listing(&mut text, deck)?;
    Ok(text)
}
