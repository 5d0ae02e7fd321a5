//! The line of a diagnostic block.
ghost use Rattle.std.specs.Prelude.{◌≡◌, ◌++◌, OnOk, slice_index};
ghost use Rattle.report_text.specs.Storage.{number_at, block_head, block_tail, block_line};

use crate::digits::{add_bytes, add_labelled, add_word};
use byteorder::{BigEndian, ByteOrder};
use std::alloc::AllocError;
use tx_abort::BLOCK_SIZE;

/// The nesting depth.
#[tactic(auto, unfolding(crate::specs::Storage::number_at))]
fn depth(block: &[u8; BLOCK_SIZE]) -> u64
    ensures { result ≡ number_at block.now 6 2 }
{
    u64::from(BigEndian::read_u16(&block[6..]))
}

/// The abort code.
#[tactic(auto, unfolding(crate::specs::Storage::number_at))]
fn abort_code(block: &[u8; BLOCK_SIZE]) -> u64
    ensures { result ≡ number_at block.now 8 8 }
{
    BigEndian::read_u64(&block[8..])
}

/// The format.
fn format(block: &[u8; BLOCK_SIZE]) -> u64
    ensures { result ≡ slice_index block.now 0 }
{
    u64::from(block[0])
}

/// Adds what the block is, how deep the transaction was, and the abort code.
#[tactic(auto, unfolding(crate::specs::Storage::block_head))]
fn add_block_head(text: &mut Vec<u8>, block: &[u8; BLOCK_SIZE]) -> Result<(), AllocError>
    ensures { OnOk result (text.new.items ≡ text.old.items ++ block_head block.now) }
{
    add_labelled(text, b" FORMAT ", format(block))?;
    text.extend_from_slice(b" FLAGS ")?;
    add_bytes(text, &block[1..2])?;
    add_labelled(text, b" DEPTH ", depth(block))?;
    add_labelled(text, b" CODE ", abort_code(block))
}

/// Adds the conflict token, the address of the aborted program, and the code of its exception.
#[tactic(auto, unfolding(crate::specs::Storage::block_tail))]
fn add_block_tail(text: &mut Vec<u8>, block: &[u8; BLOCK_SIZE]) -> Result<(), AllocError>
    ensures { OnOk result (text.new.items ≡ text.old.items ++ block_tail block.now) }
{
    text.extend_from_slice(b" TOKEN ")?;
    add_bytes(text, &block[16..24])?;
    text.extend_from_slice(b" AT ")?;
    add_bytes(text, &block[24..32])?;
    text.extend_from_slice(b" PI ")?;
    add_bytes(text, &block[38..40])?;
    text.extend_from_slice(b"\n")
}

/// Adds the line of the diagnostic block at an address.
#[tactic(auto, unfolding(crate::specs::Storage::block_line))]
pub fn add_block(text: &mut Vec<u8>, first: u32, block: &[u8; BLOCK_SIZE]) -> Result<(), AllocError>
    ensures { OnOk result (text.new.items ≡ text.old.items ++ block_line first block.now) }
{
    text.extend_from_slice(b"D ")?;
    add_word(text, first)?;
    add_block_head(text, block)?;
    add_block_tail(text, block)
}
