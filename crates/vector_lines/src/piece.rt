//! Pieces of storage.
ghost use Rattle.std.specs.Prelude.{◌≡◌, ◌+◌, ◌-◌, ◌<◌, ◌≤◌, vec_len, slice_get, None};
ghost use Rattle.z_regs.specs.Prefix.{storage_size};

use crate::fault::Fault;
use crate::numbers::{bytes_of, hexadecimal};
use std::alloc::{AllocError, Global};
use z_regs::STORAGE_SIZE;

/// Bytes of storage from an address on, all inside.
#[derive(Drop)]
pub struct Piece {
    /// The address of the first byte.
    pub first: u64,
    /// The bytes.
    pub bytes: Vec<u8>,
    ghost inside: { first + vec_len bytes ≤ storage_size },
}

/// The address and the digits of a piece.
fn parts_of<'a>(text: &'a str) -> Option<(u64, &'a str)> {
    let (first, digits) = text.split_once(':')?;
    Some((hexadecimal(first)?, digits))
}

impl Piece {
    /// A piece as `ADDRESS:BYTES`, both hexadecimal.
    fn read(alloc: Global, text: &str) -> Result<Piece, Fault> {
        let Some((first, digits)) = parts_of(text) else {
            return Err(Fault::Malformed);
        };
        let bytes = bytes_of(alloc, digits)?;
        if first > STORAGE_SIZE || bytes.len() as u64 > STORAGE_SIZE - first {
            return Err(Fault::Malformed);
        }
        Ok(Piece { first, bytes })
    }

    /// The byte at an address, if the piece has one.
    fn byte_at(&self, address: u64) -> Option<u8>
        ensures before { address < self.now.first → result ≡ None }
        ensures from { self.now.first ≤ address →
            result ≡ slice_get self.now.bytes.items (address - self.now.first) }
    {
        let place = address.checked_sub(self.first)?;
        self.bytes.get(place as usize).copied()
    }
}

/// Adds a piece.
fn add_piece(pieces: &mut Vec<Piece>, piece: Piece) -> Result<(), AllocError> {
    Ok(pieces.push(piece)?)
}

/// Adds the pieces behind `m=`, with commas between them, where there are none yet; else malformed.
pub(crate) fn add_pieces(pieces: &mut Vec<Piece>, alloc: Global, text: &str) -> Result<(), Fault> {
    if !pieces.is_empty() {
        return Err(Fault::Malformed);
    }
    for piece in text.split(',') {
        add_piece(pieces, Piece::read(alloc, piece)?)?;
    }
    Ok(())
}

/// The byte that pieces have at an address, if any.
pub fn byte_in(pieces: &[Piece], address: u64) -> Option<u8> {
    for piece in pieces {
        if let Some(byte) = piece.byte_at(address) {
            return Some(byte);
        }
    }
    None
}
