//! The lines of a text.
ghost use Rattle.std.specs.Prelude.{◌≡◌, ◌≤◌, ◌<◌, ◌+◌, ◌∷◌, ◌++◌, length, map, take, drop, IfOk, ℕ};
ghost use Rattle.std.specs.List.{prefix_len};
ghost use Rattle.z_fields.specs.Pieces.{pieces_by, is_before, first_size, ends_with, shortened};
ghost use Rattle.z_fields.specs.Pieces.{without_return, without_end};

use std::alloc::{AllocError, Global};

/// How many bytes stand before the first that ends a piece.
fn count_before(stop: u8, text: &[u8]) -> usize
    ensures is { result ≡ prefix_len (is_before stop) text.now }
    ensures within { result ≤ length text.now }
{
    text.iter().take_while(|b| **b != stop).count()
}

/// How many bytes the first piece has, with the one that ends it.
fn first_size(stop: u8, text: &[u8]) -> usize
    requires { 0 < length text.now }
    ensures is { result ≡ first_size stop text.now }
    ensures some { 0 < result }
    ensures within { result ≤ length text.now }
{
    let count = count_before(stop, text);
    if count < text.len() { count + 1 } else { count }
}

/// The first piece of a text, with the byte that ends it where there is one, and what follows it.
#[tactic(auto, using(crate::proofs::Pieces::pieces_first))]
pub fn first_piece(stop: u8, text: &[u8]) -> (&[u8], &[u8])
    requires { 0 < length text.now }
    ensures pieces { pieces_by stop text.now ≡ result.0.now ∷ pieces_by stop result.1.now }
    ensures parts { result.0.now ++ result.1.now ≡ text.now }
    ensures shorter { length result.1.now < length text.now }
{
    text.split_at(first_size(stop, text))
}

/// The pieces of a text, each with the byte that ends it; the last may have none.
pub fn pieces_by(alloc: Global, stop: u8, text: &[u8]) -> Result<Vec<&[u8]>, AllocError>
    ensures { IfOk result (λ v. map (λ l. l.now) v.items ≡ pieces_by stop text.now) }
{
    let mut pieces = Vec::new(alloc);
    let mut rest = text;
    while 0 < rest.len() {
        let (piece, behind) = rest.split_at(first_size(stop, rest));
        pieces.push(piece)?;
        rest = behind;
    }
    Ok(pieces)
}

/// How many pieces a text has. It allocates nothing.
pub fn count_pieces(stop: u8, text: &[u8]) -> usize
    ensures { result ≡ length (pieces_by stop text.now) }
{
    let mut count = 0;
    let mut rest = text;
    while 0 < rest.len() {
        let (_, behind) = rest.split_at(first_size(stop, rest));
        count += 1;
        rest = behind;
    }
    count
}

pub(crate) fn ends_with(byte: u8, text: &[u8]) -> bool
    ensures is { result ≡ ends_with byte text.now }
{
    0 < text.len() && text[text.len() - 1] == byte
}

/// The text without its last byte.
pub(crate) fn shortened(text: &[u8]) -> &[u8]
    ensures { result.now ≡ shortened text.now }
{
    if text.is_empty() {
        return text;
    }
    &text[..text.len() - 1]
}

fn without_return(text: &[u8]) -> &[u8]
    ensures { result.now ≡ without_return text.now }
{
    if ends_with(b'\r', text) {
        return shortened(text);
    }
    text
}

/// A line without its line feed, and without one carriage return before that.
pub fn without_end(line: &[u8]) -> &[u8]
    ensures { result.now ≡ without_end line.now }
{
    if ends_with(b'\n', line) {
        return without_return(shortened(line));
    }
    line
}
