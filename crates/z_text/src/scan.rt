//! Operands cut into tokens.
ghost use Rattle.std.specs.Prelude.{◌≡◌, ◌<◌, ◌≤◌, length, All, Some};
ghost use Rattle.std.specs.List.{prefix_len};
ghost use Rattle.z_text.specs.Line.{is_letter_or_digit};
ghost use Rattle.z_text.specs.Tokens.{continues_number, kind_at, size_for, pieces_of, is_bad_piece, LiesIn};
ghost use Rattle.z_text.specs.Splits.{Splits};

use crate::token::{TextFault, Token, TokenKind};

#[tactic(auto, unfolding(crate::specs::Tokens::kind_at))]
fn kind_at(line: &[u8]) -> Option<TokenKind>
    ensures { result ≡ kind_at line.now }
{
    match line {
        [] => None,
        [b'0'..=b'9', ..] => Some(TokenKind::Number),
        [b'X', b'\'', ..] => Some(TokenKind::Hex),
        [b'A'..=b'Z', ..] => Some(TokenKind::Name),
        [b'+' | b'-', ..] => Some(TokenKind::Sign),
        [b'(', ..] => Some(TokenKind::Open),
        [b')', ..] => Some(TokenKind::Close),
        [b',', ..] => Some(TokenKind::Comma),
        [b'*', ..] => Some(TokenKind::Star),
        _ => None,
    }
}

fn count_number_bytes(line: &[u8]) -> usize
    ensures value { result ≡ prefix_len continues_number line.now }
    ensures within { result ≤ length line.now }
{
    line.iter()
        .take_while(|b| b.is_ascii_uppercase() || b.is_ascii_digit() || **b == b'\'')
        .count()
}

fn count_name_bytes(line: &[u8]) -> usize
    ensures value { result ≡ prefix_len is_letter_or_digit line.now }
    ensures within { result ≤ length line.now }
{
    line.iter()
        .take_while(|b| b.is_ascii_uppercase() || b.is_ascii_digit())
        .count()
}

#[tactic(auto, using(std::proofs::lemmas::List::take_rest))]
fn size_of_token(kind: TokenKind, line: &[u8]) -> usize
    requires { 0 < length line.now }
    ensures value { result ≡ size_for (Some kind) line.now }
    ensures some { 0 < result }
    ensures within { result ≤ length line.now }
{
    match kind {
        TokenKind::Number | TokenKind::Hex => 1 + count_number_bytes(&line[1..]),
        TokenKind::Name => 1 + count_name_bytes(&line[1..]),
        _ => 1,
    }
}

fn is_too_long(kind: TokenKind, size: usize) -> bool
    ensures { result ≡ is_bad_piece (Some kind) size }
{
    match kind {
        TokenKind::Name => 16 < size,
        _ => false,
    }
}

/// Pushes the tokens of the bytes from `first` to `end`.
pub(crate) fn split(
    tokens: &mut Vec<Token>,
    line: &[u8],
    first: usize,
    end: usize,
) -> Result<(), TextFault>
    requires order { first ≤ end }
    requires within { end ≤ length line.now }
    requires inside { All (LiesIn (length line.now)) tokens.old.items }
    requires few { length tokens.old.items ≤ first }
    ensures { Splits (length line.now) end tokens.old.items tokens.new.items
        (pieces_of first end line.now) result }
{
    let mut at = first;
    while at < end {
        let rest = &line[at..end];
        let Some(kind) = kind_at(rest) else {
            return Err(TextFault::BadToken);
        };
        let size = size_of_token(kind, rest);
        if is_too_long(kind, size) {
            return Err(TextFault::BadToken);
        }
        tokens.push(Token {
            first: at,
            end: at + size,
            kind,
        })?;
        at += size;
    }
    Ok(())
}
