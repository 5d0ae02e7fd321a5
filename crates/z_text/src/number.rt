//! Numbers of the listing, decimal and hexadecimal.
ghost use Rattle.std.specs.Prelude.{◌≡◌, ◌+◌, ◌*◌, ◌<◌, ◌≤◌, ◌^◌, length, Option, Some, None, nat_lt};
ghost use Rattle.std.specs.Prelude.{if◌then◌else◌};
ghost use Rattle.z_text.specs.Numbers.{number_in, quoted_hex, number_of};

use crate::token::TokenKind;

/// The number behind one more digit, where it fits.
fn with_digit(number: u64, base: u8, digit: u32) -> Option<u64>
    ensures { result ≡ (if nat_lt (number * base + digit) (2 ^ 64) then Some (number * base + digit)
        else None) }
{
    let sum = u128::from(number) * u128::from(base) + u128::from(digit);
    if sum <= u128::from(u64::MAX) {
        Some(sum as u64)
    } else {
        None
    }
}

/// The number that the digits stand for, if they are digits and it fits.
#[tactic(auto, using(crate::proofs::Numbers::number_steps, crate::proofs::Numbers::number_too_big))]
fn number_in(base: u8, digits: &[u8]) -> Option<u64>
    requires low { 2 ≤ base }
    requires high { base ≤ 16 }
    ensures { result ≡ number_in base digits.now }
{
    let mut number = 0u64;
    for b in digits {
        let digit = char::from(*b).to_digit(u32::from(base))?;
        number = with_digit(number, base, digit)?;
    }
    Some(number)
}

/// The number of `X'..'`.
#[tactic(auto, unfolding(crate::specs::Numbers::quoted_hex))]
fn quoted_hex(text: &[u8]) -> Option<u64>
    ensures { result ≡ quoted_hex text.now }
{
    let count = text.len();
    if count < 4 || 19 < count || text[count - 1] != b'\'' {
        return None;
    }
    number_in(16, &text[2..count - 1])
}

/// The number that a token of this kind is, if it is one.
#[tactic(auto, unfolding(crate::specs::Numbers::number_of))]
pub(crate) fn number_of(kind: TokenKind, text: &[u8]) -> Option<u64>
    ensures { result ≡ number_of kind text.now }
{
    match kind {
        TokenKind::Number => number_in(10, text),
        TokenKind::Hex => quoted_hex(text),
        _ => None,
    }
}
