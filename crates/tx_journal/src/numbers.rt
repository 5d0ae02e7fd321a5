//! Reading numbers that are written in the one way in which this machine writes them.
ghost use Rattle.std.specs.Prelude.{◌≡◌, ◌≢◌, ℕ, ◌<◌, ◌≤◌, ◌^◌, ◌*◌, ◌↔◌, IsTrue, length, List, ◌∷◌, ◌++◌};
ghost use Rattle.std.specs.Prelude.{IfSome, IfNone};
ghost use Rattle.std.specs.Fmt.{decimal};
ghost use Rattle.std.specs.Int.{to_be_bytes};
ghost use mir.Syntax.{w16, w64};
ghost use Rattle.hex.specs.Hex.{encode_lower};
ghost use Rattle.tx_journal.specs.Numbers.{Lacks, number_before};

/// The number that a text is in decimal, without a sign and without leading zeros; None exactly where it is
/// no such number below 2^64.
pub fn read_number(text: &[u8]) -> Option<u64>
    ensures some { IfSome result (λ n. text.now ≡ decimal n) }
    ensures none { IfNone result ((n : ℕ) → n < 2 ^ 64 → text.now ≢ decimal n) }
{
    let Ok(digits) = str::from_utf8(text) else {
        return None;
    };
    let Ok(number) = digits.parse::<u64>() else {
        return None;
    };
    let mut written = itoa::Buffer::new();
    if written.format(number).as_bytes() != text {
        return None;
    }
    Some(number)
}

/// The same below 2^32.
pub(crate) fn read_small(text: &[u8]) -> Option<u32>
    ensures some { IfSome result (λ n. text.now ≡ decimal n) }
    ensures none { IfNone result ((n : ℕ) → n < 2 ^ 32 → text.now ≢ decimal n) }
{
    let number = read_number(text)?;
    let number = u32::try_from(number).ok()?;
    Some(number)
}

/// What stands in front of the first blank, and behind it; None exactly where there is no blank.
fn cut(text: &[u8]) -> Option<(&[u8], &[u8])>
    ensures some { IfSome result (λ parts. text.now ≡ parts.0.now ++ 32 ∷ parts.1.now) }
    ensures first { IfSome result (λ parts. Lacks 32 parts.0.now) }
    ensures none { IfNone result (Lacks 32 text.now) }
{
    let at = text.iter().position(|byte| *byte == b' ')?;
    Some((&text[..at], &text[at + 1..]))
}

/// The number below 2^64 that a text begins with, behind which stands a blank, and what follows the blank;
/// None exactly where it begins with none.
pub(crate) fn first_number(text: &[u8]) -> Option<(u64, &[u8])>
    ensures some { IfSome result (λ parts. text.now ≡ number_before parts.0 parts.1.now) }
    ensures fits { IfSome result (λ parts. parts.0 < 2 ^ 64) }
    ensures none { IfNone result ((n : ℕ) (rest : List ℕ) → n < 2 ^ 64 → text.now ≢ number_before n rest) }
{
    let (digits, rest) = cut(text)?;
    let number = read_number(digits)?;
    Some((number, rest))
}

/// The same below 2^32.
pub(crate) fn first_small(text: &[u8]) -> Option<(u32, &[u8])>
    ensures some { IfSome result (λ parts. text.now ≡ number_before parts.0 parts.1.now) }
    ensures fits { IfSome result (λ parts. parts.0 < 2 ^ 32) }
    ensures none { IfNone result ((n : ℕ) (rest : List ℕ) → n < 2 ^ 32 → text.now ≢ number_before n rest) }
{
    let (number, rest) = first_number(text)?;
    let number = u32::try_from(number).ok()?;
    Some((number, rest))
}

/// Whether a text is the lower-case hexadecimal of some bytes, of which there are at most eight.
fn is_hexadecimal(text: &[u8], bytes: &[u8]) -> bool
    requires { length bytes.now ≤ 8 }
    ensures { IsTrue result ↔ (text.now ≡ encode_lower bytes.now) }
{
    let mut digits = [0u8; 16];
    let digits = &mut digits[..2 * bytes.len()];
    match hex::encode_to_slice(bytes, digits) {
        Ok(()) => text == digits,
        Err(_) => unreachable!(),
    }
}

/// The halfword that four lower-case hexadecimal digits are; None exactly where the text is none.
pub(crate) fn read_halfword(text: &[u8]) -> Option<u16>
    ensures some { IfSome result (λ n. text.now ≡ encode_lower (to_be_bytes w16 n)) }
    ensures none { IfNone result ((n : ℕ) → n < 2 ^ 16 → text.now ≢ encode_lower (to_be_bytes w16 n)) }
{
    let mut bytes = [0u8; 2];
    hex::decode_to_slice(text, &mut bytes).ok()?;
    let halfword = u16::from_be_bytes(bytes);
    if !is_hexadecimal(text, &halfword.to_be_bytes()) {
        return None;
    }
    Some(halfword)
}

/// The doubleword that sixteen lower-case hexadecimal digits are; None exactly where they are none.
pub(crate) fn read_doubleword(digits: &[u8]) -> Option<u64>
    ensures some { IfSome result (λ n. digits.now ≡ encode_lower (to_be_bytes w64 n)) }
    ensures none { IfNone result ((n : ℕ) → n < 2 ^ 64 → digits.now ≢ encode_lower (to_be_bytes w64 n)) }
{
    let mut bytes = [0u8; 8];
    hex::decode_to_slice(digits, &mut bytes).ok()?;
    let doubleword = u64::from_be_bytes(bytes);
    if !is_hexadecimal(digits, &doubleword.to_be_bytes()) {
        return None;
    }
    Some(doubleword)
}
