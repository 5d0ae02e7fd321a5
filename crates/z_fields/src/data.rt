//! What DC places.
ghost use Rattle.std.specs.Prelude.{◌≡◌, ◌≤◌, ◌<◌, ◌+◌, ◌++◌, ◌^◌, length, option_map, IfOk, IfSome, IsTrue};
ghost use Rattle.std.specs.Prelude.{Some};
ghost use Rattle.std.specs.List.{list_all};
ghost use Rattle.z_text.specs.Numbers.{number_in};
ghost use Rattle.z_fields.specs.Data.{is_decimal, are_decimal, hex_digit, byte_of, is_quote, pairs_of};
ghost use Rattle.z_fields.specs.Data.{quoted_hex, fits, power_of, complement, big_endian, digits_bytes};
ghost use Rattle.z_fields.specs.Data.{signed_bytes, quoted_number, double_data, data_of};
ghost use Rattle.z_fields.specs.Steps.{Answers};

use crate::fault::{Kind, LineFault};
use crate::lines::{ends_with, shortened};
use crate::number::number_in;
use std::alloc::{AllocError, Global};

/// How many bytes a number takes.
#[derive(Clone, Copy, Debug, PartialEq, Eq)]
pub enum Width {
    /// Two bytes.
    Two,
    /// Four bytes.
    Four,
    /// Eight bytes.
    Eight,
}

fn power_of(width: Width) -> u128
    ensures { result ≡ power_of width }
{
    match width {
        Width::Two => 0x1_0000,
        Width::Four => 0x1_0000_0000,
        Width::Eight => 0x1_0000_0000_0000_0000,
    }
}

fn fits(negative: bool, width: Width, number: u64) -> bool
    ensures { result ≡ fits negative width number }
{
    if negative {
        return u128::from(number) <= power_of(width) / 2;
    }
    u128::from(number) < power_of(width)
}

fn complement(negative: bool, width: Width, number: u64) -> u128
    ensures { result ≡ complement negative width number }
{
    if negative {
        return power_of(width).saturating_sub(u128::from(number));
    }
    u128::from(number)
}

fn two(number: u128) -> [u8; 2]
    ensures { result ≡ big_endian Width.Two number }
{
    [(number / 0x100 % 256) as u8, (number % 256) as u8]
}

fn four(number: u128) -> [u8; 4]
    ensures { result ≡ big_endian Width.Four number }
{
    [
        (number / 0x100_0000 % 256) as u8,
        (number / 0x1_0000 % 256) as u8,
        (number / 0x100 % 256) as u8,
        (number % 256) as u8,
    ]
}

fn eight(number: u128) -> [u8; 8]
    ensures { result ≡ big_endian Width.Eight number }
{
    [
        (number / 0x100_0000_0000_0000 % 256) as u8,
        (number / 0x1_0000_0000_0000 % 256) as u8,
        (number / 0x100_0000_0000 % 256) as u8,
        (number / 0x1_0000_0000 % 256) as u8,
        (number / 0x100_0000 % 256) as u8,
        (number / 0x1_0000 % 256) as u8,
        (number / 0x100 % 256) as u8,
        (number % 256) as u8,
    ]
}

fn big_endian(alloc: Global, width: Width, number: u128) -> Result<Vec<u8>, AllocError>
    ensures { IfOk result (λ v. v.items ≡ big_endian width number) }
{
    match width {
        Width::Two => Vec::from_slice(alloc, &two(number)),
        Width::Four => Vec::from_slice(alloc, &four(number)),
        Width::Eight => Vec::from_slice(alloc, &eight(number)),
    }
}

fn is_each_decimal(text: &[u8]) -> bool
    ensures { result ≡ list_all is_decimal text.now }
{
    text.iter().all(|b| char::from(*b).is_digit(10))
}

fn are_decimal(text: &[u8]) -> bool
    ensures { result ≡ are_decimal text.now }
{
    match text {
        [] => false,
        _ => is_each_decimal(text),
    }
}

#[tactic(auto, unfolding(crate::specs::Data::digits_bytes))]
fn digits_bytes(
    alloc: Global,
    negative: bool,
    width: Width,
    text: &[u8],
) -> Result<Vec<u8>, LineFault>
    ensures { Answers (λ v. v.items) result (digits_bytes negative width text.now) }
{
    if !are_decimal(text) {
        return Err(LineFault::Failed(Kind::BadDirective));
    }
    let Some(number) = number_in(text) else {
        return Err(LineFault::Failed(Kind::OutOfRange));
    };
    if !fits(negative, width, number) {
        return Err(LineFault::Failed(Kind::OutOfRange));
    }
    let bytes = big_endian(alloc, width, complement(negative, width, number))?;
    Ok(bytes)
}

fn signed_bytes(alloc: Global, width: Width, text: &[u8]) -> Result<Vec<u8>, LineFault>
    ensures { Answers (λ v. v.items) result (signed_bytes width text.now) }
{
    match text {
        [] => Err(LineFault::Failed(Kind::BadDirective)),
        [b'+', digits @ ..] => digits_bytes(alloc, false, width, digits),
        [b'-', digits @ ..] => digits_bytes(alloc, true, width, digits),
        _ => digits_bytes(alloc, false, width, text),
    }
}

#[tactic(auto, unfolding(crate::specs::Data::quoted_number))]
fn quoted_number(alloc: Global, width: Width, text: &[u8]) -> Result<Vec<u8>, LineFault>
    ensures { Answers (λ v. v.items) result (quoted_number width text.now) }
{
    if !ends_with(b'\'', text) {
        return Err(LineFault::Failed(Kind::BadDirective));
    }
    signed_bytes(alloc, width, shortened(text))
}

fn hex_digit(byte: u8) -> Option<u8>
    ensures is { result ≡ hex_digit byte }
    ensures small { IfSome result (λ n. n < 16) }
{
    let digit = char::from(byte).to_digit(16)?;
    Some(digit as u8)
}

fn byte_of(a: u8, b: u8) -> Option<u8>
    ensures { result ≡ byte_of a b }
{
    let high = hex_digit(a)?;
    let low = hex_digit(b)?;
    Some(high * 16 + low)
}

fn is_quote(text: &[u8]) -> bool
    ensures { result ≡ is_quote text.now }
{
    match text {
        [b] => *b == b'\'',
        _ => false,
    }
}

/// The bytes that pairs of hex digits stand for, up to a quote that ends them.
fn pairs_of(alloc: Global, text: &[u8]) -> Result<Option<Vec<u8>>, AllocError>
    ensures { IfOk result (λ r. option_map (λ v. v.items) r ≡ pairs_of text.now) }
{
    let mut bytes = Vec::new(alloc);
    let mut rest = text;
    while 2 <= rest.len() {
        let Some(byte) = byte_of(rest[0], rest[1]) else {
            return Ok(None);
        };
        bytes.push(byte)?;
        let (_, behind) = rest.split_at(2);
        rest = behind;
    }
    if is_quote(rest) {
        return Ok(Some(bytes));
    }
    Ok(None)
}

#[tactic(auto, unfolding(crate::specs::Data::quoted_hex))]
fn quoted_hex(alloc: Global, text: &[u8]) -> Result<Vec<u8>, LineFault>
    ensures { Answers (λ v. v.items) result (quoted_hex text.now) }
{
    if text.len() <= 2 {
        return Err(LineFault::Failed(Kind::BadDirective));
    }
    match pairs_of(alloc, text)? {
        Some(bytes) => Ok(bytes),
        None => Err(LineFault::Failed(Kind::BadDirective)),
    }
}

#[tactic(auto, unfolding(crate::specs::Data::double_data))]
fn double_data(alloc: Global, text: &[u8]) -> Result<Vec<u8>, LineFault>
    ensures { Answers (λ v. v.items) result (double_data text.now) }
{
    match text {
        [b'D', b'\'', rest @ ..] => quoted_number(alloc, Width::Eight, rest),
        _ => Err(LineFault::Failed(Kind::BadDirective)),
    }
}

/// The bytes of the operand of DC, or what is wrong: its form, then its range.
#[tactic(auto, unfolding(crate::specs::Data::data_of, crate::specs::Data::double_data))]
pub fn data_of(alloc: Global, text: &[u8]) -> Result<Vec<u8>, LineFault>
    ensures { Answers (λ v. v.items) result (data_of text.now) }
{
    match text {
        [b'H', b'\'', rest @ ..] => quoted_number(alloc, Width::Two, rest),
        [b'F', b'\'', rest @ ..] => quoted_number(alloc, Width::Four, rest),
        [b'X', b'\'', rest @ ..] => quoted_hex(alloc, rest),
        [b'F', rest @ ..] => double_data(alloc, rest),
        _ => Err(LineFault::Failed(Kind::BadDirective)),
    }
}
