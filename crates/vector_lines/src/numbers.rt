//! Numbers and words as vectors write them.

use crate::fault::Fault;
use hex::FromHexError;
use std::alloc::{AllocError, Global};

/// A hexadecimal number without a sign, below 2^64.
pub(crate) fn hexadecimal(text: &str) -> Option<u64> {
    if text.starts_with('+') {
        return None;
    }
    u64::from_str_radix(text, 16).ok()
}

/// A number of the listing: decimal, with or without a sign, or hexadecimal digits in `X'..'`.
pub(crate) fn listing_number(text: &str) -> Option<i64> {
    match text.strip_prefix("X'") {
        Some(rest) => i64::from_str_radix(rest.strip_suffix('\'')?, 16).ok(),
        None => text.parse::<i64>().ok(),
    }
}

/// The bytes that hexadecimal digits write.
pub(crate) fn bytes_of(alloc: Global, text: &str) -> Result<Vec<u8>, Fault> {
    match hex::decode(alloc, text) {
        Ok(bytes) => Ok(bytes),
        Err(FromHexError::OutOfMemory) => Err(Fault::NoMemory(AllocError)),
        Err(_) => Err(Fault::Malformed),
    }
}

/// The first of some words with one blank between them, and the further ones; an empty one where there is none.
pub fn first_word<'a>(words: &'a str) -> (&'a str, &'a str) {
    match words.split_once(' ') {
        Some((word, rest)) => (word, rest),
        None => (words, ""),
    }
}

/// What stands behind this key in the first word, and the further words; none where that has another key.
pub(crate) fn value<'a>(words: &'a str, key: &str) -> Option<(&'a str, &'a str)> {
    let (word, rest) = first_word(words);
    Some((word.strip_prefix(key)?, rest))
}

/// The hexadecimal number behind this key in the first word, and the further words.
pub(crate) fn number<'a>(words: &'a str, key: &str) -> Option<(u64, &'a str)> {
    let (text, rest) = value(words, key)?;
    Some((hexadecimal(text)?, rest))
}
