//! Listings that stand in one line.

use crate::fault::Fault;
use std::alloc::{AllocError, Global};

/// What an escape says.
#[derive(Clone, Copy)]
enum Escape {
    /// A byte stands here.
    Byte(u8),
    /// The byte before stands so many times in all.
    Times(usize),
}

/// A byte by its two hexadecimal digits, and what stands behind these.
fn byte_of<'a>(text: &'a str) -> Result<(Escape, &'a str), Fault> {
    let Some((digits, rest)) = text.split_at_checked(2) else {
        return Err(Fault::Wrong("a byte without two digits"));
    };
    match u8::from_str_radix(digits, 16) {
        Ok(byte) => Ok((Escape::Byte(byte), rest)),
        Err(_) => Err(Fault::Wrong("digits that are none")),
    }
}

/// A number of times, and what stands behind its semicolon.
fn times_of<'a>(text: &'a str) -> Result<(Escape, &'a str), Fault> {
    let Some((times, rest)) = text.split_once(';') else {
        return Err(Fault::Wrong("a number of times without its end"));
    };
    match times.parse::<usize>() {
        Ok(times) => Ok((Escape::Times(times), rest)),
        Err(_) => Err(Fault::Wrong("a number of times that is none")),
    }
}

/// The escape at the head of what stands behind a backslash, and what stands behind the escape.
fn escape_of<'a>(text: &'a str) -> Result<(Escape, &'a str), Fault> {
    let Some((letter, rest)) = text.split_at_checked(1) else {
        return Err(Fault::Wrong("a backslash with nothing behind it"));
    };
    match letter {
        "n" => Ok((Escape::Byte(b'\n'), rest)),
        "r" => Ok((Escape::Byte(b'\r'), rest)),
        "t" => Ok((Escape::Byte(b'\t'), rest)),
        "x" => byte_of(rest),
        "*" => times_of(rest),
        _ => Err(Fault::Wrong("an unknown escape")),
    }
}

/// Puts so many bytes in the place of the last one.
fn repeat_last(listing: &mut Vec<u8>, times: usize) -> Result<(), Fault> {
    let Some(byte) = listing.pop() else {
        return Err(Fault::Wrong("nothing stands before a number of times"));
    };
    let Some(length) = listing.len().checked_add(times) else {
        return Err(Fault::Wrong("too many times"));
    };
    Ok(listing.resize(length, byte)?)
}

/// Adds a byte.
fn add_byte(listing: &mut Vec<u8>, byte: u8) -> Result<(), AllocError> {
    Ok(listing.push(byte)?)
}

/// Adds what an escape says.
fn add_escape(listing: &mut Vec<u8>, escape: Escape) -> Result<(), Fault> {
    match escape {
        Escape::Byte(byte) => Ok(add_byte(listing, byte)?),
        Escape::Times(times) => repeat_last(listing, times),
    }
}

/// Adds what stands behind a backslash.
fn add_escaped(listing: &mut Vec<u8>, piece: &str) -> Result<(), Fault> {
    let (escape, rest) = escape_of(piece)?;
    add_escape(listing, escape)?;
    Ok(listing.extend_from_slice(rest.as_bytes())?)
}

/// Adds what a line stands for.
fn add_listing(listing: &mut Vec<u8>, line: &str) -> Result<(), Fault> {
    for (place, piece) in line.split('\\').enumerate() {
        if place > 0 {
            add_escaped(listing, piece)?;
        } else {
            listing.extend_from_slice(piece.as_bytes())?;
        }
    }
    Ok(())
}

/// The listing that a line stands for.
pub fn listing_of(alloc: Global, line: &str) -> Result<Vec<u8>, Fault> {
    let mut listing = Vec::new(alloc);
    add_listing(&mut listing, line)?;
    Ok(listing)
}
