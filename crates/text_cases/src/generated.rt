//! Listings that an independent model of the machine gives for numbers.

use std::alloc::{AllocError, Global};
use std::test::Fail;
use tx_gen::{counters, generate};

/// How often each CPU counts and at which address, and how many bytes are shown, in the listings of 0 to 15.
static DRAWN: [&str; 16] = [
    "99:65536 43:65560 100:65560 32:65560 / 32",
    "59:66048 29:66304 97:66048 / 776",
    "20:65536 31:65560 29:65552 83:65552 73:65552 48:65552 23:65552 32:65544 / 32",
    "61:66048 98:66304 27:65792 100:65792 96:66048 / 776",
    "21:65560 100:65560 24:65544 37:65536 / 32",
    "63:65792 87:66304 / 776",
    "23:65560 73:65560 35:65536 87:65560 100:65552 51:65552 / 32",
    "65:65792 75:66304 48:65536 24:66048 42:66304 / 776",
    "25:65560 61:65560 45:65560 / 32",
    "67:65536 63:66304 58:66304 74:65792 88:66304 29:66048 49:66048 / 776",
    "43:65552 49:65560 56:65560 27:65536 30:65560 / 32",
    "85:65536 36:66304 69:66048 44:66304 / 776",
    "45:65552 38:65560 66:65552 61:65560 76:65560 88:65552 86:65544 51:65544 / 32",
    "87:66304 24:66304 80:66048 95:66048 34:66304 32:65792 / 776",
    "47:65544 26:65560 77:65544 31:65544 57:65560 / 32",
    "89:66304 93:66304 / 776",
];

/// The sums by which the listings of 0 to 15 are known whole (`sum_of`).
static SUMS: [u64; 16] = [
    0xCA2A2DAC2BECB782,
    0xC514E33D1B0F9B3F,
    0x42E1DE4CBE6459A5,
    0x6704F381EF5A97D3,
    0x212B66692574DD9D,
    0x7079F38547C3028E,
    0x6A0998D2FE722358,
    0x14DEAD02E465348F,
    0x8D6A405AEC8E9C30,
    0x429767DF62688B3A,
    0x7A485F26E04E756A,
    0xDBA8EA8CE91A9037,
    0x9ECFFB718726DEDD,
    0x8284F7C17F145269,
    0x150303912474E794,
    0x8879A208E132BC99,
];

/// The sum of the listing of the greatest number.
const GREATEST: u64 = 0xF381A80FFF87368B;

/// The whole listing of 0.
static LISTING: [&str; 38] = [
    " CPU P0",
    " CPU P1",
    " CPU P2",
    " CPU P3",
    "P0 LGHI 2,99",
    "L0 TBEGINC 0,65280",
    " LG 1,65536",
    " AGHI 1,1",
    " STG 1,65536",
    " TEND",
    " BRCTG 2,L0",
    " SVC 0",
    "P1 LGHI 2,43",
    "L1 TBEGINC 0,65280",
    " LG 1,65560",
    " AGHI 1,1",
    " STG 1,65560",
    " TEND",
    " BRCTG 2,L1",
    " SVC 0",
    "P2 LGHI 2,100",
    "L2 TBEGINC 0,65280",
    " LG 1,65560",
    " AGHI 1,1",
    " STG 1,65560",
    " TEND",
    " BRCTG 2,L2",
    " SVC 0",
    "P3 LGHI 2,32",
    "L3 TBEGINC 0,65280",
    " LG 1,65560",
    " AGHI 1,1",
    " STG 1,65560",
    " TEND",
    " BRCTG 2,L3",
    " SVC 0",
    " SHOW 65536,32",
    " END",
];

/// Adds what a line of a listing draws.
fn add_drawn(drawn: &mut String, line: &str) -> Result<(), AllocError> {
    if let Some((_, rounds)) = line.split_once(" LGHI 2,") {
        return drawn.push_str(rounds);
    }
    if let Some(counter) = line.strip_prefix(" LG 1,") {
        return write!(drawn, ":{counter} ");
    }
    match line.strip_prefix(" SHOW 65536,") {
        Some(shown) => write!(drawn, "/ {shown}"),
        None => Ok(()),
    }
}

/// Adds what is drawn for a listing, read from its lines.
fn add_all_drawn(drawn: &mut String, listing: &str) -> Result<(), AllocError> {
    for line in listing.lines() {
        add_drawn(drawn, line)?;
    }
    Ok(())
}

/// Whether a listing draws this.
fn draws(alloc: Global, listing: &[u8], wanted: &str) -> Result<bool, Fail> {
    let listing = str::from_utf8(listing)?;
    let mut drawn = String::new(alloc);
    add_all_drawn(&mut drawn, listing)?;
    Ok(drawn.as_str() == wanted)
}

/// Whether this is drawn for a number.
fn is_drawn(alloc: Global, number: u64, wanted: &str) -> Result<bool, Fail> {
    let listing = generate(alloc, number)?;
    draws(alloc, listing.as_slice(), wanted)
}

#[test]
fn numbers_drawn(rt: HostRuntime) -> Result<(), Fail> {
    for (number, wanted) in DRAWN.iter().enumerate() {
        assert!(rt; is_drawn(rt.alloc(), number as u64, wanted)?, "{number}");
    }
    Ok(())
}

/// The 64 bits of FNV-1a over a text: another byte or another length changes them.
fn sum_of(text: &[u8]) -> u64 {
    let mut sum: u64 = 0xCBF2_9CE4_8422_2325;
    for byte in text {
        sum = (sum ^ u64::from(*byte)).wrapping_mul(0x0000_0100_0000_01B3);
    }
    sum
}

/// The sum of a number's listing.
fn listing_sum(alloc: Global, number: u64) -> Result<u64, Fail> {
    let text = generate(alloc, number)?;
    Ok(sum_of(text.as_slice()))
}

#[test]
fn whole_listings(rt: HostRuntime) -> Result<(), Fail> {
    for (number, sum) in SUMS.iter().enumerate() {
        assert_eq!(rt; listing_sum(rt.alloc(), number as u64)?, *sum, "{number}");
    }
    assert_eq!(rt; listing_sum(rt.alloc(), u64::MAX)?, GREATEST);
    Ok(())
}

/// Whether a text has these lines alone.
fn has_lines(text: &str) -> bool {
    for (i, line) in text.lines().enumerate() {
        if line != LISTING.get(i).copied().unwrap_or("") {
            return false;
        }
    }
    text.len() == 421
}

/// Whether the listing of 0 is this one.
fn is_whole(alloc: Global) -> Result<bool, Fail> {
    let text = generate(alloc, 0)?;
    Ok(has_lines(str::from_utf8(text.as_slice())?))
}

#[test]
fn a_whole_listing(rt: HostRuntime) -> Result<(), Fail> {
    assert!(rt; is_whole(rt.alloc())?);
    Ok(())
}

/// The counters of a number's listing.
fn places(number: u64) -> [u64; 4] {
    counters(number)
}

#[test]
fn counters_are_eight_or_256_bytes_apart(rt: HostRuntime) {
    let wanted = [[65536, 65544, 65552, 65560], [65536, 65792, 66048, 66304]];
    assert_eq!(rt; [places(0), places(1)], wanted);
}
