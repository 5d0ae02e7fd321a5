//! Worked footprints, at their limits too.
ghost use Rattle.std.specs.Prelude.{◌+◌, ◌≤◌, All};
ghost use Rattle.tx_footprint.specs.Places.{IsInStorage};

use std::alloc::Global;
use std::test::Fail;
use tx_footprint::{Footprint, Overflow};
use z_regs::{Range, STORAGE_SIZE, Touches};

/// One range of a doubleword.
fn doubleword(first: u64, store: bool) -> Touches
    requires { first + 8 ≤ STORAGE_SIZE }
    ensures { All IsInStorage result }
{
    let mut touches = Touches::none();
    touches.add(Range {
        first,
        length: 8,
        store,
    });
    touches
}

/// Adds a doubleword of storage where it fits, and else tells what it overflows.
fn take(footprint: &mut Footprint, first: u64, store: bool) -> Option<Overflow> {
    if first > STORAGE_SIZE - 8 {
        return None;
    }
    let touches = doubleword(first, store);
    match footprint.fits(&touches) {
        Ok(()) => {
            footprint.add(&touches);
            None
        }
        Err(overflow) => Some(overflow),
    }
}

/// Takes doublewords, and tells how many fit: where each is, and whether it is stored.
fn take_all(footprint: &mut Footprint, places: &[(u64, bool)]) -> usize {
    let mut fitting = 0usize;
    for (first, store) in places {
        if take(footprint, *first, *store).is_none() {
            fitting = fitting.saturating_add(1);
        }
    }
    fitting
}

/// How many lines and blocks there are; then whether lines 144 and 145 are fetched, and whether they are stored.
fn seen(footprint: &Footprint) -> ([u32; 2], [bool; 4]) {
    let lines = [
        footprint.fetched(144),
        footprint.fetched(145),
        footprint.stored(144),
        footprint.stored(145),
    ];
    ([footprint.lines(), footprint.blocks()], lines)
}

/// Doublewords, and what is seen then: a line that counts once, one fetched beside one stored, both lines of one
/// range.
static TAKEN: [(&[(u64, bool)], [u32; 2], [bool; 4]); 3] = [
    (
        &[(0x9000, false), (0x9080, true)],
        [1, 1],
        [true, false, true, false],
    ),
    (
        &[(0x9000, false), (0x9100, true)],
        [2, 1],
        [true, false, false, true],
    ),
    (
        &[(0x9000, false), (0x9080, true), (0x90fc, true)],
        [2, 2],
        [true, false, true, true],
    ),
];

/// How many of these doublewords fit, and what is seen then.
fn seen_behind(
    alloc: Global,
    places: &[(u64, bool)],
) -> Result<(usize, ([u32; 2], [bool; 4])), Fail> {
    let mut footprint = Footprint::open(alloc)?;
    let fitting = take_all(&mut footprint, places);
    Ok((fitting, seen(&footprint)))
}

#[test]
fn lines_and_blocks_count_once(rt: HostRuntime) -> Result<(), Fail> {
    for (places, counts, lines) in TAKEN {
        let told = seen_behind(rt.alloc(), places)?;
        assert_eq!(rt; told, (places.len(), (counts, lines)));
    }
    Ok(())
}

/// Whether a doubleword fits, and whether the footprint then is the same as an empty one, before that is a copy of it and
/// behind; and how many lines there are once the copy is cleared.
fn copied(footprint: &mut Footprint, other: &mut Footprint) -> ([bool; 3], u32) {
    let fits = take(footprint, 0x9000, true).is_none();
    let before = footprint.same(other);
    other.copy_from(footprint);
    let behind = footprint.same(other);
    other.clear();
    ([fits, before, behind], other.lines())
}

/// The same, of footprints that are opened.
fn copied_anew(alloc: Global) -> Result<([bool; 3], u32), Fail> {
    let mut footprint = Footprint::open(alloc)?;
    let mut other = Footprint::open(alloc)?;
    Ok(copied(&mut footprint, &mut other))
}

#[test]
fn copies_and_clears(rt: HostRuntime) -> Result<(), Fail> {
    let told = copied_anew(rt.alloc())?;
    assert_eq!(rt; told, ([true, false, true], 0));
    Ok(())
}

/// How far apart doublewords are, how many fit, whether they are stored, what one more overflows, and where one of
/// the other kind still fits.
static LIMITS: [(u64, u64, bool, Overflow, u64); 2] = [
    (256, 384, false, Overflow::Fetch, 98_048),
    (128, 64, true, Overflow::Store, 8_192),
];

/// Of so many doublewords how many fit, what one more overflows, and what one of the other kind.
fn filled(
    footprint: &mut Footprint,
    apart: u64,
    count: u64,
    store: bool,
    other: u64,
) -> (u64, [Option<Overflow>; 2]) {
    let mut fitting = 0u64;
    for k in 0..count {
        if take(footprint, k.saturating_mul(apart), store).is_none() {
            fitting = fitting.saturating_add(1);
        }
    }
    let one_more = take(footprint, count.saturating_mul(apart), store);
    let other_kind = take(footprint, other, !store);
    (fitting, [one_more, other_kind])
}

/// The same, of a footprint that is opened.
fn filled_anew(
    alloc: Global,
    apart: u64,
    count: u64,
    store: bool,
    other: u64,
) -> Result<(u64, [Option<Overflow>; 2]), Fail> {
    let mut footprint = Footprint::open(alloc)?;
    Ok(filled(&mut footprint, apart, count, store, other))
}

#[test]
fn limits_are_exact(rt: HostRuntime) -> Result<(), Fail> {
    for (apart, count, store, overflow, other) in LIMITS {
        let told = filled_anew(rt.alloc(), apart, count, store, other)?;
        assert_eq!(rt; told, (count, [Some(overflow), None]));
    }
    Ok(())
}
