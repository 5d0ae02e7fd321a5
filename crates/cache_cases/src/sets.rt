//! A worked set.
ghost use Rattle.std.specs.Prelude.{◌≡◌, length};

use bit_set::BitSet;
use std::alloc::{AllocError, Global};
use std::test::Fail;

/// The next numbers from four places on, whether five runs are there, and how long those from five places on are in their words.
type Found = ([Option<usize>; 4], [bool; 5], [usize; 5]);

/// What is found in a set of a number and two runs.
fn find(set: &mut BitSet) -> Found
    requires { length set.old ≡ 192 }
{
    set.insert(5);
    set.insert_run(62, 66);
    set.insert_in_word(190, 192);
    let found = [
        set.next(6, 192),
        set.next(65, 191),
        set.next(66, 190),
        set.next(66, 192),
    ];
    let whole = [
        set.has_run(62, 66),
        set.has_run(63, 65),
        set.has_run(61, 66),
        set.has_run(62, 67),
        set.has_run(191, 192),
    ];
    let long = [
        set.run_from(5),
        set.run_from(62),
        set.run_from(64),
        set.run_from(66),
        set.run_from(191),
    ];
    (found, whole, long)
}

/// The same in a set that is opened.
fn found(alloc: Global) -> Result<Found, AllocError> {
    let mut set = BitSet::open(alloc, 3)?;
    Ok(find(&mut set))
}

#[test]
fn finds_what_was_added(rt: HostRuntime) -> Result<(), Fail> {
    let told = found(rt.alloc())?;
    let next = [Some(62), Some(65), None, Some(190)];
    let whole = [true, true, false, false, true];
    assert_eq!(rt; told, (next, whole, [1, 2, 2, 0, 1]));
    Ok(())
}

/// Whether a set is the same as an empty one before that is a copy of it and behind; whether that has two numbers once one is
/// taken away and the other put; and the first number of it once it is cleared.
type Held = ([bool; 4], Option<usize>);

/// What is held of a set of one number, and of another one.
fn hold(set: &mut BitSet, other: &mut BitSet) -> Held
    requires size { length set.old ≡ 192 }
    requires other { length other.old ≡ 192 }
{
    set.insert(191);
    let before = set.same(other);
    other.copy_from(set);
    let behind = set.same(other);
    other.put(191, false);
    other.put(7, true);
    let held = [before, behind, other.has(191), other.has(7)];
    other.clear();
    (held, other.next(0, 192))
}

/// The same of sets that are opened.
fn held(alloc: Global) -> Result<Held, AllocError> {
    let mut set = BitSet::open(alloc, 3)?;
    let mut other = BitSet::open(alloc, 3)?;
    Ok(hold(&mut set, &mut other))
}

#[test]
fn copies_puts_and_clears(rt: HostRuntime) -> Result<(), Fail> {
    let told = held(rt.alloc())?;
    assert_eq!(rt; told, ([false, true, false, true], None));
    Ok(())
}
