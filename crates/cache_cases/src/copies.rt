//! Copies of lines: which are there, what they hold, and when there is no room.

use l1_data::{L1, LINE_SIZE, LINES, MOST_COPIES};
use std::alloc::Global;
use std::test::Fail;

/// Makes a copy of a line with the same byte everywhere, where one may be made.
fn fill(l1: &mut L1, line: u32, byte: u8) -> bool {
    if line as usize >= LINES || l1.has(line) {
        return false;
    }
    if l1.count() as usize >= MOST_COPIES {
        return false;
    }
    l1.install(line, &[byte; LINE_SIZE]);
    true
}

/// A byte of a copy, where there is one.
fn byte(l1: &L1, line: u32, at: u32) -> Option<u8> {
    if !l1.has(line) || at as usize >= LINE_SIZE {
        return None;
    }
    Some(l1.get(line, at))
}

/// Changes a byte of a copy, where there is one.
fn change(l1: &mut L1, line: u32, at: u32, byte: u8) -> bool {
    if !l1.has(line) || at as usize >= LINE_SIZE {
        return false;
    }
    l1.put(line, at, byte);
    true
}

/// Changes bytes of a copy from a place on, where there is one with room for them, and gives all of it.
fn change_all<'a>(l1: &'a mut L1, line: u32, at: u32, bytes: &[u8]) -> Option<&'a [u8]> {
    if !l1.has(line) || bytes.len() > LINE_SIZE || at as usize > LINE_SIZE - bytes.len() {
        return None;
    }
    l1.lay(line, at, bytes);
    Some(l1.copy_of(line))
}

/// The last byte of a copy, where there is one.
fn last_byte(l1: &L1, line: u32) -> Option<u8> {
    l1.find(line).map(|copy| copy[LINE_SIZE - 1])
}

/// Drops a copy, where there is one.
fn take_away(l1: &mut L1, line: u32) -> bool {
    if !l1.has(line) {
        return false;
    }
    l1.drop_line(line);
    true
}

/// Makes copies of the lines 0 to 383, each with bytes of its own. How many were made.
fn fill_all(l1: &mut L1) -> u32 {
    let mut made = 0u32;
    for line in 0..384u32 {
        if fill(l1, line, (line % 251) as u8) {
            made = made.saturating_add(1);
        }
    }
    made
}

/// How many copies are made; whether one more is, one is dropped, and one more is then; how many there are before and
/// behind the drop; and bytes of the dropped line, of two others and of the new one.
type Refilled = (u32, [bool; 3], [u32; 2], [Option<u8>; 4]);

fn refill(l1: &mut L1) -> Refilled {
    let made = fill_all(l1);
    let one_more = fill(l1, 4095, 7);
    let before = l1.count();
    let dropped = take_away(l1, 40);
    let behind = l1.count();
    let again = fill(l1, 4095, 7);
    let bytes = [
        byte(l1, 40, 0),
        byte(l1, 383, 255),
        byte(l1, 39, 255),
        byte(l1, 4095, 0),
    ];
    (made, [one_more, dropped, again], [before, behind], bytes)
}

/// The same of copies that are opened.
fn refilled(alloc: Global) -> Result<Refilled, Fail> {
    let mut l1 = L1::open(alloc)?;
    Ok(refill(&mut l1))
}

#[test]
fn fills_drops_and_fills_again(rt: HostRuntime) -> Result<(), Fail> {
    let told = refilled(rt.alloc())?;
    let bytes = [None, Some(132), Some(39), Some(7)];
    assert_eq!(rt; told, (384, [false, true, true], [384, 383], bytes));
    Ok(())
}

/// Whether two copies are made and a byte of the first one changes, and three bytes.
fn change_one(l1: &mut L1) -> ([bool; 3], [Option<u8>; 3]) {
    let first = fill(l1, 144, 1);
    let second = fill(l1, 145, 2);
    let changed = change(l1, 144, 255, 9);
    let bytes = [byte(l1, 144, 255), byte(l1, 144, 254), byte(l1, 145, 255)];
    ([first, second, changed], bytes)
}

/// The same of copies that are opened.
fn one_changed(alloc: Global) -> Result<([bool; 3], [Option<u8>; 3]), Fail> {
    let mut l1 = L1::open(alloc)?;
    Ok(change_one(&mut l1))
}

#[test]
fn a_byte_of_one_copy_changes(rt: HostRuntime) -> Result<(), Fail> {
    let told = one_changed(rt.alloc())?;
    assert_eq!(rt; told, ([true; 3], [Some(9), Some(1), Some(2)]));
    Ok(())
}

/// The length and the last four bytes of a copy whose last three bytes have changed, where there is one.
type Tail = Option<(usize, [Option<u8>; 4])>;

fn tail_of(l1: &mut L1) -> Tail {
    let copy = change_all(l1, 144, 253, &[7, 8, 9])?;
    let tail = [
        copy.get(252).copied(),
        copy.get(253).copied(),
        copy.get(254).copied(),
        copy.get(255).copied(),
    ];
    Some((copy.len(), tail))
}

/// Whether a copy is made; its length and its last bytes then; whether none is changed where none is; and the last bytes
/// of both lines.
type Changed = (bool, Tail, bool, [Option<u8>; 2]);

fn change_last(l1: &mut L1) -> Changed {
    let filled = fill(l1, 144, 1);
    let tail = tail_of(l1);
    let none = change_all(l1, 145, 0, &[7]).is_none();
    (filled, tail, none, [last_byte(l1, 144), last_byte(l1, 145)])
}

/// The same of copies that are opened.
fn last_changed(alloc: Global) -> Result<Changed, Fail> {
    let mut l1 = L1::open(alloc)?;
    Ok(change_last(&mut l1))
}

#[test]
fn the_last_bytes_of_a_copy_change(rt: HostRuntime) -> Result<(), Fail> {
    let told = last_changed(rt.alloc())?;
    let tail = Some((256, [Some(1), Some(7), Some(8), Some(9)]));
    assert_eq!(rt; told, (true, tail, true, [Some(9), None]));
    Ok(())
}

/// Whether a copy is made before and behind a clearing, how many there are in between, and the last byte.
fn clear(l1: &mut L1) -> ([bool; 2], u32, Option<u8>) {
    let first = fill(l1, 144, 1);
    l1.clear();
    let count = l1.count();
    let second = fill(l1, 144, 3);
    ([first, second], count, byte(l1, 144, 255))
}

/// The same of copies that are opened.
fn cleared(alloc: Global) -> Result<([bool; 2], u32, Option<u8>), Fail> {
    let mut l1 = L1::open(alloc)?;
    Ok(clear(&mut l1))
}

#[test]
fn nothing_is_left_of_an_old_copy(rt: HostRuntime) -> Result<(), Fail> {
    let told = cleared(rt.alloc())?;
    assert_eq!(rt; told, ([true; 2], 0, Some(3)));
    Ok(())
}
