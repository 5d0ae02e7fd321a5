//! Expected answers are those of an independent model of the machine.
ghost use Rattle.std.specs.Prelude.{◌≡◌, ◌≤◌, ◌+◌, All};
ghost use Rattle.tx_footprint.specs.Places.{IsInStorage};

use interrogate::{Answer, Asker, answer};
use line_table::Mode;
use std::alloc::Global;
use std::test::Fail;
use tx_control::Why;
use tx_footprint::{Footprint, Overflow};
use tx_ladder::{Ladder, Parms};
use z_regs::{Range, STORAGE_SIZE, Touches};

/// The line that is asked for, 9000 to 90FF in hexadecimal.
const LINE: u32 = 144;

/// One range of a doubleword.
fn doubleword(first: u64, store: bool) -> Touches
    requires { first + 8 ≤ STORAGE_SIZE }
    ensures { All IsInStorage result }
{
    let mut touches = Touches::none();
    touches.add(Range {
        first,
        length: 8,
        store,
    });
    touches
}

/// Adds a doubleword of the line, where it fits.
fn touch(footprint: &mut Footprint, store: bool) -> Result<(), Overflow> {
    let touches = doubleword(0x9000, store);
    footprint.fits(&touches)?;
    footprint.add(&touches);
    Ok(())
}

/// The ladder of a live attempt after some conflict aborts of its CPU, which has given some rejects as far as
/// it may.
fn ladder_of(constrained: bool, conflicts: u32, rejects: u32) -> Ladder {
    let mut ladder = Ladder::new(Parms::usual());
    ladder.begin(true);
    for _ in 0..conflicts {
        if ladder.aborts() < 8 {
            let _ = ladder.conflict();
        }
    }
    ladder.begin(constrained);
    for _ in 0..rejects {
        if ladder.may_reject() {
            ladder.gave_reject();
        }
    }
    ladder
}

/// Y: it yields; R: it rejects; F and S: it is aborted by a fetch conflict, a store conflict; ?: it names
/// another cause.
fn letter(answer: Answer) -> u8 {
    match answer {
        Answer::Yields => b'Y',
        Answer::Rejects => b'R',
        Answer::Aborts(why) if why == Why::FetchConflict(LINE) => b'F',
        Answer::Aborts(why) if why == Why::StoreConflict(LINE) => b'S',
        Answer::Aborts(_) => b'?',
    }
}

/// Whether the attempt has fetched the line, whether it has stored it, how the line is asked for, and the
/// answers: by whether the attempt is live, whether it is constrained, whether it has given all the rejects
/// that it may, whether the asker is late, and whether it is the head of the queue, the last changing
/// fastest.
const ANSWERS: [(bool, bool, Mode, &[u8; 32]); 8] = [
    (
        false,
        false,
        Mode::Shared,
        b"YYYYYYYYYYYYYYYYYYYYYYYYYYYYYYYY",
    ),
    (
        false,
        false,
        Mode::Exclusive,
        b"YYYYYYYYYYYYYYYYYYYYYYYYYYYYYYYY",
    ),
    (
        true,
        false,
        Mode::Shared,
        b"YYYYYYYYYYYYYYYYYYYYYYYYYYYYYYYY",
    ),
    (
        true,
        false,
        Mode::Exclusive,
        b"YYYYYYYYYYYYYYYYRFFFFFFFRFRFFFFF",
    ),
    (
        false,
        true,
        Mode::Shared,
        b"YYYYYYYYYYYYYYYYRSSSSSSSRSRSSSSS",
    ),
    (
        false,
        true,
        Mode::Exclusive,
        b"YYYYYYYYYYYYYYYYRSSSSSSSRSRSSSSS",
    ),
    (
        true,
        true,
        Mode::Shared,
        b"YYYYYYYYYYYYYYYYRSSSSSSSRSRSSSSS",
    ),
    (
        true,
        true,
        Mode::Exclusive,
        b"YYYYYYYYYYYYYYYYRSSSSSSSRSRSSSSS",
    ),
];

/// Fetches a doubleword of the line, or stores it, or both.
fn touch_as(footprint: &mut Footprint, fetched: bool, stored: bool) -> Result<(), Overflow> {
    if fetched {
        touch(footprint, false)?;
    }
    if stored {
        touch(footprint, true)?;
    }
    Ok(())
}

/// The footprint of an attempt that has fetched a doubleword of the line, or stored it, or both.
fn footprint_of(alloc: Global, fetched: bool, stored: bool) -> Result<Footprint, Fail> {
    let mut footprint = Footprint::open(alloc)?;
    touch_as(&mut footprint, fetched, stored)?;
    Ok(footprint)
}

/// The letter of the answer at a place of the letters of `ANSWERS`.
fn letter_at(footprint: &Footprint, mode: Mode, place: u32) -> u8 {
    let rejects = if place & 4 == 0 { 7 } else { 8 };
    let mut ladder = ladder_of(place & 8 != 0, 0, rejects);
    let asker = Asker {
        head: place & 1 != 0,
        late: place & 2 != 0,
    };
    let live = place & 16 != 0;
    letter(answer(live, footprint, &mut ladder, LINE, mode, asker))
}

/// The letters of the answers of an attempt that has fetched the line, or stored it, or both.
fn letters_of(
    alloc: Global,
    (fetched, stored): (bool, bool),
    mode: Mode,
) -> Result<[u8; 32], Fail> {
    let footprint = footprint_of(alloc, fetched, stored)?;
    let mut letters = [0; 32];
    for place in 0..32u32 {
        letters[place as usize] = letter_at(&footprint, mode, place);
    }
    Ok(letters)
}

#[test]
fn answers_of_all_kinds(rt: HostRuntime) -> Result<(), Fail> {
    for (fetched, stored, mode, letters) in ANSWERS {
        assert_eq!(rt; letters_of(rt.alloc(), (fetched, stored), mode)?, *letters);
    }
    Ok(())
}

/// How many rejects a constrained attempt gives when it is asked a hundred times, after some conflict aborts of
/// its CPU and some rejects.
fn rejects_after(footprint: &Footprint, conflicts: u32, rejects: u32) -> u32 {
    let asker = Asker {
        head: false,
        late: false,
    };
    let mut ladder = ladder_of(true, conflicts, rejects);
    let mut given = 0u32;
    for _ in 0..100 {
        let answered = answer(true, footprint, &mut ladder, LINE, Mode::Exclusive, asker);
        if answered == Answer::Rejects {
            given = given.saturating_add(1);
        }
    }
    given
}

/// The same of an attempt that has fetched the line.
fn rejects_of_a_fetch(alloc: Global, conflicts: u32, rejects: u32) -> Result<u32, Fail> {
    let footprint = footprint_of(alloc, true, false)?;
    Ok(rejects_after(&footprint, conflicts, rejects))
}

/// Conflict aborts, rejects that were given, and how many more are given.
const REJECTS: [(u32, u32, u32); 5] = [(3, 7, 1), (3, 8, 0), (4, 8, 56), (4, 63, 1), (4, 64, 0)];

#[test]
fn a_late_holder_is_firm(rt: HostRuntime) -> Result<(), Fail> {
    for (conflicts, rejects, expected) in REJECTS {
        let given = rejects_of_a_fetch(rt.alloc(), conflicts, rejects)?;
        assert_eq!(rt; given, expected);
    }
    Ok(())
}
