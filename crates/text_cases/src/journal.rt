//! Texts of entries and events both ways, and images that are compared, by values from outside.
ghost use Rattle.std.specs.Prelude.{◌≡◌, ◌↔◌, IsTrue};

use std::alloc::Global;
use std::test::Fail;
use tx_control::{Exception, Why};
use tx_journal::{
    Entry, EntryText, Event, Image, Show, add_history, add_schedule, entry_text, read_entry,
    read_number, schedule_text,
};
use z_assemble::assemble;

/// What a line with these parts says.
fn told(kind: u8, cpu: u32, count: u32, code: u64, detail: u64) -> EntryText {
    EntryText {
        kind,
        cpu,
        count,
        code,
        detail,
    }
}

/// Whether a line is read as these numbers.
fn is_read(line: &[u8], numbers: EntryText) -> bool {
    read_entry(line) == Some(numbers)
}

/// Whether an entry has this line, and whether this is read as these numbers.
fn both_ways(
    alloc: Global,
    entry: &Entry,
    line: &[u8],
    numbers: EntryText,
) -> Result<[bool; 2], Fail> {
    let text = entry_text(alloc, entry)?;
    Ok([text.as_slice() == line, is_read(line, numbers)])
}

/// Entries with their lines, and what these are read as: kind, CPU, count.
static ENTRIES: [(Entry, &[u8], u8, u32, u32); 4] = [
    (Entry::Step(0), b"S 0\n", b'S', 0, 0),
    (Entry::Commit(15, 1155), b"C 15 1155\n", b'C', 15, 1155),
    (Entry::Tdb(10), b"T 10\n", b'T', 10, 0),
    (Entry::Interrupt(3), b"I 3\n", b'I', 3, 0),
];

#[test]
fn lines_of_entries(rt: HostRuntime) -> Result<(), Fail> {
    for (entry, line, kind, cpu, count) in &ENTRIES {
        let numbers = told(*kind, *cpu, *count, 0, 0);
        assert_eq!(rt;
            both_ways(rt.alloc(), entry, line, numbers)?,
            [true; 2],
            "{line:?}"
        );
    }
    Ok(())
}

/// A constraint that is broken by an instruction of six bytes.
const BROKEN: Exception = Exception {
    code: 0x0018,
    fetch: false,
    length: 6,
};

/// Causes of the abort of CPU 1 after two instructions, its lines, and the code and detail that they tell.
static ABORTS: [(Why, &[u8], u64, u64); 11] = [
    (Why::External, b"A 1 2 2 -\n", 2, 0),
    (Why::Program(BROKEN), b"A 1 2 4 0018\n", 4, 0x18),
    (Why::FetchOverflow, b"A 1 2 7 -\n", 7, 0),
    (Why::StoreOverflow, b"A 1 2 8 -\n", 8, 0),
    (
        Why::FetchConflict(0x90),
        b"A 1 2 9 0000000000009000\n",
        9,
        0x9000,
    ),
    (
        Why::StoreConflict(0xfff),
        b"A 1 2 10 00000000000fff00\n",
        10,
        0xfff00,
    ),
    (Why::Restricted, b"A 1 2 11 -\n", 11, 0),
    (Why::Filtered(BROKEN), b"A 1 2 12 0018\n", 12, 0x18),
    (Why::Depth, b"A 1 2 13 -\n", 13, 0),
    (Why::Starved, b"A 1 2 255 -\n", 255, 0),
    (Why::Tabort(257), b"A 1 2 257 -\n", 257, 0),
];

#[test]
fn lines_of_aborts(rt: HostRuntime) -> Result<(), Fail> {
    for (why, line, code, detail) in &ABORTS {
        let entry = Entry::Abort(1, 2, *why);
        let numbers = told(b'A', 1, 2, *code, *detail);
        assert_eq!(rt;
            both_ways(rt.alloc(), &entry, line, numbers)?,
            [true; 2],
            "{line:?}"
        );
    }
    Ok(())
}

/// Whether a text is read as no entry.
fn is_refused(text: &[u8]) -> bool {
    read_entry(text).is_none()
}

/// Texts of no entry.
static REFUSED: [&[u8]; 15] = [
    b"S 0",
    b"S 00\n",
    b"S  0\n",
    b"S 4294967296\n",
    b"I 0 1\n",
    b"i 0\n",
    b"B 0\n",
    b"C 0\n",
    b"A 0 2 9 -\n",
    b"A 0 2 9 0000000000009001\n",
    b"A 0 2 9 0000000000009080\n",
    b"A 0 2 10 0000000000100000\n",
    b"A 0 2 9 000000000009000\n",
    b"A 0 2 4 001A\n",
    b"A 0 2 4 -\n",
];

#[test]
fn other_texts_are_not_read(rt: HostRuntime) {
    for text in &REFUSED {
        assert!(rt; is_refused(text), "{text:?}");
    }
}

/// Whether the line of an abort with this code and this detail is refused.
fn is_refused_with(alloc: Global, code: u64, detail: &str) -> Result<bool, Fail> {
    let text = format!(in alloc; "A 0 2 {code} {detail}\n")?;
    Ok(is_refused(text.as_bytes()))
}

/// Codes that no abort has.
static NO_CODES: [u64; 7] = [0, 1, 3, 5, 6, 14, 254];

#[test]
fn codes_that_no_abort_has(rt: HostRuntime) -> Result<(), Fail> {
    for code in &NO_CODES {
        let refused = [
            is_refused_with(rt.alloc(), *code, "-")?,
            is_refused_with(rt.alloc(), *code, "0018")?,
            is_refused_with(rt.alloc(), *code, "0000000000009000")?,
        ];
        assert_eq!(rt; refused, [true; 3], "{code}");
    }
    Ok(())
}

/// Whether a text with a history behind it is this one.
fn is_history(alloc: Global, history: &[Entry], wanted: &[u8]) -> Result<bool, Fail> {
    let mut text = Vec::from_slice(alloc, b"HISTORY 3\n")?;
    add_history(&mut text, history)?;
    Ok(text.as_slice() == wanted)
}

#[test]
fn a_history(rt: HostRuntime) -> Result<(), Fail> {
    let history = [
        Entry::Abort(0, 3, Why::StoreConflict(0x90)),
        Entry::Commit(1, 4),
        Entry::Step(1),
    ];
    let wanted = b"HISTORY 3\nA 0 3 10 0000000000009000\nC 1 4\nS 1\n";
    assert!(rt; is_history(rt.alloc(), &history, wanted)?);
    Ok(())
}

/// Whether the text of a schedule is this one.
fn is_schedule(alloc: Global, events: &[Event], wanted: &[u8]) -> Result<bool, Fail> {
    let text = schedule_text(alloc, events)?;
    Ok(text.as_slice() == wanted)
}

#[test]
fn schedules_of_none_and_sixteen(rt: HostRuntime) -> Result<(), Fail> {
    let wanted = b" SCHED 0,0,0,0,0,0,0,0,0,0,0,0,0,0,0,0\n";
    let right = [
        is_schedule(rt.alloc(), &[], b"")?,
        is_schedule(rt.alloc(), &[Event::Turn(0); 16], wanted)?,
    ];
    assert_eq!(rt; right, [true; 2]);
    Ok(())
}

/// Whether this is what a schedule adds to nothing.
fn is_added(alloc: Global, events: &[Event], wanted: &[u8]) -> Result<bool, Fail> {
    let mut text = Vec::new(alloc);
    add_schedule(&mut text, events)?;
    Ok(text.as_slice() == wanted)
}

#[test]
fn a_schedule_of_seventeen(rt: HostRuntime) -> Result<(), Fail> {
    let mut events = [Event::Turn(1); 17];
    events[2] = Event::External(0);
    events[16] = Event::External(15);
    let wanted = b" SCHED 1,1,X0,1,1,1,1,1,1,1,1,1,1,1,1,1\n SCHED X15\n";
    assert!(rt; is_added(rt.alloc(), &events, wanted)?);
    Ok(())
}

/// What a text is read as.
fn number(text: &[u8]) -> Option<u64> {
    read_number(text)
}

#[test]
fn numbers_have_one_spelling(rt: HostRuntime) {
    let read = [
        number(b"18446744073709551615"),
        number(b"18446744073709551616"),
        number(b"+7"),
        number(b""),
    ];
    assert_eq!(rt; read, [Some(u64::MAX), None, None, None]);
}

/// Listings whose images differ in one thing from that of the first.
const SCHEDULED: &str = " CPU 16384\n SHOW 8192,16\n SCHED 0,X0\n";

const OTHERS: [&str; 6] = [
    " CPU 16384\n SHOW 8192,16\n",
    " CPU 16384\n SHOW 8192,16\n SCHED X0,0\n",
    " CPU 16384\n SHOW 8192,16\n SCHED 0,X0\n PREFIX 0,40960\n",
    " CPU 16384\n SHOW 8192,16\n SCHED 0,X0\n PARM STOP,1\n",
    " CPU 16386\n SHOW 8192,16\n SCHED 0,X0\n",
    " CPU 16384\n SHOW 8192,17\n SCHED 0,X0\n",
];

/// How many CPUs the image of a listing has, and how many bytes.
fn sizes(alloc: Global, listing: &str) -> Result<(u32, usize), Fail> {
    let image = assemble(alloc, listing.as_bytes())?;
    Ok((image.cpu_count(), image.storage.len()))
}

/// Whether an image is that of a listing.
fn is_image(alloc: Global, image: &Image, listing: &str) -> Result<bool, Fail> {
    let other = assemble(alloc, listing.as_bytes())?;
    Ok(image.same(&other))
}

/// Whether a listing has the same image as the first.
fn is_same(alloc: Global, listing: &str) -> Result<bool, Fail> {
    let image = assemble(alloc, SCHEDULED.as_bytes())?;
    is_image(alloc, &image, listing)
}

#[test]
fn images_are_compared(rt: HostRuntime) -> Result<(), Fail> {
    for other in &OTHERS {
        assert!(rt; !is_same(rt.alloc(), other)?, "{other}");
    }
    let first = (
        sizes(rt.alloc(), SCHEDULED)?,
        is_same(rt.alloc(), SCHEDULED)?,
    );
    assert_eq!(rt; first, ((1, 1048576), true));
    Ok(())
}

/// `==` of entries says that they are the same.
fn is_same_entry(one: Entry, other: Entry) -> bool
    ensures { IsTrue result ↔ (one ≡ other) }
{
    one == other
}

#[test]
fn entries_are_compared(rt: HostRuntime) {
    let same = [
        is_same_entry(Entry::Interrupt(1), Entry::Interrupt(1)),
        is_same_entry(Entry::Interrupt(1), Entry::Tdb(1)),
        is_same_entry(
            Entry::Abort(1, 2, Why::Depth),
            Entry::Abort(1, 2, Why::Starved),
        ),
    ];
    assert_eq!(rt; same, [true, false, false]);
}

/// Whether values of a type may move between threads and be shared by them.
fn is_shared<T: Send + Sync>() -> bool {
    true
}

#[test]
fn values_are_shared_by_threads(rt: HostRuntime) {
    assert!(rt;
        is_shared::<Image>() && is_shared::<Show>() && is_shared::<Event>() && is_shared::<Entry>()
    );
}
