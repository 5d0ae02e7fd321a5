//! Whole texts against those of an independent model of the machine.

use report_text::{Attempt, Counts, Processor, report, status, summary};
use std::alloc::Global;
use std::test::Fail;
use tx_control::{Exception, Why};
use tx_journal::{Entry, Event, Show};
use z_regs::{Bytes, CpuImage, RunState, STORAGE_SIZE, Storage};

/// Storage of zeros.
fn zeros(alloc: Global) -> Result<Storage, Fail> {
    let zeros = vec![in alloc; 0u8; 1_048_576]?;
    Ok(Storage::open(alloc, zeros.as_slice())?)
}

/// Puts a byte where there is storage.
fn put(storage: &mut Storage, address: u64, byte: u8) {
    let _size = storage.as_slice();
    if address < STORAGE_SIZE {
        storage.put(address, byte);
    }
}

/// Puts bytes from an address on.
fn lay(storage: &mut Storage, first: u64, bytes: &[u8]) {
    for (k, byte) in bytes.iter().enumerate() {
        put(storage, first.wrapping_add(k as u64), *byte);
    }
}

/// Storage of zeros, but for some bytes from an address on.
fn storage_with(alloc: Global, first: u64, bytes: &[u8]) -> Result<Storage, Fail> {
    let mut storage = zeros(alloc)?;
    lay(&mut storage, first, bytes);
    Ok(storage)
}

/// A CPU that has made so many turns and commits, and was aborted so often.
fn processor(image: CpuImage, turns: u32, commits: u32, aborts: u32) -> Processor {
    let counts = Counts {
        turns,
        asked: 0,
        rejected: 0,
        commits,
        aborts,
    };
    Processor {
        image,
        attempt: None,
        pending: None,
        counts,
        finished: false,
    }
}

/// A program interruption that ended an attempt.
fn program(code: u16) -> Why {
    Why::Program(Exception {
        code,
        fetch: false,
        length: 4,
    })
}

/// One CPU has a block to store, one is in a transaction, and one has an interruption to take.
static UNFINISHED: &str = "\
ZTX REPORT
STATUS 6
CPU 0 INTERRUPTED 0206
PSW 0000000000004010 CC 3 MASK 0
GR 00 0000000000000000 0000000000000001 0000000000000000 0000000000000000
GR 04 0000000000000000 0000000000009000 0000000000000000 0000000000000000
GR 08 0000000000000000 0000000000000000 0000000000000000 0000000000000000
GR 12 0000000000000000 0000000000000000 0000000000000000 0000000000000000
AR 00 00000000 00000000 00000000 00000000 00000000 00000000 00000000 00000000
AR 08 00000000 00000000 00000000 00000000 00000000 00000000 00000000 00000000
TX NONE
PENDING 0000000000009000
COUNTS TURNS 6 ASKED 0 REJECTED 0 COMMITS 0 ABORTS 1
CPU 1 RUNNING
PSW 0000000000004034 CC 0 MASK 0
GR 00 0000000000000000 0000000000000000 0102030405060708 0000000000000000
GR 04 0000000000000000 0000000000000000 0000000000000000 0000000000000000
GR 08 0000000000000000 0000000000000000 0000000000000000 0000000000000000
GR 12 0000000000000000 0000000000000000 0000000000000000 0000000000000000
AR 00 00000000 00000000 00000000 23456789 00000000 00000000 00000000 00000000
AR 08 00000000 00000000 00000000 00000000 00000000 00000000 00000000 00000000
TX DEPTH 2 COMPLETED 3
PENDING NONE
COUNTS TURNS 4 ASKED 0 REJECTED 0 COMMITS 0 ABORTS 0
CPU 2 INTERRUPTED 0218
PSW 000000000000403e CC 3 MASK 0
GR 00 0000000000000000 0000000000000000 0000000000000000 0000000000000000
GR 04 0000000000000000 0000000000000000 0000000000000000 0000000000000000
GR 08 0000000000000000 0000000000000000 0000000000000000 0000000000000000
GR 12 0000000000000000 0000000000000000 0000000000000000 0000000000000000
AR 00 00000000 00000000 00000000 00000000 00000000 00000000 00000000 00000000
AR 08 00000000 00000000 00000000 00000000 00000000 00000000 00000000 00000000
TX NONE
PENDING NONE
COUNTS TURNS 2 ASKED 0 REJECTED 0 COMMITS 0 ABORTS 1
M 00009100 01020304050607080000000000000000
M 00009110 00000000
D 00009000 FORMAT 0 FLAGS 00 DEPTH 0 CODE 0 TOKEN 0000000000000000 AT 0000000000000000 PI 0000
HISTORY 5
S 0
S 0
A 0 3 4 0006
S 1
A 2 1 4 0018
SCHEDULE 12
 SCHED 0,0,0,0,0,0,1,1,1,1,2,2
END
";

/// The CPUs of this report.
fn unfinished_cpus() -> [Processor; 3] {
    let mut image = CpuImage::entering(0x4010);
    image.state = RunState::Interrupted(0x0206);
    image.condition = 3;
    image.general[1] = 1;
    image.general[5] = 0x9000;
    let mut first = processor(image, 6, 0, 1);
    first.pending = Some(0x9000);
    let mut image = CpuImage::entering(0x4034);
    image.general[2] = 0x0102_0304_0506_0708;
    image.access[3] = 0x2345_6789;
    let mut second = processor(image, 4, 0, 0);
    second.attempt = Some(Attempt {
        depth: 2,
        completed: 3,
    });
    let mut image = CpuImage::entering(0x403e);
    image.state = RunState::Interrupted(0x0218);
    image.condition = 3;
    let third = processor(image, 2, 0, 1);
    [first, second, third]
}

/// The events of this report.
static UNFINISHED_EVENTS: [Event; 12] = [
    Event::Turn(0),
    Event::Turn(0),
    Event::Turn(0),
    Event::Turn(0),
    Event::Turn(0),
    Event::Turn(0),
    Event::Turn(1),
    Event::Turn(1),
    Event::Turn(1),
    Event::Turn(1),
    Event::Turn(2),
    Event::Turn(2),
];

/// The history of this report.
fn unfinished_history() -> [Entry; 5] {
    [
        Entry::Step(0),
        Entry::Step(0),
        Entry::Abort(0, 3, program(6)),
        Entry::Step(1),
        Entry::Abort(2, 1, program(0x18)),
    ]
}

/// Whether this is the report of these CPUs on storage.
fn is_unfinished(alloc: Global, storage: &Storage) -> Result<bool, Fail> {
    let _size = storage.as_slice();
    let shows = [
        Show {
            first: 0x9100,
            length: 20,
            fields: false,
        },
        Show {
            first: 0x9000,
            length: 256,
            fields: true,
        },
    ];
    let text = report(
        alloc,
        &unfinished_cpus(),
        &shows,
        storage,
        &unfinished_history(),
        &UNFINISHED_EVENTS,
    )?;
    Ok(text.as_slice() == UNFINISHED.as_bytes())
}

/// The same on storage with a doubleword.
fn is_reported(alloc: Global) -> Result<bool, Fail> {
    let storage = storage_with(alloc, 0x9100, &[1, 2, 3, 4, 5, 6, 7, 8])?;
    is_unfinished(alloc, &storage)
}

#[test]
fn a_report_in_mid_run(rt: HostRuntime) -> Result<(), Fail> {
    assert!(rt; is_reported(rt.alloc())?);
    Ok(())
}

/// A block and what an interruption stored, after the interruption was taken.
static TAKEN: &str = "\
ZTX REPORT
STATUS 0
CPU 0 HALTED
PSW 0000000000005002 CC 0 MASK 0
GR 00 0000000000000000 0000000000000000 0000000000000000 0000000000000000
GR 04 0000000000000000 0000000000000000 0000000000000000 0000000000000000
GR 08 0000000000000000 0000000000000000 0000000000000000 0000000000000000
GR 12 0000000000000000 0000000000000000 0000000000000000 0000000000000000
AR 00 00000000 00000000 00000000 00000000 00000000 00000000 00000000 00000000
AR 08 00000000 00000000 00000000 00000000 00000000 00000000 00000000 00000000
TX NONE
PENDING NONE
COUNTS TURNS 4 ASKED 0 REJECTED 0 COMMITS 0 ABORTS 1
D 0000b800 FORMAT 1 FLAGS 40 DEPTH 1 CODE 4 TOKEN 0000000000000000 AT 0000000000004006 PI 0018
HISTORY 3
A 0 1 4 0018
I 0
S 0
SCHEDULE 4
 SCHED 0,0,0,0
END
";

/// The bytes of that block that are not zero behind it.
static BLOCK: [u8; 40] = [
    1, 0x40, 0, 0, 0, 0, 0, 1, 0, 0, 0, 0, 0, 0, 0, 4, 0, 0, 0, 0, 0, 0, 0, 0, 0, 0, 0, 0, 0, 0,
    0x40, 0x06, 0, 0, 0, 0, 0, 6, 0, 0x18,
];

/// The CPU of this report.
fn halted_cpu() -> Processor {
    let mut image = CpuImage::entering(0x5002);
    image.state = RunState::Halted;
    let mut cpu = processor(image, 4, 0, 1);
    cpu.finished = true;
    cpu
}

/// Whether this is the report of this CPU on storage.
fn is_taken(alloc: Global, storage: &Storage) -> Result<bool, Fail> {
    let _size = storage.as_slice();
    let shows = [Show {
        first: 0xb800,
        length: 256,
        fields: true,
    }];
    let history = [
        Entry::Abort(0, 1, program(0x18)),
        Entry::Interrupt(0),
        Entry::Step(0),
    ];
    let text = report(
        alloc,
        &[halted_cpu()],
        &shows,
        storage,
        &history,
        &[Event::Turn(0); 4],
    )?;
    Ok(text.as_slice() == TAKEN.as_bytes())
}

/// The same on storage with the block.
fn is_block_reported(alloc: Global) -> Result<bool, Fail> {
    let storage = storage_with(alloc, 0xb800, &BLOCK)?;
    is_taken(alloc, &storage)
}

/// The status of that CPU.
fn halted_status() -> u8 {
    status(&[halted_cpu()])
}

#[test]
fn a_report_of_a_block(rt: HostRuntime) -> Result<(), Fail> {
    assert_eq!(rt;
        (is_block_reported(rt.alloc())?, halted_status()),
        (true, 0)
    );
    Ok(())
}

/// The summary of 3.
static SUMMARY: &str = "\
SUMMARY 3
CPUS 5
STATUS 0
TURNS 5956
COMMITS 382
ABORTS 174
SUM 382
";

/// The CPUs of this summary.
fn summed_cpus() -> [Processor; 5] {
    let mut cpus = [processor(CpuImage::entering(0x4000), 1191, 76, 34); 5];
    for cpu in &mut cpus {
        cpu.finished = true;
    }
    cpus[4].counts.turns = 1192;
    cpus[3].counts.commits = 78;
    cpus[0].counts.aborts = 38;
    cpus
}

/// The summary of 9 of no CPUs, whose counters have more than 64 bits in all.
static HIGH: &str =
    "SUMMARY 9\nCPUS 0\nSTATUS 0\nTURNS 0\nCOMMITS 0\nABORTS 0\nSUM 36893488147419103232\n";

/// Whether a summary is this one; no more than sixteen CPUs have one.
fn is_summary(
    alloc: Global,
    number: u64,
    cpus: &[Processor],
    counters: &[u64; 4],
    wanted: &str,
) -> Result<bool, Fail> {
    if cpus.len() > 16 {
        return Ok(false);
    }
    let text = summary(alloc, number, cpus, counters)?;
    Ok(text.as_slice() == wanted.as_bytes())
}

#[test]
fn a_summary(rt: HostRuntime) -> Result<(), Fail> {
    let right = [
        is_summary(rt.alloc(), 3, &summed_cpus(), &[100, 101, 90, 91], SUMMARY)?,
        is_summary(rt.alloc(), 9, &[], &[u64::MAX, 0, u64::MAX, 2], HIGH)?,
    ];
    assert_eq!(rt; right, [true; 2]);
    Ok(())
}
