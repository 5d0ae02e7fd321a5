//! Reports and summaries of machines against those of an independent model.

use crate::machines::{Case, Look, Way, is_shown};
use std::alloc::Global;
use std::test::Fail;
use tx_gen::generate;
use tx_meaning::limits::MOST_TURNS;
use tx_report::{Machine, NoMemory, report, status, summary};

/// One CPU has committed and is rejected now, one has a block to store, and one is in a transaction.
const UNFINISHED: &str = " CPU ADDS
 CPU FAILS
 CPU NESTS
ADDS LGHI 1,5
 TBEGIN 0,X'FF00'
 STG 1,X'9100'
 TEND
 LG 4,X'9108'
FAILS TBEGIN 0(5),X'FF00'
 TABORT 256
NESTS TBEGIN 0,X'FF00'
 TBEGIN 0,X'FF00'
 LG 3,X'9100'
 STG 2,X'9108'
 REG 1,5,X'9200'
 REG 2,2,9
 SHOW X'9100',20
 TDB X'9200'
 SCHED 0*4,2*4,0*2,1*2
 END
";

/// The report of the independent model.
const UNFINISHED_REPORT: &str = "\
ZTX REPORT
STATUS 6
CPU 0 RUNNING
PSW 0000000000004014 CC 0 MASK 0
GR 00 0000000000000000 0000000000000005 0000000000000000 0000000000000000
GR 04 0000000000000000 0000000000000000 0000000000000000 0000000000000000
GR 08 0000000000000000 0000000000000000 0000000000000000 0000000000000000
GR 12 0000000000000000 0000000000000000 0000000000000000 0000000000000000
AR 00 00000000 00000000 00000000 00000000 00000000 00000000 00000000 00000000
AR 08 00000000 00000000 00000000 00000000 00000000 00000000 00000000 00000000
TX NONE
PENDING NONE
COUNTS TURNS 6 ASKED 2 REJECTED 2 COMMITS 1 ABORTS 0
CPU 1 RUNNING
PSW 0000000000004020 CC 2 MASK 0
GR 00 0000000000000000 0000000000000000 0000000000000000 0000000000000000
GR 04 0000000000000000 0000000000009200 0000000000000000 0000000000000000
GR 08 0000000000000000 0000000000000000 0000000000000000 0000000000000000
GR 12 0000000000000000 0000000000000000 0000000000000000 0000000000000000
AR 00 00000000 00000000 00000000 00000000 00000000 00000000 00000000 00000000
AR 08 00000000 00000000 00000000 00000000 00000000 00000000 00000000 00000000
TX NONE
PENDING 0000000000009200
COUNTS TURNS 2 ASKED 0 REJECTED 0 COMMITS 0 ABORTS 1
CPU 2 RUNNING
PSW 000000000000403c CC 0 MASK 0
GR 00 0000000000000000 0000000000000000 0000000000000009 0000000000000005
GR 04 0000000000000000 0000000000000000 0000000000000000 0000000000000000
GR 08 0000000000000000 0000000000000000 0000000000000000 0000000000000000
GR 12 0000000000000000 0000000000000000 0000000000000000 0000000000000000
AR 00 00000000 00000000 00000000 00000000 00000000 00000000 00000000 00000000
AR 08 00000000 00000000 00000000 00000000 00000000 00000000 00000000 00000000
TX DEPTH 2 COMPLETED 4
PENDING NONE
COUNTS TURNS 4 ASKED 2 REJECTED 0 COMMITS 0 ABORTS 0
M 00009100 00000000000000050000000000000000
M 00009110 00000000
D 00009200 FORMAT 0 FLAGS 00 DEPTH 0 CODE 0 TOKEN 0000000000000000 AT 0000000000000000 PI 0000
HISTORY 3
S 0
C 0 3
A 1 1 256 -
SCHEDULE 12
 SCHED 0,0,0,0,2,2,2,2,0,0,1,1
END
";

/// The short summary of the independent model for the number 0.
const FIRST_SUMMARY: &str = "\
SUMMARY 0
CPUS 4
STATUS 0
TURNS 11690
COMMITS 274
ABORTS 394
SUM 274
";

/// Whether a text that was written is this one.
fn is_text(written: Result<Vec<u8>, NoMemory>, text: &str) -> bool {
    match written {
        Ok(written) => written.as_slice() == text.as_bytes(),
        Err(_) => false,
    }
}

/// Whether a machine has this report and this status.
pub fn has_report(alloc: Global, machine: &Machine, text: &str, number: u8) -> bool {
    status(machine) == number && is_text(report(alloc, machine), text)
}

/// Whether a machine of the generator's listing for a number has this summary and this status.
pub fn has_summary(alloc: Global, of: u64, machine: &Machine, text: &str, number: u8) -> bool {
    status(machine) == number && is_text(summary(alloc, of, machine), text)
}

/// By its own schedule.
const UNFINISHED_CASE: Case = Case {
    turns: MOST_TURNS,
    way: Way::Given,
    look: Look::Report(UNFINISHED_REPORT, 6),
};

/// In the round.
const FIRST_CASE: Case = Case {
    turns: MOST_TURNS,
    way: Way::Round,
    look: Look::Summary(0, FIRST_SUMMARY, 0),
};

/// Whether the machine of the generator's listing for 0 has its summary.
fn is_summed(alloc: Global) -> Option<bool> {
    let listing = generate(alloc, 0).ok()?;
    is_shown(alloc, listing.as_slice(), FIRST_CASE)
}

#[test]
fn reports_and_summaries(rt: HostRuntime) -> Result<(), Fail> {
    let right = [
        is_shown(rt.alloc(), UNFINISHED.as_bytes(), UNFINISHED_CASE),
        is_summed(rt.alloc()),
    ];
    assert_eq!(rt; right, [Some(true); 2]);
    Ok(())
}
