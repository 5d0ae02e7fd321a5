//! Lines of reports of an independent model of the machine, and lines that are none.
use report_form::{Name, Row, fits};

/// What a line is to tell, the last CPU that there is, the line, and whether it does.
static LINES: [(Row, u32, &[u8], bool); 22] = [
    (Row::Title, 0, b"ZTX REPORT\n", true),
    (Row::Title, 0, b"ZTX REPORT", false),
    (Row::Status, 0, b"STATUS 6\n", true),
    (Row::Status, 0, b"STATUS 5\n", false),
    (Row::State, 1, b"CPU 1 INTERRUPTED 0206\n", true),
    (Row::State, 0, b"CPU 1 HALTED\n", false),
    (Row::Psw, 0, b"PSW 0000000000004010 CC 3 MASK a\n", true),
    (Row::Psw, 0, b"PSW 0000000000004010 CC 03 MASK a\n", false),
    (Row::Attempt, 0, b"TX DEPTH 2 COMPLETED 200000\n", true),
    (Row::Attempt, 0, b"TX DEPTH 2 COMPLETED 200001\n", false),
    (Row::Pending, 0, b"PENDING NONE\n", true),
    (Row::Counts, 0, COUNTS, true),
    (Row::Access(Name::From8), 0, ZEROS, true),
    (Row::Access(Name::From0), 0, ZEROS, false),
    (Row::Bytes(8), 0, b"M 00009110 00ff0000\n", true),
    (Row::Bytes(8), 0, b"M 00009110 00FF0000\n", false),
    (Row::Entry, 2, b"A 2 1 4 0018\n", true),
    (Row::Entry, 1, b"A 2 1 4 0018\n", false),
    (Row::Events(3), 1, b" SCHED 0,X1,0\n", true),
    (Row::Events(2), 1, b" SCHED 0,X1,0\n", false),
    (Row::End, 0, b"END\n", true),
    (Row::End, 0, b"END\r\n", false),
];

/// The counts of a CPU that has asked as often as can be told.
const COUNTS: &[u8] = b"COUNTS TURNS 4 ASKED 18446744073709551615 REJECTED 0 COMMITS 0 ABORTS 1\n";

/// Eight access registers from the eighth on.
const ZEROS: &[u8] =
    b"AR 08 00000000 00000000 00000000 00000000 00000000 00000000 00000000 00000000\n";

/// Whether a line tells that.
fn tells(row: Row, last: u32, line: &[u8]) -> bool {
    fits(row, last, line)
}

#[test]
fn lines_and_other_lines(rt: HostRuntime) {
    for (row, last, line, told) in &LINES {
        assert_eq!(rt; tells(*row, *last, line), *told, "{line:?}");
    }
}
