//! The top call on its commands, and on sources and sinks that fail.
use std::alloc::{AllocError, Global};
use std::test::Fail;
use tx_race::OpenGate;
use ztx_io::{MemorySink, MemorySource, SureSink, SureSource};
use ztx_top::{sure_top, ztx_top};

/// A transaction that stores, and one on another CPU that loads from the same line.
const CONFLICT: &str = " CPU P
 CPU Q
P TBEGIN 0,X'FF00'
 JNZ POUT
 STG 1,X'9000'
 TEND
POUT SVC 0
Q TBEGIN 0,X'FF00'
 JNZ QOUT
 LG 2,X'9000'
 TEND
QOUT SVC 0
 REG 0,1,7
 SCHED 0*3,1*2,1*8,1,1*2,0*2
 END
";

/// What an independent model says of it.
const REPORT: &str = "ZTX REPORT
STATUS 0
CPU 0 HALTED
PSW 0000000000004016 CC 2 MASK 0
GR 00 0000000000000000 0000000000000007 0000000000000000 0000000000000000
GR 04 0000000000000000 0000000000000000 0000000000000000 0000000000000000
GR 08 0000000000000000 0000000000000000 0000000000000000 0000000000000000
GR 12 0000000000000000 0000000000000000 0000000000000000 0000000000000000
AR 00 00000000 00000000 00000000 00000000 00000000 00000000 00000000 00000000
AR 08 00000000 00000000 00000000 00000000 00000000 00000000 00000000 00000000
TX NONE
PENDING NONE
COUNTS TURNS 5 ASKED 0 REJECTED 0 COMMITS 0 ABORTS 1
CPU 1 HALTED
PSW 000000000000402c CC 0 MASK 0
GR 00 0000000000000000 0000000000000000 0000000000000000 0000000000000000
GR 04 0000000000000000 0000000000000000 0000000000000000 0000000000000000
GR 08 0000000000000000 0000000000000000 0000000000000000 0000000000000000
GR 12 0000000000000000 0000000000000000 0000000000000000 0000000000000000
AR 00 00000000 00000000 00000000 00000000 00000000 00000000 00000000 00000000
AR 08 00000000 00000000 00000000 00000000 00000000 00000000 00000000 00000000
TX NONE
PENDING NONE
COUNTS TURNS 13 ASKED 9 REJECTED 8 COMMITS 1 ABORTS 0
HISTORY 5
A 0 3 10 0000000000009000
C 1 4
S 1
S 0
S 0
SCHEDULE 18
 SCHED 0,0,0,1,1,1,1,1,1,1,1,1,1,1,1,1
 SCHED 0,0
END
";

/// One CPU, whose race can have one end alone.
const ALONE: &str = " CPU START\nSTART LGHI 1,5\n SVC 0\n";

/// What an independent model says of its race.
const ALONE_REPORT: &str = "ZTX REPORT
STATUS 0
CPU 0 HALTED
PSW 0000000000004006 CC 0 MASK 0
GR 00 0000000000000000 0000000000000005 0000000000000000 0000000000000000
GR 04 0000000000000000 0000000000000000 0000000000000000 0000000000000000
GR 08 0000000000000000 0000000000000000 0000000000000000 0000000000000000
GR 12 0000000000000000 0000000000000000 0000000000000000 0000000000000000
AR 00 00000000 00000000 00000000 00000000 00000000 00000000 00000000 00000000
AR 08 00000000 00000000 00000000 00000000 00000000 00000000 00000000 00000000
TX NONE
PENDING NONE
COUNTS TURNS 2 ASKED 0 REJECTED 0 COMMITS 0 ABORTS 0
HISTORY 2
S 0
S 0
SCHEDULE 2
 SCHED 0,0
END
";

/// The same model's heat of it: eight rejects and an abort for one line, both CPUs at the same doubleword.
const HEAT: &str = "HEAT
LINE 00009000 CONFLICTS 9 REJECTS 8 ABORTS 1 FALSE 0
TOTAL CONFLICTS 9 REJECTS 8 ABORTS 1 FALSE 0
STATUS 0
END
";

/// ALONE with its report behind it.
const ALONE_REPORTED: &str = " CPU START
START LGHI 1,5
 SVC 0
ZTX REPORT
STATUS 0
CPU 0 HALTED
PSW 0000000000004006 CC 0 MASK 0
GR 00 0000000000000000 0000000000000005 0000000000000000 0000000000000000
GR 04 0000000000000000 0000000000000000 0000000000000000 0000000000000000
GR 08 0000000000000000 0000000000000000 0000000000000000 0000000000000000
GR 12 0000000000000000 0000000000000000 0000000000000000 0000000000000000
AR 00 00000000 00000000 00000000 00000000 00000000 00000000 00000000 00000000
AR 08 00000000 00000000 00000000 00000000 00000000 00000000 00000000 00000000
TX NONE
PENDING NONE
COUNTS TURNS 2 ASKED 0 REJECTED 0 COMMITS 0 ABORTS 0
HISTORY 2
S 0
S 0
SCHEDULE 2
 SCHED 0,0
END
";

/// A command line, an input, and what an independent model answers: a status and a text.
#[derive(Clone, Copy)]
struct Case {
    words: &'static str,
    input: &'static str,
    status: u8,
    text: &'static str,
}

static CASES: [Case; 22] = [
    Case {
        words: "list",
        input: " CPU START\nSTART LGHI 1,5\n SVC 0\n",
        status: 0,
        text: "00004000 a7190005     LGHI 1,5\n00004004 0a00         SVC 0\n",
    },
    Case {
        words: "list",
        input: " CPU START\nSTART LGHI 1,\n",
        status: 5,
        text: "ztx: line 2: wrong operands\n",
    },
    Case {
        words: "run",
        input: "",
        status: 5,
        text: "ztx: line 0: no CPU\n",
    },
    Case {
        words: "run",
        input: " CP",
        status: 5,
        text: "ztx: line 1: unknown mnemonic\n",
    },
    Case {
        words: "run",
        input: " CPU START",
        status: 5,
        text: "ztx: line 1: unknown label\n",
    },
    Case {
        words: "run",
        input: CONFLICT,
        status: 0,
        text: REPORT,
    },
    Case {
        words: "run --turns 0",
        input: CONFLICT,
        status: 4,
        text: "ztx: bad words\n",
    },
    Case {
        words: "race --turns 20",
        input: ALONE,
        status: 0,
        text: ALONE_REPORT,
    },
    Case {
        words: "race",
        input: " CP",
        status: 5,
        text: "ztx: line 1: unknown mnemonic\n",
    },
    Case {
        words: "race --seed 1",
        input: ALONE,
        status: 4,
        text: "ztx: bad words\n",
    },
    Case {
        words: "frob",
        input: "",
        status: 4,
        text: "ztx: bad words\n",
    },
    Case {
        words: "run --help",
        input: CONFLICT,
        status: 4,
        text: "ztx: bad words\n",
    },
    Case {
        words: "",
        input: "",
        status: 4,
        text: "ztx: bad words\n",
    },
    Case {
        words: "summary 0",
        input: CONFLICT,
        status: 0,
        text: "SUMMARY 0\nCPUS 4\nSTATUS 0\nTURNS 11690\nCOMMITS 274\nABORTS 394\nSUM 274\n",
    },
    Case {
        words: "deck --read",
        input: "",
        status: 5,
        text: "ztx: card 1: no END\n",
    },
    Case {
        words: "step",
        input: " CPU START\nSTART LGHI 1,5\n SVC 0\nZTX STEP\nF 9\nB 1\nH\n",
        status: 0,
        text: "AT 2 OF 2\nAT 1 OF 2\nHISTORY 1\n",
    },
    Case {
        words: "step",
        input: " CPU START\nSTART LGHI 1,5\n SVC 0\nZTX STEP\nF 9\n\nC 1\n",
        status: 5,
        text: "ztx: step line 3: bad command\n",
    },
    Case {
        words: "heat --turns 20",
        input: CONFLICT,
        status: 0,
        text: HEAT,
    },
    Case {
        words: "heat",
        input: " CP",
        status: 5,
        text: "ztx: line 1: unknown mnemonic\n",
    },
    Case {
        words: "check",
        input: ALONE_REPORTED,
        status: 0,
        text: "CHECKED 2\n",
    },
    Case {
        words: "check",
        input: " CPU START\nSTART LGHI 1,5\n SVC 0\nZTX REPORT\nSTATUS 6\n",
        status: 7,
        text: "ztx: report refused: form line 3\n",
    },
    Case {
        words: "check",
        input: " CP\nZTX REPORT\n",
        status: 5,
        text: "ztx: line 1: unknown mnemonic\n",
    },
];

/// What came of a call: its status, how many bytes were written, and whether the text begins with them.
type Told = (u8, usize, bool);

/// What came of a call with this status that has written these bytes.
fn told(status: u8, taken: &[u8], text: &str) -> Told {
    (status, taken.len(), text.as_bytes().starts_with(taken))
}

fn words_of(alloc: Global, line: &str) -> Result<Vec<String>, AllocError> {
    let mut words = Vec::new(alloc);
    for word in line.split_whitespace() {
        words.push(String::from_str(alloc, word)?)?;
    }
    Ok(words)
}

/// The words of a case, its input in pieces of 16 bytes, and a sink that takes 16 at most. The read and the write with
/// these numbers fail; 0 for none.
#[derive(Drop)]
struct Trial {
    words: Vec<String>,
    source: MemorySource,
    sink: MemorySink,
}

impl Trial {
    fn of(alloc: Global, case: Case, read: u64, write: u64) -> Result<Trial, AllocError> {
        Ok(Trial {
            words: words_of(alloc, case.words)?,
            source: MemorySource::new(
                case.input.as_bytes().to_vec(alloc)?,
                16,
                vec![in alloc; read; 1]?,
            ),
            sink: MemorySink::new(alloc, 16, vec![in alloc; write; 1]?),
        })
    }
}

#[test]
fn commands_are_answered(rt: HostRuntime) -> Result<(), Fail> {
    for case in &CASES {
        let mut trial = Trial::of(rt.alloc(), *case, 0, 0)?;
        let words = trial.words.as_slice();
        let status = ztx_top(
            &rt,
            rt.alloc(),
            words,
            &mut trial.source,
            &mut trial.sink,
            &OpenGate,
        );
        assert_eq!(rt;
            told(status, trial.sink.taken(), case.text),
            (case.status, case.text.len(), true),
            "{}",
            case.words
        );
    }
    Ok(())
}

/// A case of which each read or each write fails in turn: how many these are, and how many bytes each brings to the sink
/// where it does not fail.
#[derive(Clone, Copy)]
struct Failing {
    case: Case,
    is_read: bool,
    calls: u64,
    piece: u64,
}

static FAILING: [Failing; 4] = [
    Failing {
        case: Case {
            words: "run --turns 20",
            input: CONFLICT,
            status: 2,
            text: REPORT,
        },
        is_read: true,
        calls: 13,
        piece: 0,
    },
    Failing {
        case: Case {
            words: "run --turns 20",
            input: CONFLICT,
            status: 3,
            text: REPORT,
        },
        is_read: false,
        calls: 81,
        piece: 16,
    },
    Failing {
        case: Case {
            words: "run",
            input: "",
            status: 3,
            text: "ztx: line 0: no CPU\n",
        },
        is_read: false,
        calls: 1,
        piece: 16,
    },
    Failing {
        case: Case {
            words: "frob",
            input: "",
            status: 3,
            text: "ztx: bad words\n",
        },
        is_read: false,
        calls: 1,
        piece: 16,
    },
];

impl Failing {
    /// The case, whose read or write with this number fails.
    fn trial(self, alloc: Global, number: u64) -> Result<Trial, AllocError> {
        if self.is_read {
            return Trial::of(alloc, self.case, number, 0);
        }
        Trial::of(alloc, self.case, 0, number)
    }

    /// What has to come of it: the status, and the bytes of the calls before.
    fn due(self, number: u64) -> Told {
        let written = self.piece.saturating_mul(number.saturating_sub(1)) as usize;
        (self.case.status, written, true)
    }
}

#[test]
fn each_call_fails_in_turn(rt: HostRuntime) -> Result<(), Fail> {
    for failing in &FAILING {
        for number in 1..=failing.calls {
            let mut trial = failing.trial(rt.alloc(), number)?;
            let words = trial.words.as_slice();
            let status = ztx_top(
                &rt,
                rt.alloc(),
                words,
                &mut trial.source,
                &mut trial.sink,
                &OpenGate,
            );
            let answer = told(status, trial.sink.taken(), failing.case.text);
            assert_eq!(rt;
                answer,
                failing.due(number),
                "{} {}",
                failing.case.words,
                number
            );
        }
    }
    Ok(())
}

/// A run, over a source that gives 7 bytes at most and a sink that takes 5; they never fail.
static SURE: Case = Case {
    words: "run",
    input: CONFLICT,
    status: 0,
    text: REPORT,
};

#[test]
fn a_source_and_a_sink_that_never_fail(rt: HostRuntime) -> Result<(), Fail> {
    let words = words_of(rt.alloc(), SURE.words)?;
    let mut source = SureSource::new(SURE.input.as_bytes().to_vec(rt.alloc())?, 7);
    let mut sink = SureSink::new(rt.alloc(), 5);
    let status = sure_top(
        &rt,
        rt.alloc(),
        words.as_slice(),
        &mut source,
        &mut sink,
        &OpenGate,
    );
    assert_eq!(rt;
        told(status, sink.taken(), SURE.text),
        (0, REPORT.len(), true)
    );
    Ok(())
}
