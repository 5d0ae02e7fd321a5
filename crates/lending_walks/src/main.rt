//! Random walks of machines that lend their CPUs; and loans, for somebody who looks at a clock.
//!
//! Each walk has two machines of one listing. In the first one CPUs have turns, are lent, make steps away, and come home, as
//! drawn numbers say. In the second one the same turns are made one after the other, and nobody is lent. Both have to show the
//! same, and what comes of a run has to be what a plain comparison with the second machine says. The program writes how many
//! walks there were, how many of them were wrong, and which answers were met in some of them.
//!
//! Without words each listing has a hundred walks; `walks N` makes it N. `times LINES STEPS COUNT` makes loans in their place.
#![tactic(auto)]

mod loans;
mod machines;
mod plain;
mod walk;
mod words;

use anyhow::{Context, Result};
use machines::{image_of, open};
use std::alloc::Global;
use std::io;
use std::rt::Env;
use std::sync::Arc;
use tx_journal::Image;
use tx_machine::Machine;
use tx_meaning::Limits;
use walk::{Met, make_walk};
use words::{Task, task_of};
use ztx_io::{WriterSink, write_all};

/// Counters in one line, with and without transactions, and a loop beside them.
const COUNTERS: &str = " CPU GO
 CPU GO
 CPU ON
GO TBEGINC 0,X'FF00'
 LG 1,X'9000'
 AGHI 1,1
 STG 1,X'9000'
 TEND
 LG 3,X'9100'
 AGHI 3,7
 STG 3,X'9000'
 J GO
ON LG 1,X'9000'
 AGHI 2,3
 STG 2,X'9108'
 AGHI 4,1
 J ON
";

/// Transactions that store into two lines and are aborted in their midst, and a CPU that stores into these.
const NESTED: &str = " CPU GO
 CPU ST
GO TBEGIN 0,X'FF00'
 JNZ GO
 LG 1,X'9000'
 STG 1,X'9200'
 AGHI 1,5
 STG 1,X'9208'
 AGHI 6,1
 TEND
 J GO
ST STG 5,X'9208'
 AGHI 5,1
 LG 7,X'9200'
 STG 7,X'A300'
 AGHI 7,1
 AGHI 8,1
 J ST
";

/// CPUs on lines of their own, one of which comes to its end, and one that is stopped by an exception.
const APART: &str = " CPU AA
 CPU BB
 CPU CC
AA LGHI 2,9
AL LG 1,X'9000'
 AGHI 1,1
 STG 1,X'9000'
 BRCTG 2,AL
 SVC 0
BB LG 1,X'9100'
 AGHI 1,2
 STG 1,X'9100'
 J BB
CC AGHI 1,1
 STG 1,X'9200'
 AGHI 1,1
 LG 3,0(2)
";

/// The machine of an image, with few turns and some ticks.
fn open_short(alloc: Global, image: &Arc<Image>) -> Result<Machine> {
    let limits = Limits {
        turns: 90,
        tick: 31,
        externals: 0,
    };
    open(alloc, image, limits)
}

/// One walk of a machine that lends, by a number, beside one that does not. Whether all was right.
fn go_beside(
    alloc: Global,
    image: &Arc<Image>,
    number: u32,
    lending: &mut Machine,
    met: &mut Met,
) -> Result<bool> {
    let mut plain = open_short(alloc, image)?;
    Ok(make_walk(alloc, lending, &mut plain, u64::from(number), met)?)
}

/// One walk by a number. Whether all was right.
fn go(alloc: Global, image: &Arc<Image>, number: u32, met: &mut Met) -> Result<bool> {
    let mut lending = open_short(alloc, image)?;
    go_beside(alloc, image, number, &mut lending, met)
}

/// So many walks of a listing: how many were wrong.
fn walk_all(alloc: Global, listing: &str, walks: u32, met: &mut Met) -> Result<u64> {
    let image = image_of(alloc, listing)?;
    let mut wrong = 0u64;
    for number in 0..walks {
        if !go(alloc, &image, number, met)? {
            wrong = wrong.saturating_add(1);
        }
    }
    Ok(wrong)
}

/// Makes so many walks of each listing, and adds what came of them.
fn add_walks(text: &mut String, alloc: Global, walks: u32) -> Result<()> {
    let mut met = Met::nothing();
    let mut wrong = 0u64;
    for listing in [COUNTERS, NESTED, APART] {
        wrong = wrong.saturating_add(walk_all(alloc, listing, walks, &mut met)?);
    }
    writeln!(text, "{} walks, {wrong} wrong", 3 * u64::from(walks))?;
    met.add(text)?;
    Ok(())
}

/// Does what the words of the command line say, and adds what came of it.
fn add_answer(text: &mut String, rt: &(impl Env + AllocGlobal)) -> Result<()> {
    let mut words = Vec::new(rt.alloc());
    for word in std::env::args(rt)? {
        words.push(word)?;
    }
    match task_of(words.as_slice()).context("bad words")? {
        Task::Walk(walks) => add_walks(text, rt.alloc(), walks),
        Task::Lend(loans) => loans.add(text, rt.alloc()),
    }
}

fn main(rt: HostRuntime) -> Result<()> {
    let mut text = String::new(rt.alloc());
    add_answer(&mut text, &rt)?;
    let mut sink = WriterSink::new(io::writer(&rt));
    write_all(&mut sink, text.as_bytes())?;
    Ok(())
}
