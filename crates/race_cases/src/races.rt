//! Races of listings: that threads overlap, that each CPU gets its turns, and that all races end. That `run` on the
//! printed schedule gives the same report is tried through the built program, by examples/check.

use std::alloc::Global;
use std::hint;
use std::sync::Arc;
use std::sync::atomic::{AtomicBool, Ordering};
use std::test::Fail;
use tx_journal::{Entry, Image};
use tx_meaning::Limits;
use tx_race::{Gate, Machine, OpenGate, Raced, race};
use z_assemble::assemble;

/// Each CPU adds one to the same doubleword, so many times as its second register says.
const COUNTER: &str = "LOOP TBEGINC 0,X'FF00'
 LG 1,X'9000'
 AGHI 1,1
 STG 1,X'9000'
 TEND
 BRCTG 2,LOOP
 SVC 0
";

/// The most turns that there are, without ticks and interruptions from outside.
const LIMITS: Limits = Limits {
    turns: 200_000,
    tick: 0,
    externals: 0,
};

/// Turns for a short race.
const FEW: Limits = Limits {
    turns: 400,
    tick: 0,
    externals: 0,
};

/// How often a worker looks for the other one.
const LOOKS: u32 = 50_000_000;

/// Two workers that look for one another, each at its first pass.
#[derive(Drop)]
struct Meeting {
    came: [AtomicBool; 2],
    met: [AtomicBool; 2],
}

impl Meeting {
    fn new() -> Meeting {
        Meeting {
            came: [AtomicBool::new(false), AtomicBool::new(false)],
            met: [AtomicBool::new(false), AtomicBool::new(false)],
        }
    }
}

/// Whether the flag is seen up within the looks.
fn is_seen(flag: &AtomicBool) -> bool {
    for _ in 0..LOOKS {
        if flag.load(Ordering::SeqCst) {
            return true;
        }
        hint::spin_loop();
    }
    false
}

impl Gate for Meeting {
    fn pass(&self, cpu: u32) {
        let (mine, other) = match cpu {
            0 => (0, 1),
            1 => (1, 0),
            _ => return,
        };
        if !self.came[mine].swap(true, Ordering::SeqCst) {
            let seen = is_seen(&self.came[other]);
            self.met[mine].store(seen, Ordering::SeqCst);
        }
    }
}

/// A listing on which so many CPUs count, as often as its line says that loads their second register.
fn text_of(alloc: Global, cpus: u32, load: &str) -> Result<String, Fail> {
    let mut text = String::new(alloc);
    for _ in 0..cpus {
        text.push_str(" CPU GO\n")?;
    }
    text.push_str(load)?;
    text.push_str(COUNTER)?;
    Ok(text)
}

/// Its image.
fn image_of(alloc: Global, cpus: u32, load: &str) -> Result<Image, Fail> {
    let text = text_of(alloc, cpus, load)?;
    Ok(assemble(alloc, text.as_bytes())?)
}

/// How often the CPU has committed.
fn commits_of(history: &[Entry], cpu: u32) -> u64 {
    history
        .iter()
        .filter(|entry| matches!(entry, Entry::Commit(other, _) if *other == cpu))
        .count() as u64
}

/// The count in storage.
fn count_in(machine: &Machine) -> u64 {
    let mut count = 0u64;
    for address in 0x9000..0x9008u32 {
        count = (count << 8) | u64::from(machine.byte(address));
    }
    count
}

/// Whether each of so many CPUs has counted so many times, some turns were made by workers, each CPU's first ones away from
/// the machine, and all that were made are recorded.
fn is_right(raced: Raced, cpus: u32, times: u64) -> bool {
    let machine = &raced.machine;
    for cpu in 0..cpus {
        if commits_of(machine.journal(), cpu) != times {
            return false;
        }
    }
    count_in(machine) == times.saturating_mul(u64::from(cpus))
        && raced.worked.saturating_add(raced.finished) == machine.events().len() as u64
        && raced.worked > 0
        && raced.homed >= u64::from(cpus)
        && raced.homed <= raced.worked
}

#[test]
fn both_pass(rt: HostRuntime) -> Result<(), Fail> {
    let gate = Meeting::new();
    let image = Arc::new(rt.alloc(), image_of(rt.alloc(), 2, "GO LGHI 2,100\n")?)?;
    let machine = Machine::open(rt.alloc(), image, LIMITS)
        .ok()
        .ok_or("no memory")?;
    let raced = race(&rt, rt.alloc(), machine, &gate)
        .ok()
        .ok_or("no memory")?;
    let right = is_right(raced, 2, 100);
    let met = gate.met[0].load(Ordering::SeqCst) && gate.met[1].load(Ordering::SeqCst);
    assert!(rt; met && right);
    Ok(())
}

/// CPUs that count, and how often each: the line that says so, and the number.
struct Case {
    cpus: u32,
    load: &'static str,
    times: u64,
}

static CASES: [Case; 2] = [
    Case {
        cpus: 4,
        load: "GO LGHI 2,100\n",
        times: 100,
    },
    Case {
        cpus: 16,
        load: "GO LGHI 2,20\n",
        times: 20,
    },
];

#[test]
fn all_cpus_count(rt: HostRuntime) -> Result<(), Fail> {
    let mut right = 0u32;
    for case in &CASES {
        let image = Arc::new(rt.alloc(), image_of(rt.alloc(), case.cpus, case.load)?)?;
        let machine = Machine::open(rt.alloc(), image, LIMITS)
            .ok()
            .ok_or("no memory")?;
        let raced = race(&rt, rt.alloc(), machine, &OpenGate)
            .ok()
            .ok_or("no memory")?;
        if is_right(raced, case.cpus, case.times) {
            right = right.saturating_add(1);
        }
    }
    assert_eq!(rt; right, 2);
    Ok(())
}

#[test]
fn a_thousand_races_end(rt: HostRuntime) -> Result<(), Fail> {
    let mut right = 0u32;
    for _ in 0..1000 {
        let image = Arc::new(rt.alloc(), image_of(rt.alloc(), 2, "GO LGHI 2,3\n")?)?;
        let machine = Machine::open(rt.alloc(), image, FEW)
            .ok()
            .ok_or("no memory")?;
        let raced = race(&rt, rt.alloc(), machine, &OpenGate)
            .ok()
            .ok_or("no memory")?;
        if is_right(raced, 2, 3) {
            right = right.saturating_add(1);
        }
    }
    assert_eq!(rt; right, 1000);
    Ok(())
}

/// Three instructions that may be made away from the machine, and one that may not.
const SHORT: &str = " CPU START
START LGHI 1,5
 LGHI 2,7
 AGR 1,2
 SVC 0
";

/// The turns of a race: those of the workers, those among them that were brought home, and the rest.
fn turns_in(raced: Raced) -> [u64; 3] {
    [raced.worked, raced.homed, raced.finished]
}

#[test]
fn a_cpu_is_lent_until_its_call(rt: HostRuntime) -> Result<(), Fail> {
    let image = Arc::new(rt.alloc(), assemble(rt.alloc(), SHORT.as_bytes())?)?;
    let machine = Machine::open(rt.alloc(), image, LIMITS)
        .ok()
        .ok_or("no memory")?;
    let raced = race(&rt, rt.alloc(), machine, &OpenGate)
        .ok()
        .ok_or("no memory")?;
    assert!(rt; turns_in(raced) == [4, 3, 0]);
    Ok(())
}
