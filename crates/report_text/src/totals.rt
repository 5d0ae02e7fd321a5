//! The short summary of a run.
ghost use Rattle.std.specs.Prelude.{◌≡◌, ◌++◌, ◌<◌, ◌≤◌, ◌^◌, OnOk, IfOk, length, map, sum, sum_by};
ghost use Rattle.report_text.specs.Shown.{shown_cpu};
ghost use Rattle.report_text.specs.Summary.{summary_head, totals_lines, sum_line, summary_text};

use crate::Processor;
use crate::digits::add_number_line;
use crate::whole::status;
use std::alloc::{AllocError, Global};
use tx_journal::NoMemory;

/// The bytes of a summary, with all numbers at their longest.
const ROOM: usize = 180;

/// Sums over CPUs.
#[derive(Clone, Copy)]
struct Totals {
    turns: u64,
    commits: u64,
    aborts: u64,
}

/// A count of one CPU, as a summand.
fn widened(count: u32) -> u64
    ensures value { result ≡ count }
    ensures small { result < 2 ^ 32 }
{
    u64::from(count)
}

/// The counts of all CPUs, added up.
fn add_up(cpus: &[Processor]) -> Totals
    requires { length cpus.now ≤ 16 }
    ensures turns { result.turns ≡ sum_by (λ c. c.counts.turns) (map shown_cpu cpus.now) }
    ensures commits { result.commits ≡ sum_by (λ c. c.counts.commits) (map shown_cpu cpus.now) }
    ensures aborts { result.aborts ≡ sum_by (λ c. c.counts.aborts) (map shown_cpu cpus.now) }
{
    let mut turns = 0;
    let mut commits = 0;
    let mut aborts = 0;
    for cpu in cpus {
        turns += widened(cpu.counts.turns);
        commits += widened(cpu.counts.commits);
        aborts += widened(cpu.counts.aborts);
    }
    Totals {
        turns,
        commits,
        aborts,
    }
}

/// The sum of the counters.
fn sum_of(counters: &[u64; 4]) -> u128
    ensures { result ≡ sum counters.now }
{
    let mut total: u128 = 0;
    for counter in counters {
        total += u128::from(*counter);
    }
    total
}

/// Adds the line of the counters.
fn add_sum(text: &mut Vec<u8>, counters: &[u64; 4]) -> Result<(), AllocError>
    ensures { OnOk result (text.new.items ≡ text.old.items ++ sum_line counters.now) }
{
    let mut digits = itoa::Buffer::new();
    text.extend_from_slice(b"SUM ")?;
    text.extend_from_slice(digits.format(sum_of(counters)).as_bytes())?;
    text.extend_from_slice(b"\n")
}

/// Adds the lines of what was run, and of how it ended.
#[tactic(auto, unfolding(crate::specs::Summary::summary_head))]
fn add_summary_head(text: &mut Vec<u8>, number: u64, cpus: &[Processor]) -> Result<(), AllocError>
    ensures { OnOk result (text.new.items ≡ text.old.items ++ summary_head number (map shown_cpu cpus.now)) }
{
    add_number_line(text, b"SUMMARY ", number)?;
    add_number_line(text, b"CPUS ", cpus.len() as u64)?;
    add_number_line(text, b"STATUS ", u64::from(status(cpus)))
}

/// Adds the lines of the sums over the CPUs.
#[tactic(auto, unfolding(crate::specs::Summary::totals_lines))]
fn add_totals(text: &mut Vec<u8>, cpus: &[Processor]) -> Result<(), AllocError>
    requires { length cpus.now ≤ 16 }
    ensures { OnOk result (text.new.items ≡ text.old.items ++ totals_lines (map shown_cpu cpus.now)) }
{
    let totals = add_up(cpus);
    add_number_line(text, b"TURNS ", totals.turns)?;
    add_number_line(text, b"COMMITS ", totals.commits)?;
    add_number_line(text, b"ABORTS ", totals.aborts)
}

/// Adds the whole summary.
#[tactic(auto, unfolding(crate::specs::Summary::summary_text))]
fn add_summary(
    text: &mut Vec<u8>,
    number: u64,
    cpus: &[Processor],
    counters: &[u64; 4],
) -> Result<(), AllocError>
    requires { length cpus.now ≤ 16 }
    ensures { OnOk result (text.new.items
        ≡ text.old.items ++ summary_text number (map shown_cpu cpus.now) counters.now) }
{
    text.try_reserve(ROOM)?;
    add_summary_head(text, number, cpus)?;
    add_totals(text, cpus)?;
    add_sum(text, counters)
}

/// The short summary of a run of the generator's listing for a number: how many CPUs there are, the status,
/// what has been counted of all of them, and the sum of the counters. `NoMemory` comes for want of memory.
pub fn summary(
    alloc: Global,
    number: u64,
    cpus: &[Processor],
    counters: &[u64; 4],
) -> Result<Vec<u8>, NoMemory>
    requires { length cpus.now ≤ 16 }
    ensures { IfOk result (λ text. text.items ≡ summary_text number (map shown_cpu cpus.now) counters.now) }
{
    let mut text = Vec::new(alloc);
    add_summary(&mut text, number, cpus, counters)?;
    Ok(text)
}
