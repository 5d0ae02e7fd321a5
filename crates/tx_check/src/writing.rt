//! The state in a report: the status, the CPUs, and what is shown of storage.
ghost use Rattle.std.specs.Prelude.{◌≡◌, ◌++◌, All, OnOk, length, map};
ghost use Rattle.z_regs.specs.Prefix.{storage_size};
ghost use Rattle.tx_journal.specs.Image.{IsShown};
ghost use Rattle.report_text.specs.Processor.{counts_line, cpu_lines, cpus_text};
ghost use Rattle.report_text.specs.Report.{status_of, head_lines, state_part};
ghost use Rattle.tx_check.specs.Claims.{counts_of};
ghost use Rattle.tx_check.specs.Seen.{shown_seen};

use crate::claims::Tally;
use report_text::{
    Attempt, SharedBytes, add_image, add_labelled, add_number_line, add_progress, add_shows,
};
use std::alloc::AllocError;
use tx_journal::Show;
use z_regs::CpuImage;

/// A CPU as a report tells of it.
#[derive(Clone, Copy)]
pub(crate) struct Seen {
    /// Its registers and its state.
    pub image: CpuImage,
    /// Its live attempt.
    pub attempt: Option<Attempt>,
    /// The real address of the block that it has still to store.
    pub pending: Option<u64>,
    /// What has been counted.
    pub counts: Tally,
    /// Whether it is finished.
    pub finished: bool,
}

/// Adds the line of the counts.
#[tactic(auto, unfolding(report_text::specs::Processor::counts_line))]
fn add_counts(text: &mut Vec<u8>, counts: Tally) -> Result<(), AllocError>
    ensures { OnOk result (text.new.items ≡ text.old.items ++ counts_line (counts_of counts)) }
{
    add_labelled(text, b"COUNTS TURNS ", counts.turns)?;
    add_labelled(text, b" ASKED ", counts.asked)?;
    add_labelled(text, b" REJECTED ", counts.rejected)?;
    add_labelled(text, b" COMMITS ", counts.commits)?;
    add_labelled(text, b" ABORTS ", counts.aborts)?;
    text.extend_from_slice(b"\n")
}

/// Adds the lines of the CPU with this number.
#[tactic(auto, unfolding(report_text::specs::Processor::cpu_lines))]
fn add_cpu(text: &mut Vec<u8>, number: u64, cpu: &Seen) -> Result<(), AllocError>
    ensures { OnOk result (text.new.items ≡ text.old.items ++ cpu_lines number (shown_seen cpu.now)) }
{
    add_image(text, number, &cpu.image)?;
    add_progress(text, cpu.attempt, cpu.pending)?;
    add_counts(text, cpu.counts)
}

/// Adds the lines of the CPUs.
fn add_cpus(text: &mut Vec<u8>, cpus: &[Seen]) -> Result<(), AllocError>
    ensures { OnOk result (text.new.items ≡ text.old.items ++ cpus_text (map shown_seen cpus.now)) }
{
    for (number, cpu) in cpus.iter().enumerate() {
        add_cpu(text, number as u64, cpu)?;
    }
    Ok(())
}

/// The status: 0 where every CPU is finished, else 6.
fn status(cpus: &[Seen]) -> u64
    ensures { result ≡ status_of (map shown_seen cpus.now) }
{
    for cpu in cpus {
        if !cpu.finished {
            return 6;
        }
    }
    0
}

/// Adds the first two lines.
#[tactic(auto, unfolding(report_text::specs::Report::head_lines))]
fn add_head(text: &mut Vec<u8>, status: u64) -> Result<(), AllocError>
    ensures { OnOk result (text.new.items ≡ text.old.items ++ head_lines status) }
{
    text.extend_from_slice(b"ZTX REPORT\n")?;
    add_number_line(text, b"STATUS ", status)
}

/// Adds the state.
#[tactic(auto, unfolding(report_text::specs::Report::state_part))]
pub(crate) fn add_state<S: SharedBytes>(
    text: &mut Vec<u8>,
    cpus: &[Seen],
    shows: &[Show],
    storage: &S,
) -> Result<(), AllocError>
    requires size { length (S.bytes storage.now) ≡ storage_size }
    requires shown { All IsShown shows.now }
    ensures { OnOk result (text.new.items
        ≡ text.old.items ++ state_part (map shown_seen cpus.now) shows.now (S.bytes storage.now)) }
{
    add_head(text, status(cpus))?;
    add_cpus(text, cpus)?;
    add_shows(text, storage, shows)
}
