//! The lines of a CPU.
ghost use Rattle.std.specs.Prelude.{◌≡◌, ◌++◌, OnOk};
ghost use Rattle.z_regs.specs.Cpu.{cpu_of};
ghost use Rattle.report_text.specs.Shown.{shown_cpu};
ghost use Rattle.report_text.specs.Processor.{state_text, state_line, psw_line, general_text, access_text};
ghost use Rattle.report_text.specs.Processor.{general_line, access_line, general_lines, access_lines};
ghost use Rattle.report_text.specs.Processor.{interrupted_text, live_line, attempt_line, pending_line};
ghost use Rattle.report_text.specs.Processor.{counts_line};
ghost use Rattle.report_text.specs.Processor.{image_lines, progress_lines, cpu_lines};

use crate::digits::{add_digit, add_doubleword, add_halfword, add_labelled, add_number, add_word};
use crate::{Attempt, Counts, Processor};
use std::alloc::AllocError;
use z_regs::{CpuImage, RunState};

/// Adds that the CPU is interrupted, and the code.
#[tactic(auto, unfolding(crate::specs::Processor::interrupted_text))]
fn add_interrupted(text: &mut Vec<u8>, code: u16) -> Result<(), AllocError>
    ensures { OnOk result (text.new.items ≡ text.old.items ++ interrupted_text code) }
{
    text.extend_from_slice(b"INTERRUPTED ")?;
    add_halfword(text, code)
}

/// Adds what the CPU does.
#[tactic(auto, unfolding(crate::specs::Processor::state_text))]
fn add_state(text: &mut Vec<u8>, state: RunState) -> Result<(), AllocError>
    ensures { OnOk result (text.new.items ≡ text.old.items ++ state_text state) }
{
    match state {
        RunState::Running => text.extend_from_slice(b"RUNNING"),
        RunState::Halted => text.extend_from_slice(b"HALTED"),
        RunState::Interrupted(code) => add_interrupted(text, code),
    }
}

/// Adds the first line of a CPU.
#[tactic(auto, unfolding(crate::specs::Processor::state_line))]
fn add_state_line(text: &mut Vec<u8>, number: u64, state: RunState) -> Result<(), AllocError>
    ensures { OnOk result (text.new.items ≡ text.old.items ++ state_line number state) }
{
    text.extend_from_slice(b"CPU ")?;
    add_number(text, number)?;
    text.extend_from_slice(b" ")?;
    add_state(text, state)?;
    text.extend_from_slice(b"\n")
}

/// Adds the address, the condition code and the program mask.
#[tactic(auto, unfolding(crate::specs::Processor::psw_line))]
fn add_psw(text: &mut Vec<u8>, image: &CpuImage) -> Result<(), AllocError>
    ensures { OnOk result (text.new.items ≡ text.old.items ++ psw_line (cpu_of image.now)) }
{
    text.extend_from_slice(b"PSW ")?;
    add_doubleword(text, image.address)?;
    text.extend_from_slice(b" CC ")?;
    add_number(text, u64::from(image.condition))?;
    text.extend_from_slice(b" MASK ")?;
    add_digit(text, image.mask)?;
    text.extend_from_slice(b"\n")
}

/// Adds general registers, each behind a blank.
fn add_general(text: &mut Vec<u8>, values: &[u64]) -> Result<(), AllocError>
    ensures { OnOk result (text.new.items ≡ text.old.items ++ general_text values.now) }
{
    for value in values {
        text.extend_from_slice(b" ")?;
        add_doubleword(text, *value)?;
    }
    Ok(())
}

/// Adds access registers, each behind a blank.
fn add_access(text: &mut Vec<u8>, values: &[u32]) -> Result<(), AllocError>
    ensures { OnOk result (text.new.items ≡ text.old.items ++ access_text values.now) }
{
    for value in values {
        text.extend_from_slice(b" ")?;
        add_word(text, *value)?;
    }
    Ok(())
}

/// Adds a line of general registers.
#[tactic(auto, unfolding(crate::specs::Processor::general_line))]
fn add_general_line(text: &mut Vec<u8>, label: &[u8], values: &[u64]) -> Result<(), AllocError>
    ensures { OnOk result (text.new.items ≡ text.old.items ++ general_line label.now values.now) }
{
    text.extend_from_slice(label)?;
    add_general(text, values)?;
    text.extend_from_slice(b"\n")
}

/// Adds a line of access registers.
#[tactic(auto, unfolding(crate::specs::Processor::access_line))]
fn add_access_line(text: &mut Vec<u8>, label: &[u8], values: &[u32]) -> Result<(), AllocError>
    ensures { OnOk result (text.new.items ≡ text.old.items ++ access_line label.now values.now) }
{
    text.extend_from_slice(label)?;
    add_access(text, values)?;
    text.extend_from_slice(b"\n")
}

/// Adds the lines of the general registers.
#[tactic(auto, unfolding(crate::specs::Processor::general_lines))]
fn add_general_lines(text: &mut Vec<u8>, general: &[u64; 16]) -> Result<(), AllocError>
    ensures { OnOk result (text.new.items ≡ text.old.items ++ general_lines general.now) }
{
    add_general_line(text, b"GR 00", &general[..4])?;
    add_general_line(text, b"GR 04", &general[4..8])?;
    add_general_line(text, b"GR 08", &general[8..12])?;
    add_general_line(text, b"GR 12", &general[12..])
}

/// Adds the lines of the access registers.
#[tactic(auto, unfolding(crate::specs::Processor::access_lines))]
fn add_access_lines(text: &mut Vec<u8>, access: &[u32; 16]) -> Result<(), AllocError>
    ensures { OnOk result (text.new.items ≡ text.old.items ++ access_lines access.now) }
{
    add_access_line(text, b"AR 00", &access[..8])?;
    add_access_line(text, b"AR 08", &access[8..])
}

/// Adds the registers and the state of a CPU.
#[tactic(auto, unfolding(crate::specs::Processor::image_lines))]
pub fn add_image(text: &mut Vec<u8>, number: u64, image: &CpuImage) -> Result<(), AllocError>
    ensures { OnOk result (text.new.items ≡ text.old.items ++ image_lines number (cpu_of image.now)) }
{
    add_state_line(text, number, image.state)?;
    add_psw(text, image)?;
    add_general_lines(text, &image.general)?;
    add_access_lines(text, &image.access)
}

/// Adds the line of an attempt that is live.
#[tactic(auto, unfolding(crate::specs::Processor::live_line))]
fn add_live(text: &mut Vec<u8>, attempt: Attempt) -> Result<(), AllocError>
    ensures { OnOk result (text.new.items ≡ text.old.items ++ live_line attempt) }
{
    add_labelled(text, b"TX DEPTH ", u64::from(attempt.depth))?;
    add_labelled(text, b" COMPLETED ", u64::from(attempt.completed))?;
    text.extend_from_slice(b"\n")
}

/// Adds the line of the live attempt, or that there is none.
#[tactic(auto, unfolding(crate::specs::Processor::attempt_line))]
fn add_attempt(text: &mut Vec<u8>, attempt: Option<Attempt>) -> Result<(), AllocError>
    ensures { OnOk result (text.new.items ≡ text.old.items ++ attempt_line attempt) }
{
    match attempt {
        None => text.extend_from_slice(b"TX NONE\n"),
        Some(attempt) => add_live(text, attempt),
    }
}

/// Adds the line of the block that is still to be stored.
#[tactic(auto, unfolding(crate::specs::Processor::pending_line))]
fn add_pending(text: &mut Vec<u8>, pending: Option<u64>) -> Result<(), AllocError>
    ensures { OnOk result (text.new.items ≡ text.old.items ++ pending_line pending) }
{
    match pending {
        None => text.extend_from_slice(b"PENDING NONE\n"),
        Some(address) => {
            text.extend_from_slice(b"PENDING ")?;
            add_doubleword(text, address)?;
            text.extend_from_slice(b"\n")
        }
    }
}

/// Adds the line of the counts.
#[tactic(auto, unfolding(crate::specs::Processor::counts_line))]
fn add_counts(text: &mut Vec<u8>, counts: Counts) -> Result<(), AllocError>
    ensures { OnOk result (text.new.items ≡ text.old.items ++ counts_line counts) }
{
    add_labelled(text, b"COUNTS TURNS ", u64::from(counts.turns))?;
    add_labelled(text, b" ASKED ", counts.asked)?;
    add_labelled(text, b" REJECTED ", counts.rejected)?;
    add_labelled(text, b" COMMITS ", u64::from(counts.commits))?;
    add_labelled(text, b" ABORTS ", u64::from(counts.aborts))?;
    text.extend_from_slice(b"\n")
}

/// Adds what a CPU has under way.
#[tactic(auto, unfolding(crate::specs::Processor::progress_lines))]
pub fn add_progress(
    text: &mut Vec<u8>,
    attempt: Option<Attempt>,
    pending: Option<u64>,
) -> Result<(), AllocError>
    ensures { OnOk result (text.new.items ≡ text.old.items ++ progress_lines attempt pending) }
{
    add_attempt(text, attempt)?;
    add_pending(text, pending)
}

/// Adds all lines of the CPU with this number.
#[tactic(auto, unfolding(crate::specs::Processor::cpu_lines))]
pub fn add_cpu(text: &mut Vec<u8>, number: u64, cpu: &Processor) -> Result<(), AllocError>
    ensures { OnOk result (text.new.items ≡ text.old.items ++ cpu_lines number (shown_cpu cpu.now)) }
{
    add_image(text, number, &cpu.image)?;
    add_progress(text, cpu.attempt, cpu.pending)?;
    add_counts(text, cpu.counts)
}
