//! What commands show.
ghost use Rattle.std.specs.Prelude.{◌≡◌, ◌++◌, ◌<◌, All, IfOk, OnOk, length};
ghost use Rattle.report_text.specs.Storage.{bytes_text};
ghost use Rattle.step_text.specs.Replies.{position_line, cpu_lines, shared_bytes, history_line, reply_at};
ghost use Rattle.step_text.specs.Replies.{replies_from};
ghost use Rattle.step_words.specs.Commands.{AreBytes, IsKnown};

use crate::bytes::TraceBytes;
use crate::moving::follow;
use report_text::{
    Attempt, add_bytes_text, add_image, add_labelled, add_number_line, add_progress,
};
use std::alloc::{AllocError, Global};
use step_words::StepCommand;
use tx_step::Trace;

/// Adds the line of where a run stands.
#[tactic(auto, unfolding(crate::specs::Replies::position_line))]
fn add_position(text: &mut Vec<u8>, trace: &Trace) -> Result<(), AllocError>
    ensures { OnOk result (text.new.items ≡ text.old.items ++ position_line trace.now) }
{
    add_labelled(text, b"AT ", trace.position())?;
    add_number_line(text, b" OF ", trace.length())
}

/// Adds what a CPU holds, and what it has under way.
#[tactic(auto, unfolding(crate::specs::Replies::cpu_lines))]
fn add_cpu(text: &mut Vec<u8>, trace: &Trace, cpu: u32) -> Result<(), AllocError>
    requires { cpu < length trace.now.image.cpus }
    ensures { OnOk result (text.new.items ≡ text.old.items ++ cpu_lines trace.now cpu) }
{
    let attempt = trace
        .live(cpu)
        .map(|(depth, completed)| Attempt { depth, completed });
    add_image(text, u64::from(cpu), trace.cpu(cpu))?;
    add_progress(text, attempt, trace.pending(cpu))
}

/// Adds bytes of storage.
fn add_bytes(text: &mut Vec<u8>, trace: &Trace, first: u32, count: u32) -> Result<(), AllocError>
    requires { AreBytes first count }
    ensures { OnOk result (text.new.items ≡ text.old.items ++ bytes_text (shared_bytes trace.now) first count) }
{
    add_bytes_text(text, &TraceBytes { trace }, first, count)
}

/// Adds how many entries the history has.
#[tactic(auto, unfolding(crate::specs::Replies::history_line))]
fn add_history(text: &mut Vec<u8>, trace: &Trace) -> Result<(), AllocError>
    ensures { OnOk result (text.new.items ≡ text.old.items ++ history_line trace.now) }
{
    add_number_line(text, b"HISTORY ", trace.entries())
}

/// Adds what a command shows of a run that stands where it leads.
fn add_reply(text: &mut Vec<u8>, trace: &Trace, command: StepCommand) -> Result<(), AllocError>
    requires { IsKnown (length trace.now.image.cpus) command }
    ensures { OnOk result (text.new.items ≡ text.old.items ++ reply_at command trace.now) }
{
    match command {
        StepCommand::Forward(_) | StepCommand::Back(_) | StepCommand::Go(_) => add_position(
            text, trace,
        ),
        StepCommand::Cpu(cpu) => add_cpu(text, trace, cpu),
        StepCommand::Bytes { first, count } => add_bytes(text, trace, first, count),
        StepCommand::History => add_history(text, trace),
    }
}

/// What commands show of a run, one after the other, each where the ones before it have led. The CPUs that they name
/// are there, and their bytes can be looked at. The error is want of memory.
pub fn replies(
    alloc: Global,
    trace: &mut Trace,
    commands: &[StepCommand],
) -> Result<Vec<u8>, AllocError>
    requires { All (IsKnown (length trace.old.image.cpus)) commands.now }
    ensures { IfOk result (λ text. text.items ≡ replies_from trace.old commands.now) }
{
    let mut text = Vec::new(alloc);
    for command in commands {
        follow(trace, *command);
        add_reply(&mut text, trace, *command)?;
    }
    Ok(text)
}
