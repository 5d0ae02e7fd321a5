//! What is due to a listing with commands that look at its run.
ghost use Rattle.std.specs.Prelude.{◌≡◌, ◌≤◌, ℕ, All, List, IfOk, length};
ghost use Rattle.step_text.specs.Replies.{replies_from};
ghost use Rattle.step_words.specs.Commands.{AreCommands, IsKnown};
ghost use Rattle.step_words.specs.Words as words;
ghost use Rattle.run_answers.specs.Machine.{setting_of};
ghost use Rattle.run_answers.specs.Report.{status_of};
ghost use Rattle.step_text.specs.Traces.{at_start};
ghost use Rattle.z_assemble.specs.Whole.{Stands};
ghost use Rattle.listing_answers.specs.Due.{IsStatus};
ghost use Rattle.run_answers.specs.Runs.{AreLimits};
ghost use Rattle.ztx_answers.specs.Steps.{AreReplies, IsDueToParts, IsDueToStep};

use input_parts::part;
use listing_answers::{Answer, NoMemory, refuse};
use run_answers::{Machine, open, run_planned, status};
use std::alloc::Global;
use step_text::{Trace, replies};
use step_words::{CommandFault, StepCommand, fault_line, read_commands};
use tx_journal::Image;
use z_assemble::assemble;

/// The line between a listing and the commands.
const STEP_MARK: &[u8] = b"ZTX STEP";

/// The line of a line that is no command.
fn refuse_command(alloc: Global, number: u64) -> Result<Answer, NoMemory>
    ensures status { IfOk result (λ answer. answer.status ≡ 5) }
    ensures text { IfOk result (λ answer. answer.text.items ≡ words.fault_line number) }
{
    let line = fault_line(alloc, number)?;
    Ok(Answer {
        status: 5,
        text: line.into_bytes(),
    })
}

/// The run of a machine, from its start.
fn trace_of(alloc: Global, machine: &Machine) -> Result<Trace, NoMemory>
    ensures { IfOk result (λ trace.
        trace ≡ at_start machine.now.image machine.now.limits machine.now.events) }
{
    let image = machine.shared_image()?;
    let _left = machine.externals_left();
    Trace::open(alloc, image, machine.limits(), machine.events())
}

/// What commands show of the run that a machine has made, with the status of that.
fn replies_of(
    alloc: Global,
    machine: &Machine,
    commands: &[StepCommand],
) -> Result<Answer, NoMemory>
    requires known { All (IsKnown (length machine.now.image.cpus)) commands.now }
    ensures status { IfOk result (λ answer.
        answer.status ≡ status_of (setting_of machine.now) machine.now.events) }
    ensures text { IfOk result (λ answer. answer.text.items
        ≡ replies_from (at_start machine.now.image machine.now.limits machine.now.events) commands.now) }
{
    let mut trace = trace_of(alloc, machine)?;
    let text = replies(alloc, &mut trace, commands)?;
    Ok(Answer {
        status: status(machine),
        text,
    })
}

/// What commands show of the run of an image.
fn reply_to(
    alloc: Global,
    image: Image,
    turns: u32,
    tick: u32,
    seed: Option<u64>,
    commands: &[StepCommand],
) -> Result<Answer, NoMemory>
    requires limits { AreLimits turns tick }
    requires known { All (IsKnown (length image.cpus)) commands.now }
    ensures due { IfOk result (λ answer. (listing text : List ℕ) → Stands listing image
        → AreCommands (length image.cpus) text commands.now
        → AreReplies turns tick seed listing text answer.status answer.text.items) }
    ensures statuses { IfOk result (λ answer. IsStatus answer.status) }
{
    let mut machine = open(alloc, image, turns, tick)?;
    run_planned(&mut machine, seed);
    replies_of(alloc, &machine, commands)
}

/// What is due to the text of commands behind the listing of an image.
fn answer_commands(
    alloc: Global,
    image: Image,
    turns: u32,
    tick: u32,
    seed: Option<u64>,
    text: &[u8],
) -> Result<Answer, NoMemory>
    requires { AreLimits turns tick }
    ensures due { IfOk result (λ answer. (listing : List ℕ) → Stands listing image
        → IsDueToParts turns tick seed listing text.now answer.status answer.text.items) }
    ensures statuses { IfOk result (λ answer. IsStatus answer.status) }
{
    match read_commands(alloc, text, image.cpu_count()) {
        Ok(commands) => reply_to(alloc, image, turns, tick, seed, &commands),
        Err(CommandFault::Memory) => Err(NoMemory),
        Err(CommandFault::Line(number)) => refuse_command(alloc, number),
    }
}

/// What `step` answers to an input that is not too long: a listing, and behind the first line that is `ZTX STEP`
/// commands. It is what these show of the run that `run` would report, its first fault, or the first line that is no
/// command. The limits and the seed are those of a run.
pub fn step(
    alloc: Global,
    input: &[u8],
    turns: u32,
    tick: u32,
    seed: Option<u64>,
) -> Result<Answer, NoMemory>
    requires limits { AreLimits turns tick }
    requires short { length input.now ≤ 16777216 }
    ensures due { IfOk result (λ answer.
        IsDueToStep turns tick seed input.now answer.status answer.text.items) }
    ensures statuses { IfOk result (λ answer. IsStatus answer.status) }
{
    let parts = part(input, STEP_MARK);
    match assemble(alloc, parts.listing) {
        Ok(image) => answer_commands(alloc, image, turns, tick, seed, parts.behind),
        Err(fault) => refuse(alloc, fault),
    }
}
