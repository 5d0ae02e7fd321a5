//! Lines read as commands.
ghost use Rattle.std.specs.Prelude.{◌≡◌, ◌≢◌, ℕ, ◌<◌, List, ◌∷◌, ◌++◌, ◌↔◌, IsTrue, IfSome, IfNone, IfOk, IfErr};
ghost use Rattle.std.specs.Prelude.{All, OnOk};
ghost use Rattle.std.specs.Fmt.{decimal};
ghost use Rattle.input_parts.specs.Lines.{lines_of};
ghost use Rattle.step_words.specs.Commands.{AreBytes, AreCommands, IsCommand, IsFair, IsFirstBad, Tells};
ghost use Rattle.step_words.specs.Faults.{Adds, IsRefused};

use crate::command::StepCommand;
use crate::fault::CommandFault;
use input_parts::cut;
use std::alloc::{AllocError, Global};
use tx_journal::read_number;

/// The first address that can be looked at.
const FIRST: u64 = 8_192;

/// The number of bytes of storage.
const SIZE: u64 = 1_048_576;

/// The most bytes that a command looks at.
const MOST: u64 = 256;

/// The command that is a letter alone.
const BARE: &[u8] = b"H";

/// The letter of a line, and what stands behind the blank that follows it; None exactly where there is none.
fn opened(line: &[u8]) -> Option<(u8, &[u8])>
    ensures some { IfSome result (λ parts. line.now ≡ parts.0 ∷ 32 ∷ parts.1.now) }
    ensures none { IfNone result ((letter : ℕ) (rest : List ℕ) → line.now ≢ letter ∷ 32 ∷ rest) }
{
    match line {
        [letter, b' ', rest @ ..] => Some((*letter, rest)),
        _ => None,
    }
}

/// The number of a CPU that is there; None exactly where a text is none.
fn read_cpu(text: &[u8], cpus: u32) -> Option<u32>
    ensures some { IfSome result (λ cpu. (text.now ≡ decimal cpu) × (cpu < cpus)) }
    ensures none { IfNone result ((cpu : ℕ) → cpu < cpus → text.now ≢ decimal cpu) }
{
    let cpu = read_number(text)?;
    if cpu < u64::from(cpus) {
        return Some(cpu as u32);
    }
    None
}

/// Whether so many bytes from an address on can be looked at.
fn can_be_seen(first: u64, count: u64) -> bool
    ensures { IsTrue result ↔ AreBytes first count }
{
    if count < 1 {
        return false;
    }
    if MOST < count {
        return false;
    }
    if first < FIRST {
        return false;
    }
    first <= SIZE - count
}

/// An address and a number of bytes that can be looked at; None exactly where a text is none.
fn read_bytes(text: &[u8]) -> Option<(u32, u32)>
    ensures some { IfSome result (λ r. (text.now ≡ decimal r.0 ++ 32 ∷ decimal r.1) × AreBytes r.0 r.1) }
    ensures none { IfNone result ((first count : ℕ) → AreBytes first count
        → text.now ≢ decimal first ++ 32 ∷ decimal count) }
{
    let (first, count) = cut(text, b' ')?;
    let first = read_number(first)?;
    let count = read_number(count)?;
    if !can_be_seen(first, count) {
        return None;
    }
    Some((first as u32, count as u32))
}

/// The command that a line is, of a machine with so many CPUs; None exactly where it is none.
fn read_command(line: &[u8], cpus: u32) -> Option<StepCommand>
    ensures some { IfSome result (λ command. Tells cpus line.now command) }
    ensures none { IfNone result (¬ IsCommand cpus line.now) }
{
    if line == BARE {
        return Some(StepCommand::History);
    }
    let (letter, rest) = opened(line)?;
    match letter {
        b'F' => Some(StepCommand::Forward(read_number(rest)?)),
        b'B' => Some(StepCommand::Back(read_number(rest)?)),
        b'G' => Some(StepCommand::Go(read_number(rest)?)),
        b'C' => Some(StepCommand::Cpu(read_cpu(rest, cpus)?)),
        b'M' => {
            let (first, count) = read_bytes(rest)?;
            Some(StepCommand::Bytes { first, count })
        }
        _ => None,
    }
}

/// Whether a line is empty, or a command of a machine with so many CPUs.
fn is_fair(line: &[u8], cpus: u32) -> bool
    ensures { IsTrue result ↔ IsFair cpus line.now }
{
    line.is_empty() || read_command(line, cpus).is_some()
}

/// The number of the first line that is neither empty nor a command, from 1 on; None exactly where there is none.
fn first_bad(text: &[u8], cpus: u32) -> Option<u64>
    ensures some { IfSome result (λ number. IsFirstBad cpus text.now number) }
    ensures none { IfNone result (All (IsFair cpus) (lines_of text.now)) }
{
    let mut number = 1;
    let mut from = 0;
    while let Some((line, _)) = cut(&text[from..], b'\n') {
        if !is_fair(line, cpus) {
            return Some(number);
        }
        number += 1;
        from += line.len() + 1;
    }
    if is_fair(&text[from..], cpus) {
        return None;
    }
    Some(number)
}

/// Adds the command that a line is; an empty line says nothing.
fn add_line(commands: &mut Vec<StepCommand>, line: &[u8], cpus: u32) -> Result<(), AllocError>
    requires { IsFair cpus line.now }
    ensures { OnOk result (Adds cpus line.now commands.old.items commands.new.items) }
{
    if let Some(command) = read_command(line, cpus) {
        commands.push(command)?;
    }
    Ok(())
}

/// The commands of a text of which each line is empty or a command.
fn commands_of(alloc: Global, text: &[u8], cpus: u32) -> Result<Vec<StepCommand>, AllocError>
    requires { All (IsFair cpus) (lines_of text.now) }
    ensures { IfOk result (λ commands. AreCommands cpus text.now commands.items) }
{
    let mut commands = Vec::new(alloc);
    let mut from = 0;
    while let Some((line, _)) = cut(&text[from..], b'\n') {
        add_line(&mut commands, line, cpus)?;
        from += line.len() + 1;
    }
    add_line(&mut commands, &text[from..], cpus)?;
    Ok(commands)
}

/// The commands that the lines of a text are, of a machine with so many CPUs. An empty line says nothing. The
/// error is the first line that is neither empty nor a command, which is looked for before any memory is taken; or
/// want of memory.
pub fn read_commands(
    alloc: Global,
    text: &[u8],
    cpus: u32,
) -> Result<Vec<StepCommand>, CommandFault>
    ensures commands { IfOk result (λ commands. AreCommands cpus text.now commands.items) }
    ensures fault { IfErr result (λ fault. IsRefused cpus text.now fault) }
{
    if let Some(number) = first_bad(text, cpus) {
        return Err(CommandFault::Line(number));
    }
    Ok(commands_of(alloc, text, cpus)?)
}
