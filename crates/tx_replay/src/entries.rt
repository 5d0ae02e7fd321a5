//! The entry that a line means, on a machine behind the entries before it.
ghost use Rattle.std.specs.Prelude.{◌≡◌, ◌≢◌, ℕ, List, IfSome, IfOk, IfErr, Some, Err, length};
ghost use Rattle.tx_journal.specs.declared.entries.Entry.{Entry};
ghost use Rattle.tx_journal.specs.Lines.{Spells, entry_text};
ghost use Rattle.tx_journal.specs.Sound.{IsSound};
ghost use Rattle.tx_serial.specs.Apply.{apply};
ghost use Rattle.tx_flat.specs.Machine.{state_of};
ghost use Rattle.tx_flat.specs.declared.slot.ApplyFault.TheVariants.{Misfit};
ghost use Rattle.history_laws.specs.Fitting.{Fits};
ghost use Rattle.tx_replay.specs.Replay.{NoneFits};
ghost use Rattle.tx_replay.specs.Told.{TellsEntry};

use crate::causes::cause_of;
use report_form::step_cpu;
use std::alloc::Global;
use tx_flat::Flat;
use tx_flat::slot::ApplyFault;
use tx_journal::{Entry, EntryText, entry_text, read_entry};
use z_regs::NoMemory;

/// An abort, by the numbers of its line. No other abort fits that has such a line. The machine stays as it is.
fn abort_of(flat: &mut Flat, text: EntryText) -> Option<Entry>
    requires { text.kind ≡ 65 }
    ensures sound { IfSome result IsSound }
    ensures only { (e : Entry) → IsSound e → TellsEntry e text → Fits (state_of flat.old) e → result ≡ Some e }
    ensures unchanged { flat.new ≡ flat.old }
{
    let why = cause_of(flat, text)?;
    Some(Entry::Abort(text.cpu, text.count, why))
}

/// The entry that the numbers of a line mean, which is none of an abort. No other entry has such a line.
fn plain_entry(text: EntryText) -> Option<Entry>
    requires { text.kind ≢ 65 }
    ensures sound { IfSome result IsSound }
    ensures text { (line : List ℕ) → Spells line text → IfSome result (λ e. entry_text e ≡ line) }
    ensures only { (e : Entry) → IsSound e → TellsEntry e text → result ≡ Some e }
{
    match text.kind {
        b'S' => Some(Entry::Step(text.cpu)),
        b'C' => Some(Entry::Commit(text.cpu, text.count)),
        b'T' => Some(Entry::Tdb(text.cpu)),
        b'I' => Some(Entry::Interrupt(text.cpu)),
        _ => None,
    }
}

/// The entry, where this is its line.
fn with_line(alloc: Global, entry: Entry, line: &[u8]) -> Result<Option<Entry>, NoMemory>
    ensures same { IfOk result (λ o. IfSome o (λ e. e ≡ entry)) }
    ensures text { IfOk result (λ o. IfSome o (λ e. entry_text e ≡ line.now)) }
    ensures only { IfOk result (λ o. entry_text entry ≡ line.now → o ≡ Some entry) }
{
    let own = entry_text(alloc, &entry)?;
    if own.as_slice() != line {
        return Ok(None);
    }
    Ok(Some(entry))
}

/// The abort that has this line and these numbers, where one fits; it may be one that does not. None where no abort
/// has the line. The machine stays as it is.
fn abort_with(
    flat: &mut Flat,
    alloc: Global,
    text: EntryText,
    line: &[u8],
) -> Result<Option<Entry>, NoMemory>
    requires kind { text.kind ≡ 65 }
    requires spells { Spells line.now text }
    ensures sound { IfOk result (λ o. IfSome o IsSound) }
    ensures text { IfOk result (λ o. IfSome o (λ e. entry_text e ≡ line.now)) }
    ensures only { IfOk result (λ o. (e : Entry) → IsSound e → entry_text e ≡ line.now
        → Fits (state_of flat.old) e → o ≡ Some e) }
    ensures unchanged { flat.new ≡ flat.old }
{
    match abort_of(flat, text) {
        None => Ok(None),
        Some(entry) => {
            let found = with_line(alloc, entry, line)?;
            Ok(found)
        }
    }
}

/// The entry that has this line, where one fits; it may be one that does not. None where no entry has the
/// line. The machine stays as it is.
fn entry_with(flat: &mut Flat, alloc: Global, line: &[u8]) -> Result<Option<Entry>, NoMemory>
    ensures sound { IfOk result (λ o. IfSome o IsSound) }
    ensures text { IfOk result (λ o. IfSome o (λ e. entry_text e ≡ line.now)) }
    ensures only { IfOk result (λ o. (e : Entry) → IsSound e → entry_text e ≡ line.now
        → Fits (state_of flat.old) e → o ≡ Some e) }
    ensures unchanged { flat.new ≡ flat.old }
{
    if let Some(cpu) = step_cpu(line) {
        return Ok(Some(Entry::Step(cpu)));
    }
    let Some(text) = read_entry(line) else {
        return Ok(None);
    };
    if text.kind == b'A' {
        return abort_with(flat, alloc, text, line);
    }
    Ok(plain_entry(text))
}

/// Applies the entry that has this line, with its line feed, where one fits. `Misfit` comes exactly where
/// none does, `Memory` for want of memory. After an error nothing has changed.
pub fn apply_line(flat: &mut Flat, alloc: Global, line: &[u8]) -> Result<Entry, ApplyFault>
    ensures sound { IfOk result IsSound }
    ensures text { IfOk result (λ e. entry_text e ≡ line.now) }
    ensures applied { IfOk result (λ e. apply (state_of flat.old) e ≡ Some (state_of flat.new)) }
    ensures misfit { result ≡ Err Misfit → NoneFits (state_of flat.old) line.now }
    ensures unchanged { IfErr result (λ f. flat.new ≡ flat.old) }
    ensures cpus { length flat.new.slots ≡ length flat.old.slots }
{
    let Some(entry) = entry_with(flat, alloc, line)? else {
        return Err(ApplyFault::Misfit);
    };
    flat.apply(entry)?;
    Ok(entry)
}
