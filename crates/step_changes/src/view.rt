//! All that is shown, and what an event changes of it.
ghost use Rattle.std.specs.Prelude.{◌≡◌, ◌≢◌, ◌⊎◌, ℕ, ◌/◌, ◌%◌, ◌<◌, ◌≤◌, true, false, IfOk, List, length};
ghost use Rattle.std.specs.Prelude.{slice_index, slice_index_or, slice_set};
ghost use Rattle.z_regs.specs.Prefix.{storage_size};
ghost use Rattle.tx_serial.specs.Changes.{cpu_of_entry};
ghost use Rattle.step_changes.specs.Seen.{cpus_seen, sight_of, word_at, words_of};
ghost use Rattle.step_changes.specs.Changes.{Adds, Leads};
ghost use Rattle.step_changes.specs.Parts.{put_part};
ghost use Rattle.step_changes.specs.Resting.{StayAsSeen, is_entered};
ghost use Rattle.step_changes.specs.Steps.{forward_by, back_by};
ghost use Rattle.step_changes.specs.Due.{due_lines, may_change};
ghost use Rattle.step_changes.specs.Stored.{is_among};

use crate::changes::{Change, note_word, redo_words, undo_words};
use crate::cpus::{note_cpu, redo_parts, undo_parts};
use crate::parts::Part;
use crate::seen::CpuSight;
use crate::shows::Shows;
use crate::stored::{Asked, StoredLines};
use std::alloc::{AllocError, Global};
use std::marker::Model;
use tx_journal::Entry;

/// The words of storage, of eight bytes each.
const WORDS: u32 = 131_072;

/// The words of a line.
const LINE: u32 = 32;

/// The lines of storage.
const LINES: u32 = 4096;

/// The parts of CPUs that most events change at most: a register, an address, and the control or the attempt.
const PARTS: usize = 3;

/// All that is shown behind some of the events. Contracts see it as data.
#[derive(Drop)]
pub struct View {
    cpus: Vec<CpuSight>,
    words: Vec<[u8; 8]>,
    entries: u64,
}

impl Model for View {
    ghost use Rattle.step_changes.specs.Seen.{Sight};

    ghost Value = { Sight };

    ghost view = { λ v. record { cpus = v.cpus.items; words = v.words.items; entries = v.entries } };
}

/// What one event changes.
#[derive(Drop)]
pub struct Step {
    /// The parts of CPUs that it changes.
    pub parts: Vec<Change<Part>>,
    /// The words of storage that it changes.
    pub words: Vec<Change<[u8; 8]>>,
    /// How many entries the history has before it.
    pub before: u64,
    /// How many it has behind it.
    pub after: u64,
}

/// The CPUs of a machine.
fn cpus_in<S: Shows>(alloc: Global, machine: &S) -> Result<Vec<CpuSight>, AllocError>
    ensures { IfOk result (λ cpus. cpus.items ≡ cpus_seen (S.shown machine.now)) }
{
    let count = machine.cpu_count();
    let mut cpus = Vec::with_capacity(alloc, count as usize)?;
    for cpu in 0..count {
        cpus.push(machine.cpu(cpu))?;
    }
    Ok(cpus)
}

/// The eight bytes of a word of storage of a machine.
fn word_in<S: Shows>(machine: &S, word: u32) -> [u8; 8]
    requires { word < 131072 }
    ensures { result ≡ word_at (S.shown machine.now).bytes word }
{
    let first = 8 * word;
    [
        machine.byte(first),
        machine.byte(first + 1),
        machine.byte(first + 2),
        machine.byte(first + 3),
        machine.byte(first + 4),
        machine.byte(first + 5),
        machine.byte(first + 6),
        machine.byte(first + 7),
    ]
}

/// The words of storage of a machine.
fn words_in<S: Shows>(alloc: Global, machine: &S) -> Result<Vec<[u8; 8]>, AllocError>
    ensures { IfOk result (λ words. words.items
        ≡ words_of (S.shown machine.now).bytes) }
{
    let mut words = Vec::with_capacity(alloc, WORDS as usize)?;
    for word in 0..WORDS {
        words.push(word_in(machine, word))?;
    }
    Ok(words)
}

/// The CPU of an entry.
fn cpu_of_entry(entry: &Entry) -> u32
    ensures { result ≡ cpu_of_entry entry.now }
{
    match *entry {
        Entry::Step(cpu) | Entry::Tdb(cpu) | Entry::Interrupt(cpu) => cpu,
        Entry::Commit(cpu, _) => cpu,
        Entry::Abort(cpu, _, _) => cpu,
    }
}

/// Whether some entry is of a CPU.
fn is_entered(entries: &[Entry], cpu: u32) -> bool
    ensures { result ≡ is_entered entries.now cpu }
{
    entries.iter().any(|entry| cpu_of_entry(entry) == cpu)
}

/// Whether a machine may show something else of a CPU than was seen of it, by the new entries and its attempt.
fn may_differ<S: Shows>(machine: &S, entries: &[Entry], sight: &CpuSight, cpu: u32) -> bool
    requires { cpu < (S.shown machine.now).count }
    ensures entries { result ≡ false → is_entered entries.now cpu ≡ false }
    ensures live { result ≡ false → sight.now.live ≡ ((S.shown machine.now).cpu cpu).live }
{
    is_entered(entries, cpu) || sight.live() != machine.live(cpu)
}

/// Makes CPUs those of a machine, and adds what that changes. Those stay as they were seen of which no entry is
/// new, and whose attempts have come no further.
fn note_cpus<S: Shows>(
    machine: &S,
    before: u64,
    cpus: &mut [CpuSight],
    changes: &mut Vec<Change<Part>>,
) -> Result<(), AllocError>
    requires size { length cpus.old ≡ (S.shown machine.now).count }
    requires grown { before ≤ length (S.shown machine.now).history }
    requires stay { StayAsSeen cpus.old before (S.shown machine.now) }
    ensures value { IfOk result (λ _. cpus.new ≡ cpus_seen (S.shown machine.now)) }
    ensures adds { IfOk result (λ _. Adds put_part changes.old.items changes.new.items cpus.old cpus.new) }
{
    let entries = &machine.journal()[before as usize..];
    for cpu in 0..machine.cpu_count() {
        if may_differ(machine, entries, &cpus[cpu as usize], cpu) {
            note_cpu(&mut cpus[cpu as usize], changes, cpu, &machine.cpu(cpu))?;
        }
    }
    Ok(())
}

/// Makes the words of a line those of a machine, and adds what that changes.
fn note_line<S: Shows>(
    machine: &S,
    words: &mut [[u8; 8]],
    changes: &mut Vec<Change<[u8; 8]>>,
    line: u32,
) -> Result<(), AllocError>
    requires { length words.old ≡ 131072 }
    ensures there { IfOk result (λ _. (w : ℕ) (d : List ℕ) → w < 131072 → w / 32 ≡ line
        → slice_index_or words.new w d
        ≡ word_at (S.shown machine.now).bytes w) }
    ensures others { IfOk result (λ _. (w : ℕ) (d : List ℕ) → slice_index_or words.old w d
        ≡ word_at (S.shown machine.now).bytes w
        → slice_index_or words.new w d
        ≡ word_at (S.shown machine.now).bytes w) }
    ensures adds { IfOk result (λ _. Adds slice_set changes.old.items changes.new.items words.old words.new) }
{
    if line >= LINES {
        return Ok(());
    }
    let first = LINE * line;
    for place in 0..LINE {
        let word = first + place;
        note_word(words, changes, word, word_in(machine, word))?;
    }
    Ok(())
}

/// Makes the words of some lines those of a machine, and adds what that changes; all others are so already.
fn note_lines<S: Shows>(
    machine: &S,
    words: &mut [[u8; 8]],
    changes: &mut Vec<Change<[u8; 8]>>,
    lines: &[u32],
) -> Result<(), AllocError>
    requires size { length words.old ≡ 131072 }
    requires others { (w : ℕ) (d : List ℕ) → w < 131072 → (is_among lines.now (w / 32) ≡ true)
        ⊎ (slice_index_or words.old w d
        ≡ word_at (S.shown machine.now).bytes w) }
    ensures value { IfOk result (λ _. words.new
        ≡ words_of (S.shown machine.now).bytes) }
    ensures adds { IfOk result (λ _. Adds slice_set changes.old.items changes.new.items words.old words.new) }
{
    for line in lines {
        note_line(machine, words, changes, *line)?;
    }
    Ok(())
}

impl View {
    /// What a machine shows.
    pub fn of<S: Shows>(alloc: Global, machine: &S) -> Result<View, AllocError>
        ensures { IfOk result (λ view. view ≡ sight_of (S.shown machine.now)) }
    {
        Ok(View {
            cpus: cpus_in(alloc, machine)?,
            words: words_in(alloc, machine)?,
            entries: machine.journal().len() as u64,
        })
    }

    /// The lines that may have changed in an event: none where the history is as long as before. The error is
    /// want of memory.
    fn lines_due<S: Shows>(
        &self,
        alloc: Global,
        machine: &S,
        stored: &StoredLines,
        asked: &Asked,
    ) -> Result<Vec<u32>, AllocError>
        requires { length self.now.cpus ≡ (S.shown machine.now).count }
        ensures { IfOk result (λ lines. self.now.entries ≢ length (S.shown machine.now).history
            → lines.items ≡ due_lines self.now.cpus (S.shown machine.now) asked.now
            stored.now) }
    {
        if self.entries == machine.journal().len() as u64 {
            return Ok(Vec::new(alloc));
        }
        stored.changed(alloc, machine, &self.cpus, asked)
    }

    /// Makes the words what a machine shows behind an event, and gives their changes. They are looked at where the
    /// history has grown, in the lines that may have changed.
    fn follow_words<S: Shows>(
        &mut self,
        alloc: Global,
        machine: &S,
        stored: &StoredLines,
        asked: &Asked,
    ) -> Result<Vec<Change<[u8; 8]>>, AllocError>
        requires cpus { length self.old.cpus ≡ (S.shown machine.now).count }
        requires size { length self.old.words ≡ 131072 }
        requires same { self.old.entries ≡ length (S.shown machine.now).history
            → self.old.words ≡ words_of (S.shown machine.now).bytes }
        requires others { (w : ℕ) (d : List ℕ) → w < 131072
            → (may_change self.old.cpus (S.shown machine.now) asked.now stored.now (w / 32) ≡ true)
            ⊎ (slice_index_or self.old.words w d ≡ word_at (S.shown machine.now).bytes w) }
        ensures value { IfOk result (λ _. self.new
            ≡ record self.old { words = words_of (S.shown machine.now).bytes }) }
        ensures leads { IfOk result (λ changes. Leads slice_set self.old.words changes.items self.new.words) }
    {
        let lines = self.lines_due(alloc, machine, stored, asked)?;
        let mut changes = Vec::with_capacity(
            alloc,
            LINE as usize * lines.len().min(LINES as usize),
        )?;
        note_lines(machine, &mut self.words, &mut changes, &lines)?;
        changes.shrink_to_fit();
        Ok(changes)
    }

    /// Makes the CPUs what a machine shows behind an event, and gives their changes.
    fn follow_cpus<S: Shows>(
        &mut self,
        alloc: Global,
        machine: &S,
    ) -> Result<Vec<Change<Part>>, AllocError>
        requires cpus { length self.old.cpus ≡ (S.shown machine.now).count }
        requires grown { self.old.entries ≤ length (S.shown machine.now).history }
        requires stay { StayAsSeen self.old.cpus self.old.entries (S.shown machine.now) }
        ensures value { IfOk result (λ _. self.new ≡ record self.old { cpus = cpus_seen (S.shown machine.now) }) }
        ensures leads { IfOk result (λ changes. Leads put_part self.old.cpus changes.items self.new.cpus) }
    {
        let mut changes = Vec::with_capacity(alloc, PARTS)?;
        note_cpus(machine, self.entries, &mut self.cpus, &mut changes)?;
        Ok(changes)
    }

    /// Makes this what a machine shows behind an event, and gives what that changes.
    pub fn follow<S: Shows>(
        &mut self,
        alloc: Global,
        machine: &S,
        stored: &StoredLines,
        asked: &Asked,
    ) -> Result<Step, AllocError>
        requires cpus { length self.old.cpus ≡ (S.shown machine.now).count }
        requires size { length self.old.words ≡ 131072 }
        requires same { self.old.entries ≡ length (S.shown machine.now).history
            → self.old.words ≡ words_of (S.shown machine.now).bytes }
        requires others { (w : ℕ) (d : List ℕ) → w < 131072
            → (may_change self.old.cpus (S.shown machine.now) asked.now stored.now (w / 32) ≡ true)
            ⊎ (slice_index_or self.old.words w d ≡ word_at (S.shown machine.now).bytes w) }
        requires grown { self.old.entries ≤ length (S.shown machine.now).history }
        requires stay { StayAsSeen self.old.cpus self.old.entries (S.shown machine.now) }
        ensures value { IfOk result (λ _. self.new ≡ sight_of (S.shown machine.now)) }
        ensures forward { IfOk result (λ step. forward_by step self.old ≡ self.new) }
        ensures back { IfOk result (λ step. back_by step self.new ≡ self.old) }
    {
        let before = self.entries;
        let words = self.follow_words(alloc, machine, stored, asked)?;
        let parts = self.follow_cpus(alloc, machine)?;
        self.entries = machine.journal().len() as u64;
        Ok(Step {
            parts,
            words,
            before,
            after: self.entries,
        })
    }

    /// Makes a step.
    pub fn forward(&mut self, step: &Step)
        ensures { self.new ≡ forward_by step.now self.old }
    {
        redo_parts(&mut self.cpus, &step.parts);
        redo_words(&mut self.words, &step.words);
        self.entries = step.after;
    }

    /// Takes a step back.
    pub fn back(&mut self, step: &Step)
        ensures { self.new ≡ back_by step.now self.old }
    {
        undo_parts(&mut self.cpus, &step.parts);
        undo_words(&mut self.words, &step.words);
        self.entries = step.before;
    }

    /// The CPUs.
    pub fn cpus(&self) -> &[CpuSight]
        ensures { result.now ≡ self.now.cpus }
    {
        &self.cpus
    }

    /// A CPU.
    pub fn cpu(&self, cpu: u32) -> &CpuSight
        requires { cpu < length self.now.cpus }
        ensures { result.now ≡ slice_index_or self.now.cpus cpu result.now }
    {
        &self.cpus[cpu as usize]
    }

    /// The byte at an address.
    pub fn byte(&self, address: u32) -> u8
        requires known { address < storage_size }
        requires size { length self.now.words ≡ 131072 }
        ensures { (d : List ℕ) → result
            ≡ slice_index (slice_index_or self.now.words (address / 8) d) (address % 8) }
    {
        self.words[(address / 8) as usize][(address % 8) as usize]
    }

    /// How many entries the history has.
    pub fn entries(&self) -> u64
        ensures { result ≡ self.now.entries }
    {
        self.entries
    }
}
