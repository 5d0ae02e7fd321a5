//! Changes of a table, which are made and taken back; those of words of storage.
ghost use Rattle.std.specs.Prelude.{◌≡◌, ◌<◌, IfOk, IsTrue, length, slice_set};
ghost use Rattle.byteorder.specs.Endian.{big_bytes};
ghost use Rattle.step_changes.specs.Changes.{redo, undo, Adds};

use std::alloc::AllocError;

/// One place of a table has a new value.
#[derive(Drop)]
pub struct Change<T: Drop> {
    /// The place.
    pub at: u32,
    /// What was there.
    pub old: T,
    /// What is there now.
    pub new: T,
}

/// Writes a word to a place, where there is that place.
fn put(table: &mut [[u8; 8]], at: u32, value: [u8; 8])
    ensures { table.new ≡ slice_set table.old at value }
{
    if (at as usize) < table.len() {
        table[at as usize] = value;
    }
}

/// Makes changes of words of storage.
pub fn redo_words(table: &mut [[u8; 8]], changes: &[Change<[u8; 8]>])
    ensures { table.new ≡ redo slice_set changes.now table.old }
{
    for change in changes {
        put(table, change.at, change.new);
    }
}

/// Takes changes of words of storage back.
pub fn undo_words(table: &mut [[u8; 8]], changes: &[Change<[u8; 8]>])
    ensures { table.new ≡ undo slice_set changes.now table.old }
{
    for behind in 0..changes.len() {
        let change = &changes[changes.len() - 1 - behind];
        put(table, change.at, change.old);
    }
}

/// The number in a word of storage.
fn number_of(word: &[u8; 8]) -> u64
    ensures { big_bytes 8 result ≡ word.now }
{
    u64::from_be_bytes(*word)
}

/// Whether two words of storage are the same.
fn is_same_word(a: &[u8; 8], b: &[u8; 8]) -> bool
    ensures { IsTrue result → a.now ≡ b.now }
{
    number_of(a) == number_of(b)
}

/// Writes a word of storage, and notes the change where it is one. The error is want of memory.
pub fn note_word(
    table: &mut [[u8; 8]],
    changes: &mut Vec<Change<[u8; 8]>>,
    at: u32,
    new: [u8; 8],
) -> Result<(), AllocError>
    requires { at < length table.old }
    ensures value { IfOk result (λ _. table.new ≡ slice_set table.old at new) }
    ensures adds { IfOk result (λ _. Adds slice_set changes.old.items changes.new.items table.old table.new) }
{
    let old = table[at as usize];
    if is_same_word(&old, &new) {
        return Ok(());
    }
    changes.push(Change { at, old, new })?;
    table[at as usize] = new;
    Ok(())
}
