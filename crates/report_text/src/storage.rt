//! The lines of shown storage.
ghost use Rattle.std.specs.Prelude.{◌≡◌, ◌++◌, ◌<◌, ◌≤◌, ◌+◌, ℕ, List, All, OnOk, length, slice_index};
ghost use Rattle.z_regs.specs.Prefix.{storage_size};
ghost use Rattle.tx_journal.specs.Image.{IsShown};
ghost use Rattle.report_text.specs.Storage.{bytes_at, bytes_line, bytes_text, show_text, shows_text};

use crate::block::add_block;
use crate::digits::{add_bytes, add_word};
use std::alloc::AllocError;
use tx_abort::BLOCK_SIZE;
use tx_journal::Show;
use z_regs::Storage;

/// Bytes in a line.
const ROW: u32 = 16;

/// Shared storage as a report reads it: no store of a live attempt is in it.
pub trait SharedBytes {
    /// All the bytes, from address 0 on.
    ghost bytes: { Self → List ℕ };

    /// The byte at an address.
    fn byte(&self, address: u32) -> u8
        requires { address < length (bytes self.now) }
        ensures { result ≡ slice_index (bytes self.now) address };
}

impl SharedBytes for Storage {
    ghost bytes = { λ storage. storage };

    fn byte(&self, address: u32) -> u8 {
        self.as_slice()[address as usize]
    }
}

/// Copies the bytes from an address on.
fn copy<S: SharedBytes>(storage: &S, first: u32, into: &mut [u8])
    requires size { length (S.bytes storage.now) ≡ storage_size }
    requires inside { first + length into.old ≤ storage_size }
    ensures { into.new ≡ bytes_at (S.bytes storage.now) first (length into.old) }
{
    for i in 0..into.len() {
        into[i] = storage.byte(first + i as u32);
    }
}

/// Adds a line of up to sixteen bytes.
#[tactic(auto, unfolding(crate::specs::Storage::bytes_line))]
fn add_line<S: SharedBytes>(
    text: &mut Vec<u8>,
    storage: &S,
    address: u32,
    count: u32,
) -> Result<(), AllocError>
    requires size { length (S.bytes storage.now) ≡ storage_size }
    requires inside { address + count ≤ storage_size }
    requires few { count ≤ 16 }
    ensures { OnOk result (text.new.items
        ≡ text.old.items ++ bytes_line address (bytes_at (S.bytes storage.now) address count)) }
{
    let mut room = [0u8; ROW as usize];
    let bytes = &mut room[..count as usize];
    copy(storage, address, bytes);
    text.extend_from_slice(b"M ")?;
    add_word(text, address)?;
    text.extend_from_slice(b" ")?;
    add_bytes(text, bytes)?;
    text.extend_from_slice(b"\n")
}

/// Adds the lines of bytes, sixteen to a line.
pub fn add_bytes_text<S: SharedBytes>(
    text: &mut Vec<u8>,
    storage: &S,
    first: u32,
    count: u32,
) -> Result<(), AllocError>
    requires size { length (S.bytes storage.now) ≡ storage_size }
    requires inside { first + count ≤ storage_size }
    ensures { OnOk result (text.new.items ≡ text.old.items ++ bytes_text (S.bytes storage.now) first count) }
{
    for row in 0..count.div_ceil(ROW) {
        let done = ROW * row;
        add_line(text, storage, first + done, ROW.min(count - done))?;
    }
    Ok(())
}

/// Adds what is shown at one place: the fields of a diagnostic block, or bytes.
#[tactic(auto, unfolding(crate::specs::Storage::show_text))]
fn add_show<S: SharedBytes>(text: &mut Vec<u8>, storage: &S, show: Show) -> Result<(), AllocError>
    requires size { length (S.bytes storage.now) ≡ storage_size }
    requires shown { IsShown show }
    ensures { OnOk result (text.new.items ≡ text.old.items ++ show_text (S.bytes storage.now) show) }
{
    if show.fields {
        let mut block = [0u8; BLOCK_SIZE];
        copy(storage, show.first, &mut block);
        return add_block(text, show.first, &block);
    }
    add_bytes_text(text, storage, show.first, show.length)
}

/// Adds what is shown of storage, in order.
pub fn add_shows<S: SharedBytes>(
    text: &mut Vec<u8>,
    storage: &S,
    shows: &[Show],
) -> Result<(), AllocError>
    requires size { length (S.bytes storage.now) ≡ storage_size }
    requires shown { All IsShown shows.now }
    ensures { OnOk result (text.new.items ≡ text.old.items ++ shows_text (S.bytes storage.now) shows.now) }
{
    for show in shows {
        add_show(text, storage, *show)?;
    }
    Ok(())
}
