//! What is done with storage, the table of holders and the copies, each for itself.
ghost use Rattle.std.specs.Prelude.{◌≡◌, ◌<◌, ◌≤◌, ◌+◌, ◌*◌, ◌/◌, ◌%◌, ℕ, List, Some, None, length, IfSome};
ghost use Rattle.z_regs.specs.Prefix.{storage_size};
ghost use Rattle.z_regs.specs.Written.{written};
ghost use Rattle.line_table.specs.Sizes.{storage_lines};
ghost use Rattle.line_table.specs.Holders.{mode_in};
ghost use Rattle.std.specs.Option.{option_map};
ghost use Rattle.l1_data.specs.Sizes.{copy_limit, line_size};
ghost use Rattle.l1_data.specs.Copies.{copies_of, with_copy, copy_count, laid};
ghost use Rattle.line_copies.specs.Coherence.{line_in, exclusive_holder};
ghost use Rattle.line_copies.specs.Seen.{IsKept, seen_bytes, copied};

use crate::directory::Directory;
use l1_data::{L1, LINE_SIZE};
use line_table::Mode;
use z_regs::{Bytes, Storage};

/// Writes a CPU's copy of a line back into storage, where it holds the line exclusively. What is seen stays,
/// and the copy, if there is one, is what storage holds from now on.
pub(crate) fn write_back(
    storage: &mut Storage,
    table: &Directory,
    copies: &[L1],
    cpu: u32,
    line: u32,
)
    requires cpu { cpu < table.now.cpus }
    requires line { line < storage_lines }
    requires kept { IsKept storage.old table.now copies.now }
    ensures kept { IsKept storage.new table.now copies.now }
    ensures bytes { seen_bytes storage.new table.now copies.now
        ≡ seen_bytes storage.old table.now copies.now }
    ensures clean { (copy : List ℕ) → copied copies.now cpu line ≡ Some copy
        → copy ≡ line_in storage.new line }
{
    if let Some(Mode::Exclusive) = table.mode_of(cpu, line) {
        let copy = copies[cpu as usize].copy_of(line);
        storage.lay(line as usize * LINE_SIZE, copy);
    }
}

/// Sees to it that a CPU has a copy of a line, which is what storage holds.
pub(crate) fn copy_from_storage(storage: &Storage, l1: &mut L1, line: u32)
    requires line { line < storage_lines }
    requires same { (copy : List ℕ) → copies_of l1.old line ≡ Some copy → copy ≡ line_in storage.now line }
    requires room { copies_of l1.old line ≡ None → copy_count (copies_of l1.old) < copy_limit }
    ensures { copies_of l1.new ≡ with_copy (copies_of l1.old) line (Some (line_in storage.now line)) }
{
    if l1.has(line) {
        return;
    }
    let first = line as usize * LINE_SIZE;
    l1.install(line, &storage.as_slice()[first..first + LINE_SIZE]);
}

/// Changes the bytes of a copy from a place on, where the line has one.
fn lay_where_there(l1: &mut L1, line: u32, at: u32, bytes: &[u8])
    requires { at + length bytes.now ≤ line_size }
    ensures { copies_of l1.new
        ≡ with_copy (copies_of l1.old) line
        (option_map (λ copy. laid copy at bytes.now) (copies_of l1.old line)) }
{
    if l1.has(line) {
        l1.lay(line, at, bytes);
    }
}

/// Changes the bytes of every copy of a line from a place on.
fn lay_in_copies(copies: &mut [L1], line: u32, at: u32, bytes: &[u8])
    requires { at + length bytes.now ≤ line_size }
    ensures { (cpu : ℕ) → cpu < length copies.old → copied copies.new cpu
        ≡ with_copy (copied copies.old cpu) line
        (option_map (λ copy. laid copy at bytes.now) (copied copies.old cpu line)) }
{
    for l1 in copies.iter_mut() {
        lay_where_there(l1, line, at, bytes);
    }
}

/// Changes bytes of one line in storage and in every copy of the line.
#[inline(never)]
pub(crate) fn lay_everywhere(storage: &mut Storage, copies: &mut [L1], address: u32, bytes: &[u8])
    requires inside { address + length bytes.now ≤ length storage.old }
    requires one_line { address % line_size + length bytes.now ≤ line_size }
    ensures storage { storage.new ≡ written storage.old address bytes.now }
    ensures copies { (cpu : ℕ) → cpu < length copies.old → copied copies.new cpu
        ≡ with_copy (copied copies.old cpu) (address / line_size)
        (option_map (λ copy. laid copy (address % line_size) bytes.now)
        (copied copies.old cpu (address / line_size))) }
{
    storage.lay(address as usize, bytes);
    lay_in_copies(
        copies,
        address / LINE_SIZE as u32,
        address % LINE_SIZE as u32,
        bytes,
    );
}
