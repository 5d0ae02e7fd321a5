//! Placing bytes in storage.
ghost use Rattle.std.specs.Prelude.{◌≡◌, ◌≤◌, ◌<◌, ◌+◌, length, true, OnOk};
ghost use Rattle.std.specs.List.{list_any};
ghost use Rattle.z_reading.specs.Listing.{plan_of, placed, written, started};
ghost use Rattle.z_fields.specs.Steps.{Gives};
ghost use Rattle.z_reading.specs.Text.{write_at, copies};
ghost use Rattle.z_regs.specs.Prefix.{storage_size};

use crate::draft::{Draft, FIRST_BYTE, SIZE};
use z_fields::{Kind, LineFault};

fn is_any(marks: &[bool]) -> bool
    ensures { result ≡ list_any (λ b. b) marks.now }
{
    marks.iter().any(|b| *b)
}

/// Writes bytes over those from a place on.
#[tactic(auto, unfolding(crate::specs::Text::write_at))]
pub fn write_bytes(storage: &mut Vec<u8>, at: usize, bytes: &[u8])
    requires { at + length bytes.now ≤ length storage.old.items }
    ensures is { storage.new.items ≡ write_at at bytes.now storage.old.items }
    ensures length { length storage.new.items ≡ length storage.old.items }
{
    storage[at..at + bytes.len()].copy_from_slice(bytes);
}

#[tactic(auto, unfolding(crate::specs::Text::write_at, crate::specs::Text::copies))]
fn mark(taken: &mut Vec<bool>, at: usize, count: usize)
    requires { at + count ≤ length taken.old.items }
    ensures is { taken.new.items ≡ write_at at (copies count true) taken.old.items }
    ensures length { length taken.new.items ≡ length taken.old.items }
{
    taken[at..at + count].fill(true);
}

/// Places so many bytes at the location, and goes on behind them.
#[tactic(auto, unfolding(crate::specs::Listing::placed))]
pub(crate) fn place(draft: &mut Draft, count: usize) -> Result<(), LineFault>
    ensures gives { Gives result (placed count (plan_of draft.old)) (plan_of draft.new) }
    ensures room { OnOk result (draft.old.here + count ≤ storage_size) }
    ensures text { draft.new.works.text ≡ draft.old.works.text }
{
    let first = draft.here;
    if 0 < count && (first < FIRST_BYTE || SIZE - first < count) {
        return Err(LineFault::Failed(Kind::OutOfRange));
    }
    let end = first + count;
    if is_any(&draft.taken[first..end]) {
        return Err(LineFault::Failed(Kind::Overlap));
    }
    mark(&mut draft.taken, first, count);
    draft.here = end;
    Ok(())
}

/// Places bytes at the location, and writes them.
#[tactic(auto, unfolding(crate::specs::Listing::written))]
pub(crate) fn write(draft: &mut Draft, bytes: &[u8]) -> Result<(), LineFault>
    ensures gives { Gives result (written bytes.now (plan_of draft.old)) (plan_of draft.new) }
    ensures text { draft.new.works.text ≡ draft.old.works.text }
{
    let first = draft.here;
    place(draft, bytes.len())?;
    write_bytes(&mut draft.storage, first, bytes);
    Ok(())
}

/// Places the bytes of an instruction at the location, which has to be even.
#[tactic(auto, unfolding(crate::specs::Listing::started))]
pub(crate) fn start(draft: &mut Draft, count: usize) -> Result<(), LineFault>
    requires some { 0 < count }
    requires few { count ≤ 6 }
    ensures gives { Gives result (started count (plan_of draft.old)) (plan_of draft.new) }
    ensures room { OnOk result (draft.old.here + count ≤ storage_size) }
    ensures text { draft.new.works.text ≡ draft.old.works.text }
{
    let first = draft.here;
    if first % 2 == 1 {
        return Err(LineFault::Failed(Kind::OutOfRange));
    }
    place(draft, count)?;
    draft.begins[first] = true;
    Ok(())
}
