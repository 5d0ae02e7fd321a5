//! How the transactions of all CPUs have ended, counted in one pass over the history.
ghost use Rattle.std.specs.Prelude.{◌≡◌, ℕ, ◌+◌, ◌^◌, ◌<◌, length, Some, slice_get};
ghost use Rattle.tx_report.specs.Ends.{ends_in, ends_with};

use tx_journal::Entry;

/// The most CPUs that a machine has.
pub const MOST_CPUS: usize = 16;

/// How the transactions of one CPU have ended.
#[derive(Clone, Copy)]
pub struct Ends {
    /// Its transactions that have committed.
    pub commits: u64,
    /// Its attempts that were aborted.
    pub aborts: u64,
}

/// One entry more; one of a CPU that is not among these changes nothing.
#[inline(never)]
fn note_end(all: &mut [Ends], entry: &Entry)
    requires { (i : ℕ) (ends : Ends) → slice_get all.old i ≡ Some ends
        → (ends.commits + 1 < 2 ^ 64) × (ends.aborts + 1 < 2 ^ 64) }
    ensures { (i : ℕ) (ends : Ends) → slice_get all.old i ≡ Some ends
        → slice_get all.new i ≡ Some (ends_with ends i entry.now) }
{
    match *entry {
        Entry::Commit(cpu, _) if (cpu as usize) < all.len() => all[cpu as usize].commits += 1,
        Entry::Abort(cpu, _, _) if (cpu as usize) < all.len() => all[cpu as usize].aborts += 1,
        _ => {}
    }
}

/// The same; most entries are steps, which are passed over.
#[inline(always)]
fn note(all: &mut [Ends], entry: &Entry)
    requires { (i : ℕ) (ends : Ends) → slice_get all.old i ≡ Some ends
        → (ends.commits + 1 < 2 ^ 64) × (ends.aborts + 1 < 2 ^ 64) }
    ensures { (i : ℕ) (ends : Ends) → slice_get all.old i ≡ Some ends
        → slice_get all.new i ≡ Some (ends_with ends i entry.now) }
{
    match *entry {
        Entry::Step(_) => {}
        _ => note_end(all, entry),
    }
}

/// The ends of the transactions of every CPU, by its number; entries of CPUs behind the sixteenth are passed
/// over.
pub fn ends_of(history: &[Entry]) -> [Ends; MOST_CPUS]
    ensures { (i : ℕ) → i < MOST_CPUS → slice_get result i ≡ Some (ends_in history.now i) }
{
    let mut all = [Ends {
        commits: 0,
        aborts: 0,
    }; MOST_CPUS];
    for entry in history {
        note(&mut all, entry);
    }
    all
}
