//! How the transactions of a history have ended.
ghost use Rattle.std.specs.Prelude.{◌≡◌, ◌<◌, ◌+◌, ◌-◌, ◌^◌, ◌++◌, ◌∷◌, [], ℕ, List, IfOk, length, replicate};
ghost use Rattle.std.specs.Prelude.{get_or, slice_set};
ghost use Rattle.tx_journal.specs.declared.entries.Entry.{Entry};
ghost use Rattle.tx_replay.specs.Ends.{AreEnds};

use std::alloc::Global;
use tx_journal::Entry;
use z_regs::NoMemory;

/// How many transactions of each CPU have been committed, and how many aborted.
#[derive(Drop)]
pub struct Ends {
    pub commits: Vec<u64>,
    pub aborts: Vec<u64>,
}

/// So many zeros.
fn zeros(alloc: Global, count: usize) -> Result<Vec<u64>, NoMemory>
    ensures { IfOk result (λ zeros. zeros.items ≡ replicate count 0) }
{
    Ok(vec![in alloc; 0u64; count]?)
}

/// No transaction of so many CPUs has ended.
pub(crate) fn no_ends(alloc: Global, cpus: usize) -> Result<Ends, NoMemory>
    ensures { IfOk result (λ ends. AreEnds [] cpus ends) }
{
    let commits = zeros(alloc, cpus)?;
    let aborts = zeros(alloc, cpus)?;
    Ok(Ends { commits, aborts })
}

/// Counts one more of a CPU that is there.
fn count_one(counts: &mut Vec<u64>, cpu: u32)
    requires { get_or counts.old.items cpu 0 < 2 ^ 64 - 1 }
    ensures { counts.new.items ≡ slice_set counts.old.items cpu (get_or counts.old.items cpu 0 + 1) }
{
    let place = cpu as usize;
    if place < counts.len() {
        counts[place] += 1;
    }
}

/// Counts the end of a transaction, where an entry is one, behind a history that is not too long.
pub(crate) fn count_end(ends: &mut Ends, entry: Entry)
    requires few { (history : List Entry) × (cpus : ℕ) × AreEnds history cpus ends.old
        × (length history < 2 ^ 64 - 1) }
    ensures { (history : List Entry) (cpus : ℕ) → AreEnds history cpus ends.old
        → AreEnds (history ++ entry ∷ []) cpus ends.new }
{
    match entry {
        Entry::Commit(cpu, _) => count_one(&mut ends.commits, cpu),
        Entry::Abort(cpu, _, _) => count_one(&mut ends.aborts, cpu),
        _ => {}
    }
}
