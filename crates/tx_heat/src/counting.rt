//! Conflicts counted by line.
ghost use Rattle.std.specs.Prelude.{◌≡◌, ℕ, ◌+◌, ◌<◌, ◌++◌, ◌∷◌, [], List, IfOk, length};
ghost use Rattle.line_table.specs.Sizes.{storage_lines};
ghost use Rattle.bit_set.specs.Counts.{one_if};
ghost use Rattle.std.specs.Prelude.{not};
ghost use Rattle.tx_heat.specs.Conflicts.{Conflict};
ghost use Rattle.tx_heat.specs.Watched.{AreCounted, HasRoom, IsBelow};

use std::alloc::{AllocError, Global};

/// The lines of storage.
const LINES: usize = 4096;

/// The conflicts for one line of storage.
#[derive(Clone, Copy, Debug, PartialEq, Eq)]
pub struct LineHeat {
    /// The requests that were rejected, those that starved their asker included.
    pub rejects: u64,
    /// The attempts that requests of other CPUs aborted.
    pub aborts: u64,
    /// Those of both kinds where no octoword was both asked for and touched by the holder.
    pub disjoint: u64,
}

/// What is counted of one conflict.
#[derive(Clone, Copy)]
pub struct Clash {
    /// The line.
    pub line: u32,
    /// Whether the request was rejected; else the holder's attempt was aborted.
    pub rejected: bool,
    /// Whether what is asked for and what the holder has touched lie apart.
    pub apart: bool,
}

/// All lines of storage, without conflicts. The error is want of memory.
pub fn cold(alloc: Global) -> Result<Vec<LineHeat>, AllocError>
    ensures { IfOk result (λ lines. AreCounted lines.items []) }
{
    let none = LineHeat {
        rejects: 0,
        aborts: 0,
        disjoint: 0,
    };
    let mut lines = Vec::with_capacity(alloc, LINES)?;
    for _line in 0..LINES {
        lines.push(none)?;
    }
    Ok(lines)
}

/// With one conflict more.
fn with_one(heat: LineHeat, clash: Clash) -> LineHeat
    requires { IsBelow heat 1 }
    ensures rejects { result.rejects ≡ heat.rejects + one_if clash.rejected }
    ensures aborts { result.aborts ≡ heat.aborts + one_if (not clash.rejected) }
    ensures disjoint { result.disjoint ≡ heat.disjoint + one_if clash.apart }
{
    LineHeat {
        rejects: heat.rejects + u64::from(clash.rejected),
        aborts: heat.aborts + u64::from(!clash.rejected),
        disjoint: heat.disjoint + u64::from(clash.apart),
    }
}

/// Counts a conflict at its line.
pub fn count(lines: &mut [LineHeat], clash: Clash)
    requires { HasRoom lines.old 1 }
    ensures counted { (found : List Conflict) (c : Conflict) → c.line ≡ clash.line → c.rejected ≡ clash.rejected
        → c.apart ≡ clash.apart → AreCounted lines.old found → AreCounted lines.new (found ++ c ∷ []) }
    ensures room { (n : ℕ) → HasRoom lines.old (n + 1) → HasRoom lines.new n }
{
    let at = clash.line as usize;
    if at < lines.len() {
        lines[at] = with_one(lines[at], clash);
    }
}
