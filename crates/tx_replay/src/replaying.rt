//! The lines of a history, one after the other.
ghost use Rattle.std.specs.Prelude.{◌≡◌, ◌≤◌, IfOk, IfErr, length, take};
ghost use Rattle.report_form.specs.Text.{lines_of};
ghost use Rattle.tx_flat.specs.Machine.{state_of};
ghost use Rattle.tx_replay.specs.Replay.{IsReplayed, IsRefused};

use crate::ends::{Ends, count_end, no_ends};
use crate::entries::apply_line;
use report_form::{line_at, start};
use std::alloc::Global;
use tx_flat::Flat;
use tx_flat::slot::ApplyFault;
use tx_journal::Image;
use z_regs::NoMemory;

/// What a history leaves that was read back. The entries are not kept.
#[derive(Drop)]
pub struct Replayed {
    /// The machine on flat storage, behind the last entry.
    pub flat: Flat,
    /// How the transactions have ended.
    pub ends: Ends,
}

/// Why lines were not replayed.
#[derive(Clone, Copy, Debug, PartialEq, Eq)]
pub enum ReplayFault {
    /// There was no memory.
    Memory,
    /// The line with this number, counted from 1, is the first whose text no entry has that fits there.
    Entry(u64),
}

impl From<NoMemory> for ReplayFault {
    ghost use Rattle.tx_replay.specs.declared.replaying.ReplayFault.TheVariants.{Memory};

    ghost from_gives = { λ _ e. e ≡ Memory };

    fn from(_error: NoMemory) -> ReplayFault {
        ReplayFault::Memory
    }
}

/// The history of an image that the first lines of a text tell, so many of them, each with its line feed: the machine
/// behind them, and how transactions have ended. A line does not tell all of an exception; the entry that fits is meant,
/// and there is one at most.
///
/// `Entry` comes exactly at the first line that is the text of no entry which can come next; no entry of a
/// CPU that the image lacks can. `Memory` comes for want of memory.
pub fn replay(
    alloc: Global,
    image: &Image,
    text: &[u8],
    count: u64,
) -> Result<Replayed, ReplayFault>
    requires { count ≤ length (lines_of text.now) }
    ensures replayed { IfOk result (λ r. IsReplayed image.now (take count (lines_of text.now)) (state_of r.flat)
        r.ends) }
    ensures cpus { IfOk result (λ r. length r.flat.slots ≡ length image.now.cpus) }
    ensures fault { IfErr result (λ f. IsRefused image.now (take count (lines_of text.now)) f) }
{
    let mut flat = Flat::open(alloc, image)?;
    let cpus = image.cpu_count() as usize;
    let mut ends = no_ends(alloc, cpus)?;
    let mut place = start(text);
    for k in 0..count {
        let Some(line) = line_at(text, place) else {
            unreachable!();
        };
        match apply_line(&mut flat, alloc, line.text) {
            Err(ApplyFault::Memory) => return Err(ReplayFault::Memory),
            Err(ApplyFault::Misfit) => return Err(ReplayFault::Entry(k + 1)),
            Ok(entry) => count_end(&mut ends, entry),
        }
        place = line.behind;
    }
    Ok(Replayed { flat, ends })
}
