//! The copies of storage on which a run works, turned for another CPU.
ghost use Rattle.std.specs.Prelude.{◌≡◌, ◌≤◌, ◌<◌, ◌+◌, ◌*◌, ◌⊎◌, ℕ, length, IsTrue};
ghost use Rattle.z_regs.specs.Prefix.{is_prefix, storage_size, area_size, absolute_of};
ghost use Rattle.z_regs.specs.Seen.{seen_by};
ghost use Rattle.tx_private.specs.Ready.{IsReady, IsTurned};

use crate::attempt::Attempt;
use crate::copying::{LINE_SIZE, is_whole, refresh_lines};
use line_table::LINES;
use z_regs::Storage;

/// The lines of the area that a prefix moves.
const AREA_LINES: u32 = 32;

/// The first line of the area that a CPU with this prefix has of its own.
fn own_area(prefix: Option<u32>) -> u32
    requires prefix_in { IsTrue (is_prefix prefix) }
    ensures within { result + 32 ≤ LINES }
    ensures others { (j : ℕ) → area_size ≤ j → (j < 256 * result) ⊎ (256 * result + area_size ≤ j)
        → absolute_of prefix j ≡ j }
{
    match prefix {
        None => 0,
        Some(prefix) => prefix / LINE_SIZE as u32,
    }
}

/// A copy of storage as a CPU with one prefix sees it becomes the one as another CPU does.
fn exchange(copy: &mut Storage, storage: &Storage, before: Option<u32>, prefix: Option<u32>)
    requires before_in { IsTrue (is_prefix before) }
    requires prefix_in { IsTrue (is_prefix prefix) }
    requires size { length storage.now ≡ storage_size }
    requires before { copy.old ≡ seen_by before storage.now }
    ensures { copy.new ≡ seen_by prefix storage.now }
{
    is_whole(copy);
    let old = own_area(before);
    let new = own_area(prefix);
    refresh_lines(copy, storage, prefix, 0, AREA_LINES);
    refresh_lines(copy, storage, prefix, old, old + AREA_LINES);
    refresh_lines(copy, storage, prefix, new, new + AREA_LINES);
}

/// The copies become storage as a CPU with this prefix sees it.
pub fn turn(a: &mut Attempt, storage: &Storage, prefix: Option<u32>)
    requires prefix_in { IsTrue (is_prefix prefix) }
    requires size { length storage.now ≡ storage_size }
    requires ready { IsReady storage.now a.old }
    ensures { IsTurned prefix storage.now a.new }
{
    if a.turned == prefix {
        return;
    }
    exchange(&mut a.seen, storage, a.turned, prefix);
    exchange(&mut a.lasting, storage, a.turned, prefix);
    a.turned = prefix;
}
