//! Lines that nobody holds yet, and the lines that ranges need.
ghost use Rattle.std.specs.Prelude.{◌≡◌, ◌≤◌, ◌+◌, All, IfOk, length};
ghost use Rattle.z_regs.specs.Prefix.{storage_size};

use line_table::Mode;
use std::alloc::Global;
use std::test::Fail;
use tx_footprint::Footprint;
use tx_lines::Lines;
use tx_meaning::Need;
use tx_needs::{lines_needed, need_for};
use z_regs::{Range, STORAGE_SIZE, Touches};

const SHARED: Need = Need {
    line: 144,
    mode: Mode::Shared,
};

/// The lines of storage of sevens for three CPUs.
fn opened(alloc: Global) -> Result<Lines, Fail>
    ensures { IfOk result (λ lines. lines.cpus ≡ 3) }
{
    let bytes = vec![in alloc; 7u8; STORAGE_SIZE as usize]?;
    Ok(Lines::open(alloc, &bytes, 3)?)
}

/// The last byte, whether the third CPU holds a line, who holds it against that CPU, and which line this can spare.
fn at_first(alloc: Global) -> Result<(u8, bool, [Option<u32>; 2]), Fail> {
    let footprint = Footprint::open(alloc)?;
    let lines = opened(alloc)?;
    let last = lines.byte(0xFFFFF);
    let holds = lines.is_there(2, SHARED);
    let against = lines.next_against(2, SHARED, 0);
    let spare = lines.spare(2, &footprint, &[144]);
    Ok((last, holds, [against, spare]))
}

#[test]
fn nobody_holds_a_line_at_first(rt: HostRuntime) -> Result<(), Fail> {
    let found = at_first(rt.alloc())?;
    assert_eq!(rt; found, (7, false, [None, None]));
    Ok(())
}

/// Eight bytes.
fn doubleword(first: u64, store: bool) -> Range
    requires { first + 8 ≤ storage_size }
    ensures length { result.length ≡ 8 }
    ensures inside { result.first + result.length ≤ storage_size }
{
    Range {
        first,
        length: 8,
        store,
    }
}

/// A doubleword fetched that ends in line 144, and one stored that begins in line 143 and ends there too: whether these
/// lines are needed, and how.
fn needed() -> (bool, [Mode; 2]) {
    let mut ranges = Touches::none();
    ranges.add(doubleword(0x8FFC, false));
    ranges.add(doubleword(0x9000, true));
    let lines = lines_needed(&ranges);
    let modes = [need_for(&ranges, 143).mode, need_for(&ranges, 144).mode];
    (lines.as_slice() == [143, 144].as_slice(), modes)
}

#[test]
fn a_line_that_is_stored_is_needed_exclusively(rt: HostRuntime) {
    assert_eq!(rt; needed(), (true, [Mode::Shared, Mode::Exclusive]));
}
