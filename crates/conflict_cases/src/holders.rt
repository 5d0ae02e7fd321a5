//! A worked table of three CPUs.
ghost use Rattle.std.specs.Prelude.{◌≡◌};

use line_table::{LINES, LineTable, MOST_HELD, Mode};
use std::alloc::Global;
use std::test::Fail;

/// CPUs or lines that are found.
type Places = [Option<u32>; 4];

/// How CPUs hold a line.
type Modes = [Option<Mode>; 2];

/// The first holders of line 144 from each CPU on, and from behind the last.
fn holders_of(table: &LineTable) -> Places {
    [
        table.next_holder(144, 0),
        table.next_holder(144, 1),
        table.next_holder(144, 2),
        table.next_holder(144, 3),
    ]
}

/// The first lines that the third CPU holds from these on: 0, 100, 144, 145.
fn lines_of(table: &LineTable) -> Places
    requires { table.now.cpus ≡ 3 }
{
    [
        table.next_line(2, 0),
        table.next_line(2, 100),
        table.next_line(2, 144),
        table.next_line(2, 145),
    ]
}

/// How the second and the third CPU hold line 144.
fn modes_of(table: &LineTable) -> Modes
    requires { table.now.cpus ≡ 3 }
{
    [table.mode_of(1, 144), table.mode_of(2, 144)]
}

/// What is seen of a table of which nothing is held; of the third CPU's lines, once it has line 144 exclusively; of that
/// line's holders, once the second CPU has it too; how these two have it then, at first and behind, when the second has
/// given it up; and how many lines the third CPU holds at last.
fn seen(alloc: Global) -> Result<([Places; 2], [Places; 2], [Modes; 3], u32), Fail> {
    let mut table = LineTable::open(alloc, 3)?;
    let nobody = [holders_of(&table), lines_of(&table)];
    if table.held(2) >= MOST_HELD || table.held(1) >= MOST_HELD {
        return Err("no room")?;
    }
    table.grant(2, 144, Mode::Exclusive);
    let (lines, exclusive) = (lines_of(&table), modes_of(&table));
    table.demote(2, 144);
    table.grant(1, 144, Mode::Shared);
    let (cpus, shared) = (holders_of(&table), modes_of(&table));
    table.give_up(1, 144);
    let modes = [exclusive, shared, modes_of(&table)];
    Ok((nobody, [lines, cpus], modes, table.held(2)))
}

#[test]
fn grants_and_gives_up(rt: HostRuntime) -> Result<(), Fail> {
    let (nobody, [lines, cpus], modes, held) = seen(rt.alloc())?;
    let (exclusive, shared) = (Some(Mode::Exclusive), Some(Mode::Shared));
    assert_eq!(rt; (nobody, held), ([[None; 4]; 2], 1));
    assert_eq!(rt; lines, [Some(144), Some(144), Some(144), None]);
    assert_eq!(rt; cpus, [Some(1), Some(1), Some(2), None]);
    assert_eq!(rt; modes, [[None, exclusive], [shared; 2], [None, shared]]);
    Ok(())
}

#[test]
fn numbers_of_lines(rt: HostRuntime) {
    assert!(rt; LINES == 4096 && MOST_HELD == 384);
}
