//! Where things are drawn, in pixels.
ghost use Rattle.std.specs.Prelude.{◌≡◌, ◌+◌, ◌*◌};

/// Left of the first column.
pub const LEFT: u64 = 64;

/// The width of a column.
pub const COLUMN: u64 = 48;

/// Above the first lane.
pub const TOP: u64 = 52;

/// The height of a lane.
pub const LANE: u64 = 60;

/// The height of an entry's row.
pub const ROW: u64 = 18;

/// The left edge of a column.
pub fn column_x(column: u32) -> u64
    ensures { result ≡ 64 + 48 * column }
{
    LEFT + COLUMN * u64::from(column)
}

/// The upper edge of a CPU's lane; the history's is behind the last.
pub fn lane_y(cpu: u32) -> u64
    ensures { result ≡ 52 + 60 * cpu }
{
    TOP + LANE * u64::from(cpu)
}

/// The upper edge of an entry, for so many CPUs.
pub fn entry_y(cpus: u32, row: u32) -> u64
    ensures { result ≡ 62 + 60 * cpus + 18 * row }
{
    lane_y(cpus) + 10 + ROW * u64::from(row)
}

/// The address of the first byte of a line.
pub fn address_of(line: u32) -> u64
    ensures { result ≡ 256 * line }
{
    256 * u64::from(line)
}
