//! What the first reading of the lines leaves.
ghost use Rattle.std.specs.Prelude.{◌≡◌, ◌≤◌, length};
ghost use Rattle.z_regs.specs.Prefix.{storage_size};

use crate::works::Works;
use z_text::Labels;

/// The bytes of storage.
pub const SIZE: usize = 1_048_576;

/// The first byte that may be placed or shown.
pub const FIRST_BYTE: usize = 8_192;

/// Where the location begins.
pub const FIRST_LOCATION: usize = 16_384;

/// The most CPUs.
pub const MOST_CPUS: u32 = 16;

/// What the lines so far have made.
#[derive(Drop)]
pub struct Draft<'a> {
    /// The location.
    pub here: usize,
    /// The labels and their values.
    pub labels: Labels,
    /// The bytes of storage.
    pub storage: Vec<u8>,
    /// Which bytes are placed.
    pub taken: Vec<bool>,
    /// Where instructions start.
    pub begins: Vec<bool>,
    /// Whether END was there.
    pub ended: bool,
    /// How many CPU lines there are.
    pub cpus: u32,
    /// The lines that are read again.
    pub works: Works<'a>,
    ghost within: { here ≤ storage_size },
    ghost bytes: { length storage.items ≡ storage_size },
    ghost marks: { length taken.items ≡ storage_size },
    ghost starts: { length begins.items ≡ storage_size },
    ghost few: { cpus ≤ 16 },
}
