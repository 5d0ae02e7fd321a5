//! A line of a text, and what is kept of one that is read again.
ghost use Rattle.std.specs.Prelude.{◌≤◌};
ghost use Rattle.z_reading.specs.Sizes.{IsPlaced, placed_prop};
ghost use Rattle.z_regs.specs.Prefix.{storage_size};

use z_operands::Operation;

/// A line of a text, as the first reading has it.
#[derive(Clone, Copy, Debug)]
pub struct TextLine<'a> {
    /// The number of the line, from 1 on.
    pub number: u32,
    /// The place of its first byte in the text.
    pub first: u32,
    /// The line, in capitals and without its end.
    pub bytes: &'a [u8],
}

/// A line that is read again when all labels are known, in twenty bytes: it is kept by its place in the text.
#[derive(Clone, Copy, Debug)]
pub struct Kept {
    /// The number of the line, from 1 on.
    pub line: u32,
    /// The location where it stands.
    pub here: u32,
    /// The place of its first byte in the text.
    pub first: u32,
    /// The line's operation.
    pub operation: Operation,
    /// How many bytes it has, without its end.
    pub count: u8,
    ghost within: { here ≤ storage_size },
    ghost room: { IsPlaced here operation } by { placed_prop here operation },
}

/// A line that is read again, with its text.
#[derive(Clone, Copy, Debug)]
pub struct Work<'a> {
    /// The number of the line, from 1 on.
    pub line: u32,
    /// The location where it stands.
    pub here: u32,
    /// The line, in capitals and without its end.
    pub text: &'a [u8],
    /// The line's operation.
    pub operation: Operation,
    ghost within: { here ≤ storage_size },
    ghost room: { IsPlaced here operation } by { placed_prop here operation },
}
