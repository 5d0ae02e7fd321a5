//! The listing in an input, and what begins at a mark.
ghost use Rattle.std.specs.Prelude.{◌≡◌, ◌++◌};
ghost use Rattle.input_parts.specs.Parts.{IsParted};
ghost use Rattle.input_parts.specs.Views.{pieces_of};

use crate::cutting::cut;

/// What an input consists of.
#[derive(Clone, Copy)]
pub struct Parts<'a> {
    /// What stands before the first line that is the mark, or all.
    pub listing: &'a [u8],
    /// That line and what stands behind it, or nothing.
    pub marked: &'a [u8],
    /// What stands behind that line alone, or nothing.
    pub behind: &'a [u8],
}

/// Parts an input at its first line that is the mark, which is given without a line end.
pub fn part<'a>(input: &'a [u8], mark: &[u8]) -> Parts<'a>
    ensures parted { IsParted mark.now input.now (pieces_of result) }
    ensures whole { input.now ≡ result.listing.now ++ result.marked.now }
{
    let mut from = 0;
    while let Some((line, behind)) = cut(&input[from..], b'\n') {
        if line == mark {
            return Parts {
                listing: &input[..from],
                marked: &input[from..],
                behind,
            };
        }
        from += line.len() + 1;
    }
    let none = &input[input.len()..];
    if &input[from..] == mark {
        return Parts {
            listing: &input[..from],
            marked: &input[from..],
            behind: none,
        };
    }
    Parts {
        listing: input,
        marked: none,
        behind: none,
    }
}
