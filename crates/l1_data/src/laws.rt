//! Laws of copies, each the contract of a function that does nothing.
ghost use Rattle.std.specs.Prelude.{◌≡◌};
ghost use Rattle.l1_data.specs.Sizes.{storage_lines, line_size, copy_limit};
ghost use Rattle.l1_data.specs.declared.copies.TheConstants as code;

/// The numbers of the code are those of the definitions.
pub fn sizes_are_the_defined_ones()
    ensures lines { code.LINES ≡ storage_lines }
    ensures size { code.LINE_SIZE ≡ line_size }
    ensures most { code.MOST_COPIES ≡ copy_limit }
{}
