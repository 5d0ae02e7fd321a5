//! Laws of footprints, each the contract of a function that does nothing.

ghost use Rattle.std.specs.Prelude.{◌≡◌, ℕ, ◌+◌, ◌*◌, ◌/◌, ◌<◌, ◌≤◌, ◌↔◌, Bool, true, ◌||◌, List, ◌++◌};
ghost use Rattle.bit_set.specs.Counts.{count_below};
ghost use Rattle.z_regs.specs.declared.ranges.Range.{Range};
ghost use Rattle.line_table.specs.Sizes.{storage_lines};
ghost use Rattle.tx_footprint.specs.Places.{has_place};
ghost use Rattle.tx_footprint.specs.Sizes.{line_size, block_size, storage_blocks, line_limit, block_limit};
ghost use Rattle.tx_footprint.specs.Touched.{Sets, line_count, touching};
ghost use Rattle.tx_footprint.specs.declared.footprint.TheConstants.{MOST_LINES, MOST_BLOCKS};
ghost use Rattle.tx_footprint.specs.declared.places.TheConstants.{LINE_SIZE, BLOCK_SIZE, BLOCKS};

/// A range has a place exactly where one of its addresses lies there.
pub fn has_the_places_of_its_addresses()
    ensures { (size : ℕ) (r : Range) (place : ℕ)
        → (has_place size r place ≡ true)
        ↔ ((address : ℕ) × (r.first ≤ address) × (address < r.first + r.length)
        × (address / size ≡ place)) }
{}

/// A line that is both fetched and stored is counted once: there are no more lines than fetched and
/// stored ones together, and as many as there are lines of either kind alone where they are the same.
pub fn counts_a_line_once()
    ensures at_most { (sets : Sets)
        → line_count sets ≤ count_below storage_lines sets.fetched + count_below
        storage_lines sets.stored }
    ensures once { (sets : Sets) → sets.fetched ≡ sets.stored
        → line_count sets ≡ count_below storage_lines sets.stored }
{}

/// Ranges that are touched in turn leave what all of them together do.
pub fn adds_in_turn()
    ensures { (sets : Sets) (first second : List Range)
        → touching (touching sets first) second ≡ touching sets (first ++ second) }
{}

/// The numbers of the code are those of the definitions.
pub fn sizes_are_the_defined_ones()
    ensures line { LINE_SIZE ≡ line_size }
    ensures block { BLOCK_SIZE ≡ block_size }
    ensures blocks { BLOCKS ≡ storage_blocks }
    ensures most_lines { MOST_LINES ≡ line_limit }
    ensures most_blocks { MOST_BLOCKS ≡ block_limit }
{}
