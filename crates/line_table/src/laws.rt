//! Laws of line tables, each the contract of a function that does nothing.

ghost use Rattle.std.specs.Prelude.{◌≡◌, ◌≢◌, ℕ, ◌<◌, ◌≤◌, ◌↔◌, Bool, true, false, List, length, Contains};
ghost use Rattle.std.specs.Prelude.{Some, None, is_some};
ghost use Rattle.std.specs.List.Sorted.{IsStrictlyIncreasing};
ghost use Rattle.bit_set.specs.Counts.{count_below};
ghost use Rattle.line_table.specs.Holders.{Holders, against, is_against, lines_held, IsOutside};
ghost use Rattle.line_table.specs.declared.table.Mode.{Mode};
ghost use Rattle.line_table.specs.declared.table.TheConstants.{LINES, MOST_HELD};
ghost use Rattle.line_table.specs.Sizes.{storage_lines, held_limit};

/// The list of those that stand against a request has just the other CPUs whose hold does, in rising
/// order.
pub fn against_lists_the_others()
    ensures members { (cpus : ℕ) (held : Holders) (cpu line : ℕ) (wanted : Mode) (other : ℕ)
        → Contains (against cpus held cpu line wanted) other
        ↔ ((other < cpus) × (other ≢ cpu) × (is_against wanted (held other line) ≡ true)) }
    ensures rising { (cpus : ℕ) (held : Holders) (cpu line : ℕ) (wanted : Mode)
        → IsStrictlyIncreasing (against cpus held cpu line wanted) }
{}

/// A CPU that holds more lines than are kept holds one that is not kept. So a CPU that holds as many
/// lines as it may, keeps no more, and keeps one that it does not hold yet, has a line to give up.
pub fn holds_a_line_outside()
    ensures of_fewer { (held : Holders) (cpu : ℕ) (kept : ℕ → Bool)
        → count_below storage_lines kept < lines_held held cpu → (line : ℕ) × IsOutside held cpu kept line }
    ensures for_one_more { (held : Holders) (cpu wanted : ℕ) (kept : ℕ → Bool)
        → held_limit ≤ lines_held held cpu → count_below storage_lines kept ≤ held_limit
        → wanted < storage_lines
        → kept wanted ≡ true → held cpu wanted ≡ None → (line : ℕ) × IsOutside held cpu kept line }
{}

/// The numbers of the code are those of the definitions.
pub fn sizes_are_the_defined_ones()
    ensures lines { LINES ≡ storage_lines }
    ensures held { MOST_HELD ≡ held_limit }
{}
