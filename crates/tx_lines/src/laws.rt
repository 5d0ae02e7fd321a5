//! Laws of lines, each the contract of a function that does nothing.
ghost use Rattle.std.specs.Prelude.{◌≡◌, ℕ, List, map};
ghost use Rattle.line_table.specs.Holders.{Holders, against};
ghost use Rattle.line_table.specs.declared.table.Mode.{Mode};
ghost use Rattle.tx_footprint.specs.Touched.{Sets};
ghost use Rattle.tx_meaning.specs.declared.asking.Need.{Need};
ghost use Rattle.tx_meaning.specs.Changes.{granting, spare_line};
ghost use Rattle.tx_lines.specs.Next.{passing_from, stands_against};
ghost use Rattle.tx_lines.specs.Spare.{granted, lowest_spare};

/// The line that is given up, and what a grant leaves, are those of the machine over events; they depend on the
/// needed lines alone, and not on how these are needed.
pub fn grants_are_those_of_the_machine()
    ensures spare { (held : Holders) (cpu : ℕ) (footprint : Sets) (needs : List Need)
        → lowest_spare held cpu footprint (map (λ need. need.line) needs)
        ≡ spare_line held cpu footprint needs }
    ensures grant { (cpu : ℕ) (footprint : Sets) (needs : List Need) (need : Need) (held : Holders)
        → granted cpu footprint (map (λ need. need.line) needs) need held
        ≡ granting cpu footprint needs need held }
{}

/// The CPUs that stand against a request, from the first on, are all of them.
pub fn the_search_meets_all()
    ensures { (cpus : ℕ) (held : Holders) (cpu line : ℕ) (wanted : Mode)
        → passing_from (stands_against held cpu line wanted) cpus 0 ≡ against cpus held cpu line wanted }
{}
