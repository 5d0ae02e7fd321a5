//! Laws of constraints, each the contract of a function that does nothing.
ghost use Rattle.std.specs.Prelude.{◌≡◌, ◌≤◌, ◌<◌, ◌/◌, ◌↔◌, ℕ, nat_eq, true, All, List, [], length, count_by};
ghost use Rattle.std.specs.List.{list_any, flat_map, range_with_len};
ghost use Rattle.z_regs.specs.declared.ranges.Range.{Range};
ghost use Rattle.tx_constraint.specs.Bytes.{pieces, lies_in_one, is_own_page};
ghost use Rattle.z_regs.specs.Rising.{Ascends};
ghost use Rattle.tx_constraint.specs.Octowords.{with_octowords};
ghost use Rattle.tx_constraint.specs.Constraints.{Attempt, Step, begun, with_step, text_breach, operand_breach, GoesOn};
ghost use Rattle.tx_constraint.specs.Kept.{kept, kept_at, added, next_text_breach, next_operand_breach};

/// What is kept of an attempt is what its instructions say, as it begins and with each one more; and while
/// the attempt goes on, the constraints that one more instruction would break are the same by what is kept
/// and by all that was run.
pub fn the_list_decides()
    ensures begins { (begin : ℕ) → kept (begun begin) ≡ kept_at begin }
    ensures adds { (a : Attempt) (s : Step) → kept (with_step a s) ≡ added (kept a) s.ranges }
    ensures text { (a : Attempt) (s : Step) → GoesOn a →
        text_breach (with_step a s) ≡ next_text_breach (kept a) s.instruction s.at }
    ensures operands { (a : Attempt) (s : Step) → GoesOn a →
        operand_breach (with_step a s) ≡ next_operand_breach (kept a) s.instruction s.ranges }
    ensures few { (a : Attempt) → GoesOn a → (kept a).count ≤ 32 }
    ensures octowords { (a : Attempt) → GoesOn a → length (kept a).octowords ≤ 4 }
{}

/// The octowords of operands are those that hold a byte of them, each once, in ascending order. So where two lists of
/// operands lie in the same octowords, whichever came first, what is kept of them is the same.
pub fn octowords_are_counted_once()
    ensures members { (ranges : List Range) (octoword : ℕ) →
        list_any (nat_eq octoword) (with_octowords [] ranges) ≡
        list_any (nat_eq octoword) (flat_map (pieces 32) ranges) }
    ensures once { (ranges : List Range) (octoword : ℕ) →
        count_by (nat_eq octoword) (with_octowords [] ranges) ≤ 1 }
    ensures ascending { (ranges : List Range) → Ascends (with_octowords [] ranges) }
    ensures same { (ranges others : List Range) → ((octoword : ℕ) →
        list_any (nat_eq octoword) (flat_map (pieces 32) ranges) ≡
        list_any (nat_eq octoword) (flat_map (pieces 32) others)) →
        with_octowords [] ranges ≡ with_octowords [] others }
{}

/// The pages that operands must not touch are those that hold any of the 256 bytes.
pub fn pages_are_those_of_the_bytes()
    ensures { (begin page : ℕ) →
        is_own_page begin page ≡
        list_any (λ address. nat_eq page (address / 4096)) (range_with_len begin 256) }
{}

/// An operand with bytes lies in one doubleword, or in one octoword, exactly where all its bytes do.
pub fn units_hold_all_bytes()
    ensures doubleword { (r : Range) → 0 < r.length → (lies_in_one 8 r ≡ true) ↔
        All (λ piece. piece ≡ r.first / 8) (pieces 8 r) }
    ensures octoword { (r : Range) → 0 < r.length → (lies_in_one 32 r ≡ true) ↔
        All (λ piece. piece ≡ r.first / 32) (pieces 32 r) }
{}
