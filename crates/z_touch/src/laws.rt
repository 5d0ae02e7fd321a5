//! What the tests of addressing and protection say of bytes. Each law is the contract of a function that does
//! nothing.
ghost use Rattle.std.specs.Prelude.{◌≡◌, ◌<◌, ◌≤◌, ◌+◌, ◌/◌, ◌↔◌, ℕ, List, Option, None, Some, true, nat_eq};
ghost use Rattle.std.specs.List.{list_any};
ghost use Rattle.z_regs.specs.Prefix.{area_size, is_prefix, storage_size};
ghost use Rattle.z_instr.specs.Operands.{Span, IsSmall, is_inside, is_stored_into};
ghost use Rattle.z_instr.specs.Access.{accessible_pages, text_pages};
ghost use Rattle.z_touch.specs.Text.{HasStoredText};

/// An operand passes the test of addressing exactly where all its bytes have addresses below 1,048,576, and
/// from 8,192 on on a CPU without a prefix; so none passes that wraps past 2^64.
pub fn operands_inside_are_accessible()
    ensures without { (s : Span) → IsSmall s → (is_inside (accessible_pages None) s ≡ true) ↔
        ((area_size ≤ s.first) × (s.first + s.length ≤ storage_size)) }
    ensures with_prefix { (p : ℕ) (s : Span) → IsSmall s → (is_inside (accessible_pages (Some p)) s ≡ true) ↔
        (s.first + s.length ≤ storage_size) }
{}

/// An operand fails the test of protection exactly where it is stored and one of its bytes lies, by its
/// absolute address, in a text page.
pub fn text_is_not_stored_into()
    ensures { (prefix : Option ℕ) (text : List ℕ) (s : Span) → is_prefix prefix ≡ true → IsSmall s →
        (is_stored_into (text_pages prefix text) s ≡ true) ↔ HasStoredText prefix text s }
{}
