//! What holds of prefixes, and of program status words. Each law is the contract of a function that does
//! nothing.
ghost use Rattle.std.specs.Prelude.{◌≡◌, ◌<◌, ◌≤◌, ◌/◌, ◌%◌, ◌↔◌, ℕ, true, List, Option, length, get_or, map};
ghost use Rattle.std.specs.List.{flat_map};
ghost use Rattle.z_regs.specs.declared.ranges.Range.{Range};
ghost use Rattle.z_regs.specs.declared.image.RunState.TheVariants.{Running};
ghost use Rattle.z_regs.specs.Cpu.{Cpu};
ghost use Rattle.z_regs.specs.Psw.{HasFields, psw_of, loaded};
ghost use Rattle.z_regs.specs.Prefix.{storage_size, area_size, is_prefix, absolute_of};
ghost use Rattle.z_regs.specs.declared.prefix.TheConstants.{STORAGE_SIZE, AREA_SIZE};
ghost use Rattle.z_regs.specs.Seen.{seen_by};
ghost use Rattle.z_regs.specs.Absolute.{IsAccessible, absolute_range, addresses_of};

/// Storage as a CPU sees it: a byte is that of storage at the absolute address, and seen twice storage is as
/// it is.
pub fn areas_change_places()
    ensures byte { (prefix : Option ℕ) (s : List ℕ) (a : ℕ) → is_prefix prefix ≡ true →
        length s ≡ storage_size → a < storage_size →
        get_or (seen_by prefix s) a 0 ≡ get_or s (absolute_of prefix a) 0 }
    ensures twice { (prefix : Option ℕ) (s : List ℕ) → is_prefix prefix ≡ true → length s ≡ storage_size →
        seen_by prefix (seen_by prefix s) ≡ s }
    ensures address { (prefix : Option ℕ) (a : ℕ) → is_prefix prefix ≡ true →
        absolute_of prefix (absolute_of prefix a) ≡ a }
{}

/// The absolute ranges of an operand have its bytes, in order; there are at most two of them, and one for a
/// doubleword on its boundary.
pub fn ranges_keep_their_bytes()
    ensures bytes { (prefix : Option ℕ) (r : Range) → is_prefix prefix ≡ true → IsAccessible prefix r →
        flat_map addresses_of (absolute_range prefix r) ≡ map (absolute_of prefix) (addresses_of r) }
    ensures few { (prefix : Option ℕ) (r : Range) → length (absolute_range prefix r) ≤ 2 }
    ensures doubleword { (prefix : Option ℕ) (r : Range) → r.first % 8 ≡ 0 → r.length ≤ 8 →
        length (absolute_range prefix r) ≡ 1 }
{}

/// Two bytes lie in one octoword, or in one page, by real addresses exactly where they do by absolute ones.
pub fn octowords_and_pages_stay()
    ensures octoword { (prefix : Option ℕ) (a b : ℕ) → is_prefix prefix ≡ true →
        (absolute_of prefix a / 32 ≡ absolute_of prefix b / 32) ↔ (a / 32 ≡ b / 32) }
    ensures page { (prefix : Option ℕ) (a b : ℕ) → is_prefix prefix ≡ true →
        (absolute_of prefix a / 4096 ≡ absolute_of prefix b / 4096) ↔ (a / 4096 ≡ b / 4096) }
{}

/// A program status word gives back the condition code, the mask and the address of which it was made, and
/// the CPU runs.
pub fn a_psw_loads_back()
    ensures { (c d : Cpu) → HasFields d →
        loaded (psw_of d) c ≡
        record c { condition = d.condition; mask = d.mask; address = d.address; state = Running } }
{}

/// The numbers of the code are those of the definitions.
pub fn sizes_are_the_defined_ones()
    ensures storage { STORAGE_SIZE ≡ storage_size }
    ensures area { AREA_SIZE ≡ area_size }
{}
