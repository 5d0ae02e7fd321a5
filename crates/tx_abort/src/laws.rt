//! Laws of aborts, each the contract of a function that does nothing.
ghost use Rattle.std.specs.Prelude.{◌≡◌, ◌<◌, ◌≤◌, ◌/◌, ℕ, List, length, get_or, count_by, Contains, true, false};
ghost use Rattle.tx_control.specs.declared.begins.Begin.{Begin};
ghost use Rattle.tx_control.specs.declared.causes.Why.{Why};
ghost use Rattle.tx_abort.specs.Block.{Field, fields, has, byte_in, block};
ghost use Rattle.z_regs.specs.Pairs.{saves_pair};
ghost use Rattle.tx_abort.specs.Registers.{restored};

/// The block has 256 bytes. Each of them belongs to at most one field, and is that field's; a byte that
/// belongs to none is zero.
pub fn each_byte_has_one_field()
    ensures size { (why : Why) (nest : List Begin) (general : List ℕ) (at : ℕ) →
        length (block why nest general at) ≡ 256 }
    ensures once { (why : Why) (nest : List Begin) (general : List ℕ) (at k : ℕ) →
        count_by (λ f. has f k) (fields why nest general at) ≤ 1 }
    ensures value { (why : Why) (nest : List Begin) (general : List ℕ) (at k : ℕ) (f : Field) →
        Contains (fields why nest general at) f → has f k ≡ true →
        get_or (block why nest general at) k 0 ≡ byte_in f k }
    ensures zero { (why : Why) (nest : List Begin) (general : List ℕ) (at k : ℕ) →
        count_by (λ f. has f k) (fields why nest general at) ≡ 0 →
        get_or (block why nest general at) k 0 ≡ 0 }
{}

/// Registers come back in whole pairs: with a mask of ones all of them, with a mask of zeros none, and with
/// any mask those outside the selected pairs stay as they are.
pub fn registers_come_back_in_pairs()
    ensures all { (saved general : List ℕ) → length saved ≡ 16 → restored saved 255 general ≡ saved }
    ensures none { (saved general : List ℕ) → length general ≡ 16 → restored saved 0 general ≡ general }
    ensures selected { (saved general : List ℕ) (mask r : ℕ) → r < 16 → saves_pair mask (r / 2) ≡ true →
        get_or (restored saved mask general) r 0 ≡ get_or saved r 0 }
    ensures others { (saved general : List ℕ) (mask r : ℕ) → r < 16 → saves_pair mask (r / 2) ≡ false →
        get_or (restored saved mask general) r 0 ≡ get_or general r 0 }
{}
