//! What holds of all inputs. The law is the contract of a function that does nothing.
ghost use Rattle.std.specs.Prelude.{◌≡◌, ℕ, List};
ghost use Rattle.input_parts.specs.Parts.{HasPieces, IsParted, Pieces};

/// Whatever the mark, each input consists of some pieces, and of no others.
pub fn an_input_is_parted_in_one_way()
    ensures some { (mark input : List ℕ) → HasPieces mark input }
    ensures one { (mark input : List ℕ) (p q : Pieces) → IsParted mark input p → IsParted mark input q → p ≡ q }
{}
