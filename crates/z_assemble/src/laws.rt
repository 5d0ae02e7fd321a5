//! What holds of all texts. Each law is the contract of a function that does nothing.
ghost use Rattle.std.specs.Prelude.{◌≡◌, ℕ, List, ◌⊎◌};
ghost use Rattle.tx_journal.specs.Content.{Content};
ghost use Rattle.z_assemble.specs.Whole.{Stands, FirstFault};
ghost use Rattle.z_assemble.specs.declared.fault.ListingFault.{ListingFault};
ghost use Rattle.tx_journal.specs.Image.{IsImage};

/// Each text stands for an image or has a first fault, not both, and only one.
pub fn a_text_is_one_of_two()
    ensures one { (text : List ℕ) → ((image : Content) × Stands text image) ⊎
        ((f : ListingFault) × FirstFault text f) }
    ensures not_both { (text : List ℕ) (image : Content) (f : ListingFault) → Stands text image →
        FirstFault text f → ⊥ }
    ensures one_image { (text : List ℕ) (some other : Content) → Stands text some → Stands text other →
        some ≡ other }
    ensures one_fault { (text : List ℕ) (some other : ListingFault) → FirstFault text some →
        FirstFault text other → some ≡ other }
{}

/// What a text stands for is an image.
pub fn what_stands_is_an_image()
    ensures { (text : List ℕ) (content : Content) → Stands text content → IsImage content }
{}
