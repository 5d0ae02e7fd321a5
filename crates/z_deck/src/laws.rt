//! What holds of all decks. Each law is the contract of a function that does nothing.
ghost use Rattle.std.specs.Prelude.{◌≡◌, ℕ, ◌⊎◌, List, Option, Some};
ghost use Rattle.tx_journal.specs.Content.{Content};
ghost use Rattle.tx_journal.specs.Image.{IsImage};
ghost use Rattle.z_deck.specs.Reading.{IsDeck, FirstFault};
ghost use Rattle.z_deck.specs.Ways.{HasDeck, HasFault};
ghost use Rattle.z_deck.specs.Writing.{deck_of_image, first_entry};
ghost use Rattle.z_deck.specs.declared.fault.Kind.{Kind};

/// Bytes are a deck or have a first fault, never both, and only one: one storage with one entry, or one card
/// with one kind.
pub fn bytes_are_one_of_two()
    ensures one { (bytes : List ℕ) (origin : ℕ) → HasDeck bytes origin ⊎ HasFault bytes origin }
    ensures not_both { (bytes storage : List ℕ) (origin number : ℕ) (entry : Option ℕ) (kind : Kind)
        → IsDeck bytes origin storage entry → FirstFault bytes origin number kind → ⊥ }
    ensures one_deck { (bytes some others : List ℕ) (origin : ℕ) (entry other : Option ℕ)
        → IsDeck bytes origin some entry → IsDeck bytes origin others other
        → (some ≡ others) × (entry ≡ other) }
    ensures one_fault { (bytes : List ℕ) (origin number other : ℕ) (kind another : Kind)
        → FirstFault bytes origin number kind → FirstFault bytes origin other another
        → (number ≡ other) × (kind ≡ another) }
{}

/// What is written of an image is read as its storage and the entry of its CPU 0.
pub fn what_is_written_is_read()
    ensures { (image : Content) → IsImage image
        → IsDeck (deck_of_image image) 0 image.storage (Some (first_entry image.cpus)) }
{}
