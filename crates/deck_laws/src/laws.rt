//! Laws of decks. Each is the contract of a function that does nothing.
ghost use Rattle.std.specs.Prelude.{◌≡◌, ◌↔◌, ℕ, List, Option, Some, ◌++◌, AllPairs};
ghost use Rattle.std.specs.List.{concat};
ghost use Rattle.tx_journal.specs.Content.{Content};
ghost use Rattle.tx_journal.specs.Image.{IsImage};
ghost use Rattle.z_deck.specs.Reading.{IsDeck};
ghost use Rattle.z_deck.specs.Writing.{deck_of_image, end_card, first_entry, piece_count, text_cards};
ghost use Rattle.deck_laws.specs.Alike.{AreAlike, AllAlike};
ghost use Rattle.deck_laws.specs.Assembled.{IsKept, IsAssembled};
ghost use Rattle.deck_laws.specs.Texts.{AreApart, AreBytes, NameSamePlaces, texts_in};
ghost use Rattle.deck_laws.specs.Written.{ArePieces, HasWrittenShape, written_cards};

/// The listing of a deck stands for an image: it has the deck's storage, and where the deck has an entry, CPU 0
/// enters there.
pub fn deck_listings_are_assembled()
    ensures { (storage : List ℕ) (entry : Option ℕ) → IsKept storage entry → IsAssembled storage entry }
{}

/// Cards that differ in other columns alone than those that their type names are read as the same deck.
pub fn other_columns_are_not_looked_at()
    ensures { (bytes : List ℕ) (origin : ℕ) (storage : List ℕ) (entry : Option ℕ)
        → (deck : IsDeck bytes origin storage entry) → (cards : List (List ℕ)) (last : List ℕ)
        → AllAlike deck.cards cards → AreAlike deck.last last
        → IsDeck (concat cards ++ last) origin storage entry }
{}

/// Two decks of bytes whose texts name the same places in the same order, none over another, are read at one
/// origin as the same storage and entry exactly where their texts and their cards of the end are alike: the
/// counted bytes and the entry tell such decks apart.
pub fn texts_tell_decks_apart()
    ensures { (bytes others : List ℕ) (origin : ℕ) (storage another : List ℕ) (entry other : Option ℕ)
        → (deck : IsDeck bytes origin storage entry) → (twin : IsDeck others origin another other)
        → AreBytes bytes → AreBytes others → NameSamePlaces (texts_in deck.cards) (texts_in twin.cards)
        → AllPairs (AreApart origin) (texts_in deck.cards)
        → ((storage ≡ another) × (entry ≡ other))
        ↔ (AllAlike (texts_in deck.cards) (texts_in twin.cards) × AreAlike deck.last twin.last) }
{}

/// What is written of an image has the written shape: a section, and texts of pieces of 56 bytes that are
/// not all zero, in rising order (`cards`, `shape`), so no text lies over another (`apart`). No other deck of
/// bytes of this shape, at origin 0, is read as the image's storage and the entry of its CPU 0: its cards are
/// alike to the written ones, one by one (`one`). Where sections stand elsewhere or nowhere, its texts and
/// its card of the end are (`texts`).
pub fn one_deck_of_the_written_shape()
    ensures cards { (image : Content)
        → deck_of_image image ≡ concat (written_cards image) ++ end_card (first_entry image.cpus) }
    ensures shape { (image : Content) → IsImage image → HasWrittenShape (written_cards image) }
    ensures apart { (image : Content) → IsImage image
        → AllPairs (AreApart 0) (texts_in (written_cards image)) }
    ensures one { (image : Content) → IsImage image → (bytes : List ℕ)
        → (deck : IsDeck bytes 0 image.storage (Some (first_entry image.cpus))) → AreBytes bytes
        → HasWrittenShape deck.cards
        → AllAlike (written_cards image) deck.cards × AreAlike (end_card (first_entry image.cpus)) deck.last }
    ensures texts { (image : Content) → IsImage image → (bytes : List ℕ)
        → (deck : IsDeck bytes 0 image.storage (Some (first_entry image.cpus))) → AreBytes bytes
        → ArePieces 0 (texts_in deck.cards)
        → AllAlike (text_cards piece_count image.storage) (texts_in deck.cards)
        × AreAlike (end_card (first_entry image.cpus)) deck.last }
{}
