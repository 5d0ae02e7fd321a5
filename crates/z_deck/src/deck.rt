//! What a deck says.
ghost use Rattle.std.specs.Prelude.{◌≡◌, ℕ, ◌<◌, Some, length, slice_index};
ghost use Rattle.z_regs.specs.Prefix.{storage_size, area_size};

/// What a deck says when it is loaded.
#[derive(Drop)]
pub struct Deck {
    /// All of storage, from address 0 on: 1,048,576 bytes, of which the first 8,192 are zero.
    pub storage: Vec<u8>,
    /// The address where the program enters, if the deck has one, below 1,048,576.
    pub entry: Option<u32>,
    ghost size: { length storage.items ≡ storage_size },
    ghost low: { (address : ℕ) → address < area_size → slice_index storage.items address ≡ 0 },
    ghost within: { (address : ℕ) → entry ≡ Some address → address < storage_size },
}
