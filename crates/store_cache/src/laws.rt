//! Laws of stores over storage, each the contract of a function that does nothing.

ghost use Rattle.std.specs.Prelude.{◌≡◌, ℕ, ◌+◌, ◌*◌, ◌<◌, List, [], ◌∷◌, ◌++◌, length, slice_index};
ghost use Rattle.std.specs.Prelude.{slice_set};
ghost use Rattle.byteorder.specs.Endian.{big_bytes};
ghost use Rattle.store_cache.specs.Overlay.{Overlay, Store, with_one, with_bytes, byte_through};
ghost use Rattle.store_cache.specs.Overlay.{bytes_through, overlay_of, stored_in};
ghost use Rattle.store_cache.specs.Sizes.{block_size, block_doublewords, block_limit, storage_blocks};
ghost use Rattle.store_cache.specs.Stores.{lasting_bytes};
ghost use Rattle.store_cache.specs.declared.cache.TheConstants as code;

/// Stores that go into storage one after the other, in program order, leave what their overlay leaves that is
/// laid over storage once.
pub fn lays_stores_in_program_order()
    ensures { (stores : List Store) (base : List ℕ)
        → stored_in base stores ≡ bytes_through (overlay_of stores) base }
{}

/// Seen through an overlay, there are as many bytes as before, each the last one stored there, else that of
/// the base; and one more store changes the byte of its address.
pub fn one_store_is_seen()
    ensures size { (overlay : Overlay) (base : List ℕ) → length (bytes_through overlay base) ≡ length base }
    ensures byte { (overlay : Overlay) (base : List ℕ) (address : ℕ) → address < length base
        → slice_index (bytes_through overlay base) address ≡ byte_through overlay base address }
    ensures one_more { (overlay : Overlay) (base : List ℕ) (address byte : ℕ)
        → bytes_through (with_one overlay address byte) base
        ≡ slice_set (bytes_through overlay base) address byte }
{}

/// Bytes that are stored together are stored one after the other.
pub fn bytes_are_stored_in_turn()
    ensures none { (overlay : Overlay) (first : ℕ) → with_bytes overlay first [] ≡ overlay }
    ensures one_more { (overlay : Overlay) (first : ℕ) (bytes : List ℕ) (byte : ℕ)
        → with_bytes overlay first (bytes ++ byte ∷ [])
        ≡ with_one (with_bytes overlay first bytes) (first + length bytes) byte }
{}

/// Where a doubleword gets another lasting value, the bytes that last are those of this value there, and the
/// same elsewhere.
pub fn the_last_value_lasts()
    ensures { (lasting : Overlay) (doubleword value : ℕ)
        → lasting_bytes (with_one lasting doubleword value)
        ≡ with_bytes (lasting_bytes lasting) (doubleword * 8) (big_bytes 8 value) }
{}

/// The numbers of the code are those of the definitions.
pub fn sizes_are_the_defined_ones()
    ensures block { code.BLOCK_SIZE ≡ block_size }
    ensures doublewords { code.DOUBLEWORDS ≡ block_doublewords }
    ensures blocks { code.BLOCKS ≡ storage_blocks }
    ensures most { code.MOST_BLOCKS ≡ block_limit }
{}
