//! One word of 64 bits.

ghost use Rattle.std.specs.Prelude.{◌≡◌, ◌≢◌, ℕ, ◌+◌, ◌<◌, ◌≤◌, true, false, ◌||◌, IfSome, IfNone};
ghost use Rattle.bit_set.specs.Bits.{bit, lies_in, IsLowestBit};

/// Whether bit `at` of the word is one.
pub fn has_bit(word: u64, at: u32) -> bool
    requires { at < 64 }
    ensures { result ≡ bit word at }
{
    word & (1 << at) != 0
}

/// The word with bit `at` set to one.
pub fn with_bit(word: u64, at: u32) -> u64
    requires { at < 64 }
    ensures set { bit result at ≡ true }
    ensures others { (i : ℕ) → i < 64 → i ≢ at → bit result i ≡ bit word i }
{
    word | (1 << at)
}

/// The word with the bits from `from` on and below `end` set to one.
pub fn with_run(word: u64, from: u32, end: u32) -> u64
    requires some { from < end }
    requires within { end ≤ 64 }
    ensures { (i : ℕ) → i < 64 → bit result i ≡ (bit word i || lies_in from end i) }
{
    let run = (u64::MAX << from) & (u64::MAX >> (64 - end));
    word | run
}

/// The word with bit `at` set to zero.
pub fn without_bit(word: u64, at: u32) -> u64
    requires { at < 64 }
    ensures cleared { bit result at ≡ false }
    ensures others { (i : ℕ) → i < 64 → i ≢ at → bit result i ≡ bit word i }
{
    word & !(1 << at)
}

/// The lowest bit from `from` on that is one.
pub fn lowest_from(word: u64, from: u32) -> Option<u32>
    requires { from < 64 }
    ensures found { IfSome result (λ at. IsLowestBit word from at) }
    ensures none { IfNone result ((i : ℕ) → from ≤ i → i < 64 → bit word i ≡ false) }
{
    let high = word & (u64::MAX << from);
    if high == 0 {
        None
    } else {
        Some(high.trailing_zeros())
    }
}

/// How many bits of the word from `from` on are one, one after another.
pub fn ones_from(word: u64, from: u32) -> u32
    requires { from < 64 }
    ensures within { from + result ≤ 64 }
    ensures ones { (i : ℕ) → from ≤ i → i < from + result → bit word i ≡ true }
    ensures end { from + result < 64 → bit word (from + result) ≡ false }
{
    match lowest_from(!word, from) {
        Some(at) => at - from,
        None => 64 - from,
    }
}
