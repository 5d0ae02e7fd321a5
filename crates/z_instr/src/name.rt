//! The names of operations.
ghost use Rattle.std.specs.Prelude.{◌≡◌, List, ℕ, take, length, ◌≤◌};
ghost use Rattle.std.specs.Str.{IsAscii};

use std::marker::Model;

/// A mnemonic: at most eight ASCII bytes, which contracts see as their list.
#[derive(Drop)]
pub struct Name {
    letters: [u8; 8],
    count: u8,
}

impl Model for Name {
    ghost Value = { List ℕ };

    ghost view = { λ n. take n.count n.letters };

    ghost invariant = { λ n. (n.count ≤ 8) × IsAscii (take n.count n.letters) };
}

impl Name {
    /// The name of the first `count` letters.
    pub fn new(letters: [u8; 8], count: u8) -> Name
        requires count { count ≤ 8 }
        requires ascii { IsAscii (take count letters) }
        ensures { result ≡ take count letters }
    {
        Name { letters, count }
    }

    /// The bytes of the name.
    pub fn bytes(&self) -> &[u8]
        ensures bytes { result.now ≡ self.now }
        ensures count { length result.now ≤ 8 }
        ensures ascii { IsAscii result.now }
    {
        &self.letters[..self.count as usize]
    }
}
