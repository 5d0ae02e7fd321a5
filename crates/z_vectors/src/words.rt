//! Text that is added to.

use std::alloc::Global;

/// A text. Where memory ran out on the way, it is cut off, and remembers that.
#[derive(Drop)]
pub struct Words {
    text: String,
    is_cut: bool,
}

impl Words {
    /// No words yet.
    pub fn new(alloc: Global) -> Words {
        Words {
            text: String::new(alloc),
            is_cut: false,
        }
    }

    /// Adds words.
    pub fn add(&mut self, words: &str) {
        if self.text.push_str(words).is_err() {
            self.is_cut = true;
        }
    }

    /// Adds a number in decimal.
    pub fn add_decimal(&mut self, number: u64) {
        if write!(self.text, "{number}").is_err() {
            self.is_cut = true;
        }
    }

    /// Adds a number in hexadecimal.
    pub fn add_hexadecimal(&mut self, number: u64) {
        if write!(self.text, "{number:x}").is_err() {
            self.is_cut = true;
        }
    }

    /// Adds two hexadecimal digits for each byte.
    pub fn add_bytes(&mut self, bytes: &[u8]) {
        for byte in bytes {
            self.add_hexadecimal(u64::from(*byte / 16));
            self.add_hexadecimal(u64::from(*byte % 16));
        }
    }

    /// Takes all words away.
    pub fn clear(&mut self) {
        self.text.clear();
    }

    /// Notes that there was no memory for words.
    pub fn cut_off(&mut self) {
        self.is_cut = true;
    }

    /// Whether memory ran out for some words since the first ones.
    pub fn is_cut(&self) -> bool {
        self.is_cut
    }

    /// The words.
    pub fn as_str(&self) -> &str {
        self.text.as_str()
    }
}
