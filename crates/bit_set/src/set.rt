//! The set, over its words.
ghost use Rattle.std.specs.Prelude.{◌≡◌, ℕ, ◌*◌, ◌<◌, ◌≤◌, ◌↔◌, Bool, true, false, List, length, replicate};
ghost use Rattle.std.specs.Prelude.{slice_set, slice_index_or, nat_lt, if◌then◌else◌, IsTrue, IfOk, IfSome};
ghost use Rattle.std.specs.Prelude.{IfNone, ◌+◌, ◌/◌, ◌%◌, ◌^◌, ◌||◌};
ghost use Rattle.bit_set.specs.Bits.{bits_of, lies_in, IsNext, NoneMarked};
ghost use Rattle.bit_set.specs.Used.{IsZeroOutside};

use crate::word::{has_bit, lowest_from, ones_from, with_bit, with_run, without_bit};
use std::alloc::{AllocError, Global};
use std::marker::Model;

/// A set of the numbers below a multiple of 64, seen as one mark for each of them. The words from `low` on and
/// below `high` are those in use: no other one has a member.
#[derive(Drop)]
pub struct BitSet {
    words: Vec<u64>,
    low: usize,
    high: usize,
}

impl Model for BitSet {
    ghost use Rattle.std.specs.Prelude.{Bool, List};
    ghost use Rattle.bit_set.specs.Bits.{bits_of};
    ghost use Rattle.bit_set.specs.Used.{IsKept};

    ghost Value = { List Bool };

    ghost view = { λ s. bits_of s.words.items };

    ghost invariant = { λ s. IsKept s.words.items s.low s.high };
}

impl BitSet {
    /// The empty set, with room for the numbers below 64 times `words`.
    pub fn open(alloc: Global, words: usize) -> Result<BitSet, AllocError>
        ensures { IfOk result (λ set. set ≡ replicate (64 * words) false) }
    {
        Ok(BitSet {
            words: vec![in alloc; 0; words]?,
            low: words,
            high: 0,
        })
    }

    /// Whether the number is in the set.
    pub fn has(&self, at: usize) -> bool
        requires { at < length self.now }
        ensures { result ≡ slice_index_or self.now at false }
    {
        has_bit(self.words[at / 64], (at % 64) as u32)
    }

    /// Adds a number.
    pub fn insert(&mut self, at: usize)
        requires { at < length self.old }
        ensures { self.new ≡ slice_set self.old at true }
    {
        let word = &mut self.words[at / 64];
        *word = with_bit(*word, (at % 64) as u32);
        self.low = self.low.min(at / 64);
        self.high = self.high.max(at / 64 + 1);
    }

    /// Adds the numbers from `from` on and below `end`.
    #[inline(always)]
    pub fn insert_run(&mut self, from: usize, end: usize)
        requires order { from ≤ end }
        requires within { end ≤ length self.old }
        ensures size { length self.new ≡ length self.old }
        ensures marks { (k : ℕ) → slice_index_or self.new k false
            ≡ (slice_index_or self.old k false || lies_in from end k) }
    {
        if from < end && from / 64 == (end - 1) / 64 {
            self.insert_in_word(from, end);
        } else {
            self.insert_in_words(from, end);
        }
    }

    /// Adds the numbers from `from` on and below `end`, word by word.
    #[inline(never)]
    fn insert_in_words(&mut self, from: usize, end: usize)
        requires order { from ≤ end }
        requires within { end ≤ length self.old }
        ensures size { length self.new ≡ length self.old }
        ensures marks { (k : ℕ) → slice_index_or self.new k false
            ≡ (slice_index_or self.old k false || lies_in from end k) }
    {
        let mut at = from;
        while at < end {
            let stop = at + (64 - at % 64).min(end - at);
            self.insert_in_word(at, stop);
            at = stop;
        }
    }

    /// Adds the numbers of one word from `from` on and below `end`.
    #[inline(always)]
    pub fn insert_in_word(&mut self, from: usize, end: usize)
        requires some { from < end }
        requires word { end ≤ from / 64 * 64 + 64 }
        requires within { end ≤ length self.old }
        ensures size { length self.new ≡ length self.old }
        ensures marks { (k : ℕ) → slice_index_or self.new k false
            ≡ (slice_index_or self.old k false || lies_in from end k) }
    {
        let word = &mut self.words[from / 64];
        *word = with_run(*word, (from % 64) as u32, (end - from / 64 * 64) as u32);
        self.low = self.low.min(from / 64);
        self.high = self.high.max(from / 64 + 1);
    }

    /// Takes a number away.
    pub fn remove(&mut self, at: usize)
        requires { at < length self.old }
        ensures { self.new ≡ slice_set self.old at false }
    {
        let word = &mut self.words[at / 64];
        *word = without_bit(*word, (at % 64) as u32);
    }

    /// Adds a number or takes it away.
    pub fn put(&mut self, at: usize, member: bool)
        requires { at < length self.old }
        ensures { self.new ≡ slice_set self.old at member }
    {
        if member {
            self.insert(at)
        } else {
            self.remove(at)
        }
    }

    /// Takes all numbers away. Only words in use are written.
    pub fn clear(&mut self)
        ensures { self.new ≡ replicate (length self.old) false }
    {
        zero(&mut self.words, self.low, self.high);
        self.low = self.words.len();
        self.high = 0;
    }

    /// Makes this set equal to one of the same room.
    pub fn copy_from(&mut self, other: &BitSet)
        requires { length self.old ≡ length other.now }
        ensures { self.new ≡ other.now }
    {
        self.words.copy_from_slice(&other.words);
        self.low = other.low;
        self.high = other.high;
    }

    /// Whether two sets are equal, room included.
    pub fn same(&self, other: &BitSet) -> bool
        ensures { IsTrue result ↔ (self.now ≡ other.now) }
    {
        self.words == other.words
    }

    /// The lowest number of the set from `from` on and below `end`, which most often lies in the word of `from`.
    /// Besides that only words in use are read.
    pub fn next(&self, from: usize, end: usize) -> Option<usize>
        requires { end ≤ length self.now }
        ensures found { IfSome result (λ at. IsNext self.now from end at) }
        ensures none { IfNone result (NoneMarked self.now from end) }
    {
        if end <= from {
            return None;
        }
        match lowest_from(self.words[from / 64], (from % 64) as u32) {
            Some(bit) => below(from / 64 * 64 + bit as usize, end),
            None => self.next_from_word(from / 64 + 1, end),
        }
    }

    /// The lowest number of the set in word `word` or behind it, and below `end`. Only words in use are read.
    #[inline(never)]
    fn next_from_word(&self, word: usize, end: usize) -> Option<usize>
        requires { end ≤ length self.now }
        ensures found { IfSome result (λ at. IsNext self.now (64 * word) end at) }
        ensures none { IfNone result (NoneMarked self.now (64 * word) end) }
    {
        let first = word.max(self.low);
        let past = end.div_ceil(64).min(self.high);
        let at = next_in(&self.words, first, past)?;
        below(at, end)
    }

    /// Whether all numbers from `from` on and below `end` are in the set.
    pub fn has_run(&self, from: usize, end: usize) -> bool
        requires order { from ≤ end }
        requires within { end ≤ length self.now }
        ensures { IsTrue result ↔ ((k : ℕ) → from ≤ k → k < end → slice_index_or self.now k false ≡ true) }
    {
        let mut at = from;
        while at < end {
            let stop = at + (64 - at % 64).min(end - at);
            if !self.has_in_word(at, stop) {
                return false;
            }
            at = stop;
        }
        true
    }

    /// How many numbers of the set follow one another from `at` on, as far as they stand in the word of `at`.
    pub fn run_from(&self, at: usize) -> usize
        requires { at < length self.now }
        ensures word { at % 64 + result ≤ 64 }
        ensures run { (k : ℕ) → at ≤ k → k < at + result → slice_index_or self.now k false ≡ true }
        ensures end { at % 64 + result < 64 → slice_index_or self.now (at + result) false ≡ false }
    {
        ones_from(self.words[at / 64], (at % 64) as u32) as usize
    }

    /// Whether all numbers of one word from `from` on and below `end` are in the set.
    fn has_in_word(&self, from: usize, end: usize) -> bool
        requires some { from < end }
        requires word { end ≤ from / 64 * 64 + 64 }
        requires within { end ≤ length self.now }
        ensures { IsTrue result ↔ ((k : ℕ) → from ≤ k → k < end → slice_index_or self.now k false ≡ true) }
    {
        let word = self.words[from / 64];
        with_run(word, (from % 64) as u32, (end - from / 64 * 64) as u32) == word
    }
}

/// Makes all words zero, of which those from `low` on and below `high` may be others; most often that is one.
fn zero(words: &mut [u64], low: usize, high: usize)
    requires end { high ≤ length words.old }
    requires used { IsZeroOutside words.old low high }
    ensures { words.new ≡ replicate (length words.old) 0 }
{
    match high.saturating_sub(low) {
        0 => {}
        1 => words[low] = 0,
        _ => zero_each(words, low, high),
    }
}

/// Makes all words zero, of which those from `low` on and below `high` may be others, one by one.
#[inline(never)]
fn zero_each(words: &mut [u64], low: usize, high: usize)
    requires end { high ≤ length words.old }
    requires used { IsZeroOutside words.old low high }
    ensures { words.new ≡ replicate (length words.old) 0 }
{
    for at in low..high {
        words[at] = 0;
    }
}

/// The lowest bit that is one in the words from word `first` on and before word `past`.
fn next_in(words: &[u64], first: usize, past: usize) -> Option<usize>
    requires words { past ≤ length words.now }
    requires bits { 64 * past ≤ 2 ^ 64 }
    ensures found { IfSome result (λ at. IsNext (bits_of words.now) (64 * first) (64 * past) at) }
    ensures none { IfNone result (NoneMarked (bits_of words.now) (64 * first) (64 * past)) }
{
    'words: for at in first..past {
        if let Some(bit) = lowest_from(words[at], 0) {
            return Some(at * 64 + bit as usize);
        }
    }
    None
}

/// The number, where it is below `end`.
fn below(at: usize, end: usize) -> Option<usize>
    ensures { result ≡ (if nat_lt at end then Some at else None) }
{
    if at < end { Some(at) } else { None }
}
