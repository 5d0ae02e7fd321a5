//! Labels with their values.
ghost use Rattle.std.specs.Prelude.{◌≡◌, ◌^◌, ◌-◌, pos, negsuc, ◌≤ℤ◌};

use crate::expected::Expected;
use crate::fields::is_name;
use crate::key::key_of;
use crate::value::LabelValue;
use std::alloc::{AllocError, Global};
use std::collections::BTreeMap;
use z_regs::NoMemory;

/// Labels and their values, from -2^63 to 2^64 - 1: a finite map from names to values.
#[derive(Drop)]
pub struct Labels {
    alloc: Global,
    /// Those of names that are expected.
    expected: Expected,
    /// Those of other names.
    others: BTreeMap<Vec<u8>, LabelValue>,
}

impl Labels {
    ghost use Rattle.std.specs.Prelude.{ℕ, List, Option, Some, None, IfOk, IfSome, OnOk, OnErr, is_none};
    ghost use Rattle.std.specs.Prelude.{if◌then◌else◌, ◌<◌, length};
    ghost use Rattle.std.specs.Str.{bytes_eq};
    ghost use Rattle.z_text.specs.Labels.{value_in, place_in, value_of};

    /// No labels. Memory for those that are added comes from the allocator.
    #[tactic(auto, unfolding(crate::specs::Labels::value_in, crate::specs::Labels::place_in))]
    pub fn new(alloc: Global) -> Labels
        ensures { (name : List ℕ) → value_in result name ≡ None }
    {
        Labels {
            alloc,
            expected: Expected::none(alloc),
            others: BTreeMap::new(alloc),
        }
    }

    /// No labels, with room for those of the names with these numbers (`key_in_front`): 26 bytes for each number.
    #[tactic(auto, unfolding(crate::specs::Labels::value_in))]
    pub fn expecting(alloc: Global, keys: Vec<u128>) -> Result<Labels, AllocError>
        ensures { IfOk result (λ labels. (name : List ℕ) → value_in labels name ≡ None) }
    {
        Ok(Labels {
            alloc,
            expected: Expected::of(alloc, keys)?,
            others: BTreeMap::new(alloc),
        })
    }

    /// The place of a name among those that are expected.
    #[tactic(auto, unfolding(crate::specs::Labels::place_in))]
    fn place_of(&self, name: &[u8]) -> Option<usize>
        ensures value { result ≡ place_in self.now name.now }
        ensures within { IfSome result (λ place. place < length self.now.expected.values.items) }
    {
        if is_name(name) {
            return self.expected.place_of(key_of(name));
        }
        None
    }

    /// The value of the label of this name, if there is one.
    #[tactic(auto, unfolding(crate::specs::Labels::value_in))]
    pub fn value(&self, name: &[u8]) -> Option<i128>
        ensures value { result ≡ value_in self.now name.now }
        ensures low { IfSome result (λ v. negsuc (2 ^ 63 - 1) ≤ℤ v) }
        ensures high { IfSome result (λ v. v ≤ℤ pos (2 ^ 64 - 1)) }
    {
        if let Some(place) = self.place_of(name) {
            return self.expected.value_at(place).map(LabelValue::value);
        }
        self.others.get(name).map(|found| found.value())
    }

    fn add_expected(&mut self, name: &[u8], place: usize, value: LabelValue)
        requires place { place_in self.old name.now ≡ Some place }
        requires within { place < length self.old.expected.values.items }
        ensures { (other : List ℕ) → value_in self.new other ≡
            (if bytes_eq other name.now then Some (value_of value) else value_in self.old other) }
    {
        self.expected.put(place, value);
    }

    fn add_other(&mut self, name: &[u8], value: LabelValue) -> Result<(), NoMemory>
        requires { place_in self.old name.now ≡ None }
        ensures ok { OnOk result ((other : List ℕ) → value_in self.new other ≡
            (if bytes_eq other name.now then Some (value_of value) else value_in self.old other)) }
        ensures err { OnErr result ((other : List ℕ) → value_in self.new other ≡ value_in self.old other) }
    {
        let key = Vec::from_slice(self.alloc, name)?;
        self.others.insert(key, value)?;
        Ok(())
    }

    /// Gives the label its value, in place of one that it may have. Where there is no memory, the labels stay as
    /// they are.
    pub fn set(&mut self, name: &[u8], value: i128) -> Result<(), NoMemory>
        requires low { negsuc (2 ^ 63 - 1) ≤ℤ value }
        requires high { value ≤ℤ pos (2 ^ 64 - 1) }
        ensures labels { OnOk result ((other : List ℕ) → value_in self.new other ≡
            (if bytes_eq other name.now then Some value else value_in self.old other)) }
        ensures err { OnErr result ((other : List ℕ) → value_in self.new other ≡ value_in self.old other) }
    {
        let value = LabelValue::new(value);
        if let Some(place) = self.place_of(name) {
            self.add_expected(name, place, value);
            return Ok(());
        }
        self.add_other(name, value)
    }

    /// Adds a label, and says whether it was new. Where it was not, and where there is no memory, the labels
    /// stay as they are.
    pub fn add(&mut self, name: &[u8], value: i128) -> Result<bool, NoMemory>
        requires low { negsuc (2 ^ 63 - 1) ≤ℤ value }
        requires high { value ≤ℤ pos (2 ^ 64 - 1) }
        ensures new { IfOk result (λ added. added ≡ is_none (value_in self.old name.now)) }
        ensures labels { IfOk result (λ added. (other : List ℕ) → value_in self.new other ≡
            (if added then (if bytes_eq other name.now then Some value else value_in self.old other)
            else value_in self.old other)) }
        ensures err { OnErr result ((other : List ℕ) → value_in self.new other ≡ value_in self.old other) }
    {
        if self.value(name).is_some() {
            return Ok(false);
        }
        self.set(name, value)?;
        Ok(true)
    }
}
