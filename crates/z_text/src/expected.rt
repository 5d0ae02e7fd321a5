//! Values of names that are expected: room for each is there before it comes.
ghost use Rattle.std.specs.Prelude.{◌≡◌, false, length, replicate, IfOk};
ghost use Rattle.std.specs.List.Sorted.{IsNonDecreasing};
ghost use Rattle.std.proofs.Props.{props};

use crate::value::LabelValue;
use std::alloc::{AllocError, Global};

/// Names by their numbers, in rising order, with the values of those that have one. A name may stand there more
/// than once; then the first place is its own.
#[derive(Drop)]
pub(crate) struct Expected {
    keys: Vec<u128>,
    /// Which places have a value.
    given: Vec<bool>,
    values: Vec<LabelValue>,
    ghost rising: { IsNonDecreasing keys.items } by { Prim.hlevel props },
    ghost marks: { length given.items ≡ length keys.items },
    ghost rooms: { length values.items ≡ length keys.items },
}

fn unmarked(alloc: Global, count: usize) -> Result<Vec<bool>, AllocError>
    ensures is { IfOk result (λ v. v.items ≡ replicate count false) }
    ensures len { IfOk result (λ v. length v.items ≡ count) }
{
    vec![in alloc; false; count]
}

impl Expected {
    ghost use Rattle.std.specs.Prelude.{ℕ, ◌<◌, ◌≤◌, ◌==◌, if◌then◌else◌, None, Some, nat_lt, IfSome};
    ghost use Rattle.z_text.specs.Expected.{place_in, place_of, value_at};

    /// No names.
    #[tactic(auto, unfolding(crate::specs::Expected::place_of))]
    pub(crate) fn none(alloc: Global) -> Expected
        ensures { (key : ℕ) → place_of result key ≡ None }
    {
        Expected {
            keys: Vec::new(alloc),
            given: Vec::new(alloc),
            values: Vec::new(alloc),
        }
    }

    /// Names with these numbers, none of which has a value.
    pub(crate) fn of(alloc: Global, keys: Vec<u128>) -> Result<Expected, AllocError>
        ensures { IfOk result (λ e. (place : ℕ) → value_at e place ≡ None) }
    {
        let mut keys = keys;
        keys.sort_unstable();
        let given = unmarked(alloc, keys.len())?;
        let values = vec![in alloc; LabelValue::new(0); keys.len()]?;
        Ok(Expected {
            keys,
            given,
            values,
        })
    }

    /// The first place whose number is not below this one.
    fn place_in(&self, key: u128) -> usize
        ensures value { result ≡ place_in self.now.keys.items key }
        ensures bound { result ≤ length self.now.keys.items }
    {
        self.keys.as_slice().partition_point(
            |k: &u128| -> bool
                ensures { result ≡ nat_lt k.now key }
            { *k < key },
        )
    }

    /// The place of a name, if it is expected.
    #[tactic(auto, unfolding(crate::specs::Expected::place_of))]
    pub(crate) fn place_of(&self, key: u128) -> Option<usize>
        ensures value { result ≡ place_of self.now key }
        ensures within { IfSome result (λ place. place < length self.now.values.items) }
    {
        let place = self.place_in(key);
        if place < self.keys.len() && self.keys[place] == key {
            return Some(place);
        }
        None
    }

    /// The value at a place, if there is one.
    #[tactic(auto, unfolding(crate::specs::Expected::value_at))]
    pub(crate) fn value_at(&self, place: usize) -> Option<LabelValue>
        requires { place < length self.now.values.items }
        ensures { result ≡ value_at self.now place }
    {
        if self.given[place] {
            return Some(self.values[place]);
        }
        None
    }

    /// Gives a place its value.
    pub(crate) fn put(&mut self, place: usize, value: LabelValue)
        requires { place < length self.old.values.items }
        ensures keys { self.new.keys ≡ self.old.keys }
        ensures values { (other : ℕ) → value_at self.new other ≡
            (if other == place then Some value else value_at self.old other) }
    {
        self.given[place] = true;
        self.values[place] = value;
    }
}
