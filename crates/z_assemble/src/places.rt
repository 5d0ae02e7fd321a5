//! The places of marks.
ghost use Rattle.std.specs.Prelude.{◌≡◌, ◌≤◌, ◌<◌, ◌^◌, ◌+◌, ◌++◌, [], ℕ, false, length, IfOk, OnOk, All};
ghost use Rattle.z_assemble.specs.Whole.{places_from, with_place};
ghost use Rattle.z_regs.specs.Prefix.{storage_size};

use std::alloc::{AllocError, Global};

/// How many marks are looked at together.
const PART: u32 = 4096;

fn push_marked(places: &mut Vec<u32>, place: u32, mark: bool) -> Result<(), AllocError>
    ensures is { OnOk result (places.new.items ≡ with_place mark place places.old.items) }
    ensures inside { (n : ℕ) → place < n → All (λ p. p < n) places.old.items →
        OnOk result (All (λ p. p < n) places.new.items) }
{
    if mark {
        places.push(place)?;
    }
    Ok(())
}

/// Whether one of the marks is true.
fn is_marked(marks: &[bool]) -> bool
    ensures { result ≡ false → (n : ℕ) → places_from n marks.now ≡ [] }
{
    let mut found = false;
    for mark in marks {
        found |= *mark;
    }
    found
}

/// Appends the places of marks, of which the first has this place.
fn add_marked(places: &mut Vec<u32>, first: u32, marks: &[bool]) -> Result<(), AllocError>
    requires { first + length marks.now < 2 ^ 32 }
    ensures is { OnOk result (places.new.items ≡ places.old.items ++ places_from first marks.now) }
    ensures inside { (n : ℕ) → first + length marks.now ≤ n → All (λ p. p < n) places.old.items →
        OnOk result (All (λ p. p < n) places.new.items) }
{
    for (k, mark) in marks.iter().enumerate() {
        push_marked(places, first + k as u32, *mark)?;
    }
    Ok(())
}

/// The same, where most often there is none.
fn add_places(places: &mut Vec<u32>, first: u32, marks: &[bool]) -> Result<(), AllocError>
    requires { first + length marks.now < 2 ^ 32 }
    ensures is { OnOk result (places.new.items ≡ places.old.items ++ places_from first marks.now) }
    ensures inside { (n : ℕ) → first + length marks.now ≤ n → All (λ p. p < n) places.old.items →
        OnOk result (All (λ p. p < n) places.new.items) }
{
    if !is_marked(marks) {
        return Ok(());
    }
    add_marked(places, first, marks)
}

/// The places of the marks, in rising order. Most parts have none.
pub fn places_of(alloc: Global, marks: &[bool]) -> Result<Vec<u32>, AllocError>
    requires { length marks.now ≡ storage_size }
    ensures is { IfOk result (λ v. v.items ≡ places_from 0 marks.now) }
    ensures inside { IfOk result (λ v. All (λ place. place < length marks.now) v.items) }
{
    let mut places = Vec::new(alloc);
    for part in 0..256 {
        let first = PART * part;
        let begin = first as usize;
        add_places(&mut places, first, &marks[begin..begin + PART as usize])?;
    }
    Ok(places)
}
