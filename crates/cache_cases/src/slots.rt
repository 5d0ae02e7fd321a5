//! Worked indexes of keys in slots.

use slot_index::SlotIndex;
use std::alloc::{AllocError, Global};
use std::test::Fail;

/// The greatest key and the lowest one, behind a third that was added first and taken away.
#[tactic(auto, unfolding(slot_index::specs::Slots::slot_in))]
fn two_keys(alloc: Global) -> Result<SlotIndex, AllocError> {
    let mut index = SlotIndex::open(alloc, 4096, 3)?;
    index.add(7);
    index.add(4095);
    index.add(0);
    index.remove(0);
    Ok(index)
}

#[test]
fn keys_have_slots(rt: HostRuntime) -> Result<(), Fail> {
    let index = two_keys(rt.alloc())?;
    let slots = [
        index.slot_of(7),
        index.slot_of(0),
        index.slot_of(4095),
        index.slot_of(4096),
    ];
    let due = [None, Some(0), Some(1), None];
    assert_eq!(rt; (slots, index.count()), (due, 2));
    Ok(())
}

#[test]
#[tactic(auto, unfolding(slot_index::specs::Slots::slot_in))]
fn a_key_is_at_its_slot(rt: HostRuntime) -> Result<(), Fail> {
    let mut index = SlotIndex::open(rt.alloc(), 4096, 3)?;
    index.add(40);
    let key = index.key_at(0);
    index.clear();
    assert_eq!(rt; [key, index.count()], [40, 0]);
    Ok(())
}

#[test]
#[tactic(auto, unfolding(slot_index::specs::Slots::slot_in))]
fn a_copy_has_the_same_keys(rt: HostRuntime) -> Result<(), Fail> {
    let mut index = SlotIndex::open(rt.alloc(), 4096, 3)?;
    let mut other = SlotIndex::open(rt.alloc(), 4096, 3)?;
    index.add(4095);
    other.add(40);
    other.copy_from(&index);
    assert_eq!(rt; [other.slot_of(40), other.slot_of(4095)], [None, Some(0)]);
    Ok(())
}
