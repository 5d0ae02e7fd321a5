//! Keys below a limit in slots that are numbered from 0: found, added, taken away and forgotten in constant
//! time. The keys stand in a list, and a table tells for each key the slot that it may have, as in Briggs and
//! Torczon, "An efficient representation for sparse sets", 1993. So a table that holds what is left of
//! earlier keys does no harm.
#![tactic(auto)]

mod index;

pub use index::SlotIndex;
