//! The gathering store cache of a transaction: its stores, held back from storage until the transaction ends.
//! Stores into one block of 128 bytes gather in one entry, as in Jacobi, Slegel and Greiner, "Transactional
//! Memory Architecture and Implementation for IBM System z", MICRO 2012. A commit lays all of them over
//! storage. Of those of NONTRANSACTIONAL STORE the last values reach storage at an abort too.
#![tactic(auto)]

mod cache;
mod copying;
mod laws;
mod laying;

pub use cache::{BLOCK_SIZE, BLOCKS, MOST_BLOCKS, StoreCache};
pub use laws::{
    bytes_are_stored_in_turn, lays_stores_in_program_order, one_store_is_seen, the_last_value_lasts,
};
pub use z_regs::NoMemory;
