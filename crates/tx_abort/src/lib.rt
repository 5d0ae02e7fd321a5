//! What an abort leaves behind: its abort code and condition code, the diagnostic block, and the general
//! registers that it brings back. Codes and the block's layout are those of the transactional-execution
//! facility (z/Architecture Principles of Operation, SA22-7832); which condition code a cause sets, and some
//! of the block's fields, are this machine's.
#![tactic(auto)]

mod block;
mod causes;
mod fields;
mod laws;
mod registers;

pub use block::block_of;
pub use causes::{code_of, condition_of};
pub use fields::BLOCK_SIZE;
pub use laws::{each_byte_has_one_field, registers_come_back_in_pairs};
pub use registers::restore;
