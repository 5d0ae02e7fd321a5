//! What a CPU holds between instructions, storage as a list of bytes, and the ranges that an instruction
//! touches there.
#![tactic(auto)]

mod bytes;
mod guard;
mod image;
pub mod laws;
mod memory;
mod number;
mod prefix;
mod psw;
mod ranges;
mod real;
mod storage;
mod waiting;

pub use bytes::Bytes;
pub use guard::{Guard, PAGES};
pub use image::{CpuImage, RunState};
pub use memory::NoMemory;
pub use number::number_in;
pub use prefix::{AREA_SIZE, STORAGE_SIZE, absolute, place_of};
pub use psw::{load_psw, psw_of};
pub use ranges::{Range, Touches};
pub use real::RealView;
pub use storage::Storage;
pub use waiting::Waiting;
