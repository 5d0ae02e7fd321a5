//! What a CPU has done alone since its outermost begin.

use crate::known::Readings;
use tx_constraint::Constraint;
use tx_control::Nest;
use tx_footprint::Footprint;
use z_regs::{CpuImage, Storage};

/// Whether the transaction is open, committed, or its last instruction ended in a fixed-point overflow
/// exception, or whether there is no run of so many instructions.
#[derive(Clone, Copy, PartialEq, Eq)]
pub enum Mark {
    Open,
    Committed,
    Overflowed,
    Missing,
}

/// Where an instruction stands, and how many bytes it has.
#[derive(Clone, Copy)]
pub struct Told {
    pub at: u64,
    pub length: u8,
}

/// A private run: the CPU, its own copy of storage and a copy with the stores of NTSTG alone, both in
/// the order of its real addresses, and the prefix that tells this order; storage of any bytes, on which an
/// instruction is tried; instructions that were read before; the open begins; the lines and blocks that it has
/// touched; what is kept for the constraints; the begin and the last instruction; and the mark.
#[derive(Drop)]
pub struct Attempt {
    pub image: CpuImage,
    pub seen: Storage,
    pub lasting: Storage,
    pub turned: Option<u32>,
    pub trial: Storage,
    pub readings: Readings,
    pub nest: Nest,
    pub footprint: Footprint,
    pub constraint: Constraint,
    pub begin: Told,
    pub last: Told,
    pub mark: Mark,
}
