//! Values of the transaction layer may move between threads and be shared by them.

use interrogate::{Answer, Asker};
use l1_data::L1;
use line_table::{LineTable, Mode};
use store_cache::StoreCache;
use tx_constraint::Constraint;
use tx_control::{Begin, Exception, Nest, Why};
use tx_footprint::{Footprint, Overflow};
use tx_ladder::{Ladder, Next, Parms, StopQueue};
use z_regs::{CpuImage, Guard, Storage, Touches, Waiting};

/// Whether values of a type may move between threads and be shared by them.
fn is_shared<T: Send + Sync>() -> bool {
    true
}

#[test]
fn values_are_shared_by_threads(rt: HostRuntime) {
    let tables = is_shared::<(LineTable, L1, StoreCache, Footprint)>();
    let attempts = is_shared::<(Constraint, Nest, Ladder, StopQueue)>();
    let values = is_shared::<(Answer, Asker, Mode, Begin, Exception, Why, Next, Parms)>();
    let faults = is_shared::<(Overflow, line_table::NoMemory)>();
    let registers = is_shared::<(CpuImage, Guard, Storage, Touches, Waiting)>();
    assert_eq!(rt; [tables, attempts, values, faults, registers], [true; 5]);
}
