//! Flags by which runs that are away are called home. No result depends on them.
ghost use Rattle.std.specs.Prelude.{◌≡◌, IfOk, vec_len};

use crossbeam_utils::CachePadded;
use std::alloc::{AllocError, Global};
use std::sync::atomic::{AtomicU64, Ordering};

/// A flag for each CPU. Each lies in a line of the real machine's cache of its own.
#[derive(Drop)]
pub struct Calls {
    flags: Vec<CachePadded<AtomicU64>>,
}

impl Calls {
    /// Flags for so many CPUs, none of them raised. The error is want of memory.
    pub fn open(alloc: Global, cpus: u32) -> Result<Calls, AllocError> {
        let mut flags = Vec::new(alloc);
        for _ in 0..cpus {
            if flags.push(CachePadded::new(AtomicU64::new(0))).is_err() {
                return Err(AllocError);
            }
        }
        Ok(Calls { flags })
    }

    /// Whether the run of a CPU is called home.
    pub fn is_called(&self, cpu: u32) -> bool {
        match self.flags.get(cpu as usize) {
            Some(flag) => flag.load(Ordering::SeqCst) != 0,
            None => false,
        }
    }

    /// Calls the run of a CPU home.
    pub fn call(&self, cpu: u32) {
        if let Some(flag) = self.flags.get(cpu as usize) {
            flag.store(1, Ordering::SeqCst);
        }
    }

    /// The run of a CPU has come home.
    pub fn clear(&self, cpu: u32) {
        if let Some(flag) = self.flags.get(cpu as usize) {
            flag.store(0, Ordering::SeqCst);
        }
    }
}
