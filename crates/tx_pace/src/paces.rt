//! How far the CPUs of a race have come, so that none is left far behind. No result depends on it.
ghost use Rattle.std.specs.Prelude.{◌≡◌, ◌≤◌, IfOk, vec_len};

use crossbeam_utils::CachePadded;
use std::alloc::{AllocError, Global};
use std::sync::atomic::{AtomicU64, Ordering};
use std::thread::yield_now;

/// How many turns a CPU may have more than twice as many as the one that has had the fewest, before its worker lets others run.
const MOST_AHEAD: u64 = 256;

/// The turns that each CPU has had from its worker. Each number lies in a line of the real machine's cache of its own.
#[derive(Drop)]
pub struct Paces {
    turns: Vec<CachePadded<AtomicU64>>,
}

impl Paces {
    /// No turns of so many CPUs. The error is want of memory.
    pub fn open(alloc: Global, cpus: u32) -> Result<Paces, AllocError> {
        let mut turns = Vec::new(alloc);
        for _ in 0..cpus {
            if turns.push(CachePadded::new(AtomicU64::new(0))).is_err() {
                return Err(AllocError);
            }
        }
        Ok(Paces { turns })
    }

    /// The turns that a CPU has had; of a CPU that there is not, none.
    fn turns_of(&self, cpu: u32) -> u64 {
        match self.turns.get(cpu as usize) {
            Some(turns) => turns.load(Ordering::SeqCst),
            None => 0,
        }
    }

    /// A CPU has had so many turns more. Its own worker alone says so.
    pub fn add(&self, cpu: u32, more: u32) {
        if let Some(turns) = self.turns.get(cpu as usize) {
            turns.store(
                turns.load(Ordering::SeqCst).saturating_add(u64::from(more)),
                Ordering::SeqCst,
            );
        }
    }

    /// A CPU has come to its end: nobody waits for it.
    pub fn end(&self, cpu: u32) {
        if let Some(turns) = self.turns.get(cpu as usize) {
            turns.store(u64::MAX, Ordering::SeqCst);
        }
    }

    /// Whether some CPU has had far fewer turns than this many: less than half of them, but for the first few.
    fn is_far_ahead(&self, turns: u64) -> bool {
        for other in self.turns.iter() {
            let fewest = other.load(Ordering::SeqCst);
            if fewest.saturating_mul(2).saturating_add(MOST_AHEAD) < turns {
                return true;
            }
        }
        false
    }

    /// Lets others run while a CPU is far ahead of them, so many times at most. Hands back how often it may the next time: half
    /// as often where that was in vain.
    pub fn wait(&self, cpu: u32, patience: u32) -> u32 {
        let turns = self.turns_of(cpu);
        for _ in 0..patience {
            if !self.is_far_ahead(turns) {
                return patience;
            }
            yield_now();
        }
        patience / 2
    }
}
