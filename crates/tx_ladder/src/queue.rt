//! The stop queue.
ghost use Rattle.std.specs.Prelude.{◌≡◌, ◌≢◌, ℕ, ◌<◌, ◌↔◌, [], ◌∷◌, ◌++◌, length, take, drop, false};
ghost use Rattle.std.specs.Prelude.{All, AllPairs, IsNone, IfOk, slice_get};
ghost use Rattle.tx_ladder.specs.Waiting.{Waiting, waits_in};

use std::alloc::Global;
use std::collections::VecDeque;
use std::marker::Model;
use z_regs::NoMemory;

/// The CPUs that wait to run alone, each at most once, in the order in which they will.
#[derive(Drop)]
pub struct StopQueue {
    order: VecDeque<u32>,
    waiting: Vec<bool>,
}

impl Model for StopQueue {
    ghost use Rattle.std.specs.Prelude.{vec_len};
    ghost use Rattle.std.specs.VecDeque.{deque_capacity};
    ghost use Rattle.tx_ladder.specs.Waiting.{Waiting, IsKept};

    ghost Value = { Waiting };

    ghost view = { λ q. record { cpus = vec_len q.waiting; order = q.order.items } };

    ghost invariant = { λ q. IsKept q.waiting.items q.order.items (deque_capacity q.order) };
}

impl StopQueue {
    /// An empty queue for CPUs 0 to `cpus` - 1. It has room for all of them.
    pub fn open(alloc: Global, cpus: u32) -> Result<StopQueue, NoMemory>
        ensures { IfOk result (λ queue. queue ≡ record { cpus = cpus; order = [] }) }
    {
        let waiting = vec![in alloc; false; cpus as usize]?;
        let order = VecDeque::with_capacity(alloc, cpus as usize)?;
        Ok(StopQueue { order, waiting })
    }

    /// The CPU at the head; None exactly where the queue is empty.
    pub fn head(&self) -> Option<u32>
        ensures value { result ≡ slice_get self.now.order 0 }
        ensures empty { IsNone result ↔ (self.now.order ≡ []) }
        ensures once { AllPairs ◌≢◌ self.now.order }
        ensures in_range { All (λ cpu. cpu < self.now.cpus) self.now.order }
    {
        self.order.front().copied()
    }

    /// Whether the CPU waits in the queue.
    pub fn has(&self, cpu: u32) -> bool
        requires { cpu < self.now.cpus }
        ensures { result ≡ waits_in self.now.order cpu }
    {
        self.waiting[cpu as usize]
    }

    /// The CPU joins the tail.
    pub fn join(&mut self, cpu: u32)
        requires cpu { cpu < self.old.cpus }
        requires absent { waits_in self.old.order cpu ≡ false }
        ensures { self.new ≡ record self.old { order = self.old.order ++ cpu ∷ [] } }
    {
        self.waiting[cpu as usize] = true;
        self.order.push_back_reserved(cpu);
    }

    /// The head leaves the queue.
    pub fn leave(&mut self)
        requires { 0 < length self.old.order }
        ensures { self.new ≡ record self.old { order = drop 1 self.old.order } }
    {
        if let Some(cpu) = self.order.pop_front() {
            self.waiting[cpu as usize] = false;
        }
    }

    /// The head moves to the tail.
    pub fn to_tail(&mut self)
        requires { 0 < length self.old.order }
        ensures { self.new ≡ record self.old { order = drop 1 self.old.order ++ take 1 self.old.order } }
    {
        self.order.rotate_left(1);
    }
}
