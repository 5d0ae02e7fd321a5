//! What a worker passes on its way back to the lock.

/// A place that each worker passes between two turns, while it does not hold the lock. It answers nothing, and
/// so no result depends on it. A test may let workers meet there.
pub trait Gate: Sync {
    /// The worker of this CPU passes.
    fn pass(&self, cpu: u32);
}

/// A gate at which nothing happens.
#[derive(Clone, Copy, Debug)]
pub struct OpenGate;

impl Gate for OpenGate {
    fn pass(&self, _cpu: u32) {}
}
