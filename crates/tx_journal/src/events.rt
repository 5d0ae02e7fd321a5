//! What happens to a machine.

/// An event of a machine. The CPUs are numbered from 0.
#[derive(Clone, Copy, Debug, PartialEq, Eq)]
pub enum Event {
    /// The CPU has a turn.
    Turn(u32),
    /// An external interruption comes to the CPU.
    External(u32),
}
