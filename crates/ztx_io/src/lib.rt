//! The outside of the program: where its input comes from and where its output goes.
//!
//! A [`Source`] and a [`Sink`] may give and take bytes in pieces of any size and may fail at any call.
//! [`read_all`] and [`write_all`] make whole transfers of them. Sources and sinks in memory tell their bytes;
//! those over `std`'s readers and writers tell nothing of content.
#![tactic(auto)]

ghost use Rattle.std.specs.Prelude.{◌≡◌, ℕ, ◌<◌, ◌≤◌, List, length, Option};
ghost use Rattle.ztx_io.specs.Faults.{Rose};
ghost use Rattle.ztx_io.specs.Reads.{Reads};
ghost use Rattle.ztx_io.specs.Writes.{Writes};

mod memory;
mod over_std;
mod whole;

pub use memory::{MemorySink, MemorySource, SureSink, SureSource};
pub use over_std::{ReaderSource, WriterSink};
pub use whole::{InFault, OutFault, read_all, write_all};

/// The answer of one read.
#[derive(Clone, Copy, Debug, PartialEq, Eq)]
pub enum Read {
    /// So many bytes came, at least one.
    Got(usize),
    /// Nothing is left.
    End,
    /// The read failed, and nothing was taken from the source.
    Failed,
}

/// The answer of one write.
#[derive(Clone, Copy, Debug, PartialEq, Eq)]
pub enum Write {
    /// So many bytes were taken, at least one.
    Took(usize),
    /// The write failed, and nothing was appended.
    Failed,
    /// There was no memory for the bytes, and nothing was appended.
    NoMemory,
}

/// Where input comes from.
pub trait Source {
    /// The bytes that are left, where the source tells them.
    ghost left: { Self → Option (List ℕ) };

    /// How often a read has failed; the count never falls.
    ghost faults: { Self → ℕ };

    /// Reads the next bytes into the front of `into`, which is not empty. What lies behind them there is
    /// unchanged.
    fn read(&mut self, into: &mut [u8]) -> Read
        requires { 0 < length into.old }
        ensures step { Reads (left self.old) (left self.new) into.old into.new result }
        ensures count { faults self.old ≤ faults self.new }
        ensures fault { result ≡ Read.Failed → Rose (faults self.old) (faults self.new) };
}

/// Where output goes.
pub trait Sink {
    /// The bytes taken so far, where the sink tells them.
    ghost held: { Self → Option (List ℕ) };

    /// How often a write has failed; the count never falls.
    ghost faults: { Self → ℕ };

    /// Appends bytes from the front of `piece`, which is not empty.
    fn write(&mut self, piece: &[u8]) -> Write
        requires { 0 < length piece.now }
        ensures step { Writes (held self.old) (held self.new) piece.now result }
        ensures count { faults self.old ≤ faults self.new }
        ensures fault { result ≡ Write.Failed → Rose (faults self.old) (faults self.new) };
}
