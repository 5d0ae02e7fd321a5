//! Sources and sinks in memory, which tell their bytes: for tests, and for callers that hold the whole input.
ghost use Rattle.std.specs.Prelude.{◌≡◌, ℕ, ◌+◌, ◌<◌, ◌≤◌, ◌++◌, Some, None, IsNone, IsSome, IfSome, IfOk};
ghost use Rattle.std.specs.Prelude.{OnErr, MatchOption, drop, take, length, [], vec_len, IsTrue, true};
ghost use Rattle.ztx_io.specs.Faults.{Rose};
ghost use Rattle.ztx_io.specs.Reads.{IsCount};

use crate::{Read, Sink, Source, Write};
use std::alloc::{AllocError, Global};

/// Which calls fail, counted from 1, and how many calls and faults there were.
#[derive(Drop)]
struct Failures {
    at: Vec<u64>,
    calls: u64,
    faults: u64,
}

impl Failures {
    fn new(at: Vec<u64>) -> Failures
        ensures { result.faults ≡ 0 }
    {
        Failures {
            at,
            calls: 0,
            faults: 0,
        }
    }

    /// Counts one more call, and says whether it fails.
    fn fails_now(&mut self) -> bool
        ensures never_falls { self.old.faults ≤ self.new.faults }
        ensures counted { IsTrue result → Rose self.old.faults self.new.faults }
    {
        self.calls = self.calls.saturating_add(1);
        let fails = self.at.contains(&self.calls);
        if fails {
            self.faults = self.faults.saturating_add(1);
        }
        fails
    }
}

/// Bytes that are handed out in pieces.
#[derive(Drop)]
struct Pieces {
    bytes: Vec<u8>,
    given: usize,
    most: usize,
    ghost within: { given ≤ vec_len bytes },
    ghost some: { 0 < most },
}

impl Pieces {
    fn new(bytes: Vec<u8>, most: usize) -> Pieces
        requires { 0 < most }
        ensures { drop result.given result.bytes.items ≡ bytes.items }
    {
        Pieces {
            bytes,
            given: 0,
            most,
        }
    }

    /// Puts the next piece into the front of `into`, and gives its length; None at the end.
    fn next_piece(&mut self, into: &mut [u8]) -> Option<usize>
        requires { 0 < length into.old }
        ensures end { IsNone result → drop self.old.given self.old.bytes.items ≡ [] }
        ensures stays { IsNone result
            → drop self.new.given self.new.bytes.items ≡ drop self.old.given self.old.bytes.items }
        ensures count { IfSome result (λ n. IsCount n (length into.old)) }
        ensures given { IfSome result (λ n. drop self.old.given self.old.bytes.items ≡ take n into.new
            ++ drop self.new.given self.new.bytes.items) }
        ensures rest { IfSome result (λ n. drop n into.new ≡ drop n into.old) }
    {
        let left = &self.bytes.as_slice()[self.given..];
        if left.is_empty() {
            return None;
        }
        let n = left.len().min(self.most).min(into.len());
        into[..n].copy_from_slice(&left[..n]);
        self.given += n;
        Some(n)
    }
}

/// Bytes that are taken in pieces.
#[derive(Drop)]
struct Taken {
    bytes: Vec<u8>,
    most: usize,
    ghost some: { 0 < most },
}

impl Taken {
    fn new(alloc: Global, most: usize) -> Taken
        requires { 0 < most }
        ensures { result.bytes.items ≡ [] }
    {
        Taken {
            bytes: Vec::new(alloc),
            most,
        }
    }

    /// Appends the next piece from the front of `piece`, and gives its length.
    fn take_piece(&mut self, piece: &[u8]) -> Result<usize, AllocError>
        requires { 0 < length piece.now }
        ensures count { IfOk result (λ n. IsCount n (length piece.now)) }
        ensures taken { IfOk result (λ n. self.new.bytes.items ≡ self.old.bytes.items ++ take n piece.now) }
        ensures err { OnErr result (self.new.bytes.items ≡ self.old.bytes.items) }
    {
        let n = piece.len().min(self.most);
        self.bytes.extend_from_slice(&piece[..n])?;
        Ok(n)
    }
}

/// Gives its bytes in pieces, and fails at the calls that it was told.
#[derive(Drop)]
pub struct MemorySource {
    pieces: Pieces,
    failures: Failures,
}

impl MemorySource {
    /// A source of these bytes that gives at most `piece` of them a call, at least 1, and fails at the calls,
    /// counted from 1, whose numbers are in `fail_at`.
    pub fn new(bytes: Vec<u8>, piece: usize, fail_at: Vec<u64>) -> MemorySource
        requires { 0 < piece }
        ensures left { ⟦<MemorySource as Source>⟧.left result ≡ Some bytes.items }
        ensures faults { ⟦<MemorySource as Source>⟧.faults result ≡ 0 }
    {
        MemorySource {
            pieces: Pieces::new(bytes, piece),
            failures: Failures::new(fail_at),
        }
    }
}

impl Source for MemorySource {
    ghost left = { λ s. Some (drop s.pieces.given s.pieces.bytes.items) };

    ghost faults = { λ s. s.failures.faults };

    fn read(&mut self, into: &mut [u8]) -> Read {
        if self.failures.fails_now() {
            return Read::Failed;
        }
        match self.pieces.next_piece(into) {
            Some(n) => Read::Got(n),
            None => Read::End,
        }
    }
}

/// Gives its bytes in pieces, and never fails: its count of faults is the constant 0.
#[derive(Drop)]
pub struct SureSource {
    pieces: Pieces,
}

impl SureSource {
    /// A source of these bytes that gives at most `piece` of them a call, at least 1.
    pub fn new(bytes: Vec<u8>, piece: usize) -> SureSource
        requires { 0 < piece }
        ensures { ⟦<SureSource as Source>⟧.left result ≡ Some bytes.items }
    {
        SureSource {
            pieces: Pieces::new(bytes, piece),
        }
    }
}

impl Source for SureSource {
    ghost left = { λ s. Some (drop s.pieces.given s.pieces.bytes.items) };

    ghost faults = { λ s. 0 };

    fn read(&mut self, into: &mut [u8]) -> Read {
        match self.pieces.next_piece(into) {
            Some(n) => Read::Got(n),
            None => Read::End,
        }
    }
}

/// Takes bytes in pieces, and fails at the calls that it was told.
#[derive(Drop)]
pub struct MemorySink {
    taken: Taken,
    failures: Failures,
}

impl MemorySink {
    /// A sink that takes at most `piece` bytes a call, at least 1, and fails at the calls, counted from 1,
    /// whose numbers are in `fail_at`.
    pub fn new(alloc: Global, piece: usize, fail_at: Vec<u64>) -> MemorySink
        requires { 0 < piece }
        ensures held { ⟦<MemorySink as Sink>⟧.held result ≡ Some [] }
        ensures faults { ⟦<MemorySink as Sink>⟧.faults result ≡ 0 }
    {
        MemorySink {
            taken: Taken::new(alloc, piece),
            failures: Failures::new(fail_at),
        }
    }

    /// The bytes taken so far.
    pub fn taken(&self) -> &[u8]
        ensures { ⟦<MemorySink as Sink>⟧.held self.now ≡ Some result.now }
    {
        self.taken.bytes.as_slice()
    }
}

impl Sink for MemorySink {
    ghost held = { λ s. Some s.taken.bytes.items };

    ghost faults = { λ s. s.failures.faults };

    fn write(&mut self, piece: &[u8]) -> Write {
        if self.failures.fails_now() {
            return Write::Failed;
        }
        match self.taken.take_piece(piece) {
            Ok(n) => Write::Took(n),
            Err(_) => Write::NoMemory,
        }
    }
}

/// Takes bytes in pieces, and never fails: its count of faults is the constant 0.
#[derive(Drop)]
pub struct SureSink {
    taken: Taken,
}

impl SureSink {
    /// A sink that takes at most `piece` bytes a call, at least 1.
    pub fn new(alloc: Global, piece: usize) -> SureSink
        requires { 0 < piece }
        ensures { ⟦<SureSink as Sink>⟧.held result ≡ Some [] }
    {
        SureSink {
            taken: Taken::new(alloc, piece),
        }
    }

    /// The bytes taken so far.
    pub fn taken(&self) -> &[u8]
        ensures { ⟦<SureSink as Sink>⟧.held self.now ≡ Some result.now }
    {
        self.taken.bytes.as_slice()
    }
}

impl Sink for SureSink {
    ghost held = { λ s. Some s.taken.bytes.items };

    ghost faults = { λ s. 0 };

    fn write(&mut self, piece: &[u8]) -> Write {
        match self.taken.take_piece(piece) {
            Ok(n) => Write::Took(n),
            Err(_) => Write::NoMemory,
        }
    }
}
