//! Transactions inside one another.
ghost use Rattle.std.specs.Prelude.{◌≡◌, ◌<◌, ◌≤◌, ◌-◌, ◌↔◌, IsTrue, List, [], ◌∷◌, ◌++◌, length, take};

use crate::Begin;
use std::marker::Model;

/// The most transactions that are open at once.
pub const MOST_LEVELS: usize = 16;

/// What is in force under all open begins.
#[derive(Clone, Copy)]
struct Controls {
    a: bool,
    f: bool,
    pifc: u8,
}

/// The open begins, oldest first; at most sixteen. Contracts see their list.
///
/// For each level the controls that were in force there are kept, so that leaving a level brings those of the
/// one outside it back.
#[derive(Drop)]
pub struct Nest {
    begins: [Begin; MOST_LEVELS],
    in_force: [Controls; MOST_LEVELS],
    depth: u8,
}

impl Model for Nest {
    ghost use Rattle.std.specs.Prelude.{List, take};
    ghost use Rattle.tx_control.specs.declared.begins.Begin.{Begin};

    ghost Value = { List Begin };

    ghost use Rattle.tx_control.specs.Kept.{Keeps};

    ghost view = { λ n. take n.depth n.begins };

    ghost invariant = { λ n. Keeps n.begins n.in_force n.depth };
}

impl Controls {
    ghost use Rattle.tx_control.specs.Kept.{unlimited, limited_by};

    /// What is in force outside every transaction.
    fn unlimited() -> Controls
        ensures { result ≡ unlimited }
    {
        Controls {
            a: true,
            f: true,
            pifc: 0,
        }
    }

    /// What is in force inside one more begin.
    fn limited_by(self, b: Begin) -> Controls
        ensures { result ≡ limited_by self b }
    {
        Controls {
            a: self.a && b.a,
            f: self.f && b.f,
            pifc: self.pifc.max(b.pifc),
        }
    }
}

impl Nest {
    ghost use Rattle.tx_control.specs.Kept.{in_force};
    ghost use Rattle.tx_control.specs.Nesting.{effective_a, effective_f, effective_pifc, outermost_mask};
    ghost use Rattle.tx_control.specs.Nesting.{outermost_block, is_constrained};

    /// No begin is open.
    pub fn none() -> Nest
        ensures { result ≡ [] }
    {
        let nothing = Begin {
            mask: 0,
            a: false,
            f: false,
            pifc: 0,
            block: None,
            constrained: false,
        };
        Nest {
            begins: [nothing; MOST_LEVELS],
            in_force: [Controls::unlimited(); MOST_LEVELS],
            depth: 0,
        }
    }

    /// Opens one more begin inside those that are open, of which there must be fewer than sixteen.
    pub fn enter(&mut self, b: Begin)
        requires { length self.old < MOST_LEVELS }
        ensures { self.new ≡ self.old ++ b ∷ [] }
    {
        let inside = self.in_force().limited_by(b);
        let level = usize::from(self.depth);
        self.begins[level] = b;
        self.in_force[level] = inside;
        self.depth += 1;
    }

    /// Closes the begin that was opened last; one must be open.
    pub fn leave(&mut self)
        requires { 0 < length self.old }
        ensures { self.new ≡ take (length self.old - 1) self.old }
    {
        self.depth -= 1;
    }

    /// Closes all begins.
    pub fn clear(&mut self)
        ensures { self.new ≡ [] }
    {
        self.depth = 0;
    }

    /// How many begins are open, 0 to 16.
    pub fn depth(&self) -> u32
        ensures open { result ≡ length self.now }
        ensures most { result ≤ MOST_LEVELS }
    {
        u32::from(self.depth)
    }

    fn open(&self) -> &[Begin]
        ensures { result.now ≡ self.now }
    {
        &self.begins[..usize::from(self.depth)]
    }

    fn in_force(&self) -> Controls
        ensures { result ≡ in_force self.now }
    {
        match self.depth {
            0 => Controls::unlimited(),
            depth => self.in_force[usize::from(depth) - 1],
        }
    }

    /// Whether access registers may be changed: all open begins allow it. Outside transactions they may.
    pub fn effective_a(&self) -> bool
        ensures { result ≡ effective_a self.now }
    {
        self.in_force().a
    }

    /// Whether floating-point operations are allowed: all open begins allow it. Outside transactions they
    /// are.
    pub fn effective_f(&self) -> bool
        ensures { result ≡ effective_f self.now }
    {
        self.in_force().f
    }

    /// The filtering control in force, the greatest of all open begins; 0 outside transactions.
    pub fn effective_pifc(&self) -> u8
        ensures { result ≡ effective_pifc self.now }
    {
        self.in_force().pifc
    }

    /// The general register save mask of the outermost begin; one must be open.
    pub fn mask(&self) -> u8
        requires { 0 < length self.now }
        ensures { result ≡ outermost_mask self.now }
    {
        self.begins[0].mask
    }

    /// The diagnostic block of the outermost begin; one must be open.
    pub fn block(&self) -> Option<u64>
        requires { 0 < length self.now }
        ensures { result ≡ outermost_block self.now }
    {
        self.begins[0].block
    }

    /// Whether the outermost begin is constrained; one must be open.
    pub fn constrained(&self) -> bool
        requires { 0 < length self.now }
        ensures { result ≡ is_constrained self.now }
    {
        self.begins[0].constrained
    }

    /// Whether the same begins are open in both, in the same order.
    pub fn same(&self, other: &Nest) -> bool
        ensures { IsTrue result ↔ (self.now ≡ other.now) }
    {
        self.open() == other.open()
    }

    /// Makes this nest equal to the other.
    pub fn copy_from(&mut self, other: &Nest)
        ensures { self.new ≡ other.now }
    {
        let begins = other.begins;
        let in_force = other.in_force;
        self.begins = begins;
        self.in_force = in_force;
        self.depth = other.depth;
    }
}
