//! The pages that hold instructions.
ghost use Rattle.std.specs.Prelude.{◌≡◌, ◌<◌, ◌≤◌, ℕ, false};
ghost use Rattle.std.specs.FinSet as set;

use std::marker::Model;

/// The number of pages in storage, each of 4,096 bytes.
pub const PAGES: usize = 256;

/// The set of text pages, those that hold a byte of an assembled instruction. Contracts see the set of their
/// numbers, address divided by 4,096.
#[derive(Drop)]
pub struct Guard {
    is_text: [bool; PAGES],
}

impl Model for Guard {
    ghost use Rattle.std.specs.Prelude.{◌≡◌, length};
    ghost use Rattle.std.specs.Ordering.{nat_cmp};
    ghost use Rattle.std.specs.FinSet as set;
    ghost use Rattle.std.specs.Coded.{coded_ℕ};

    ghost Value = { set.FinSet nat_cmp };

    ghost coded = { set.code coded_ℕ };

    ghost use Rattle.z_regs.specs.Pages.{marked};

    ghost view = { λ g. marked g.is_text };

    ghost invariant = { λ g. length g.is_text ≡ 256 };
}

impl Guard {
    /// No page.
    pub fn none() -> Guard
        ensures { result ≡ set.empty }
    {
        Guard {
            is_text: [false; PAGES],
        }
    }

    /// Adds a page, below 256.
    pub fn add(&mut self, page: u32)
        requires { page < PAGES }
        ensures { self.new ≡ set.insert self.old page }
    {
        self.is_text[page as usize] = true;
    }

    /// Whether a page is among them. No page from 256 on is.
    pub fn has(&self, page: u32) -> bool
        ensures there { result ≡ set.contains self.now page }
        ensures below { (q : ℕ) → PAGES ≤ q → set.contains self.now q ≡ false }
    {
        let page = page as usize;
        page < self.is_text.len() && self.is_text[page]
    }
}
