//! The lines that are read again, by their places in the text.
ghost use Rattle.std.specs.Prelude.{◌≡◌, ◌≤◌, ◌++◌, ◌∷◌, [], length, All, OnOk};
ghost use Rattle.z_reading.specs.Kept.{LiesIn};
ghost use Rattle.z_regs.specs.Prefix.{storage_size};

use crate::kept::{Kept, TextLine, Work};
use std::alloc::{AllocError, Global};
use z_operands::Operation;

/// The lines of a text that are read again, in their order.
#[derive(Drop)]
pub struct Works<'a> {
    /// The text, in capitals.
    pub text: &'a [u8],
    /// The lines.
    pub kept: Vec<Kept>,
    ghost inside: { All (LiesIn (length text.now)) kept.items },
}

impl<'a> Works<'a> {
    ghost use Rattle.z_reading.specs.Kept.{IsThere};
    ghost use Rattle.z_reading.specs.Listing.{task_of, task_in, tasks_of};
    ghost use Rattle.z_reading.specs.Sizes.{IsPlaced};

    /// No lines of a text yet.
    pub fn none(alloc: Global, text: &'a [u8]) -> Works<'a>
        ensures text { result.text.now ≡ text.now }
        ensures none { result.kept.items ≡ [] }
    {
        Works {
            text,
            kept: Vec::new(alloc),
        }
    }

    /// Keeps a line of the text.
    pub(crate) fn keep(
        &mut self,
        line: TextLine,
        here: u32,
        operation: Operation,
    ) -> Result<(), AllocError>
        requires there { IsThere self.old.text.now line.first line.bytes.now }
        requires short { length line.bytes.now ≤ 120 }
        requires within { here ≤ storage_size }
        requires room { IsPlaced here operation }
        ensures text { self.new.text ≡ self.old.text }
        ensures tasks { OnOk result (tasks_of self.new ≡ tasks_of self.old ++
            record { line = line.entry.number; here = here; text = line.entry.bytes.now; operation = operation } ∷ []) }
    {
        self.kept.push(Kept {
            line: line.number,
            here,
            first: line.first,
            operation,
            count: line.bytes.len() as u8,
        })?;
        Ok(())
    }

    /// A line with its text.
    pub fn with_text(&self, kept: Kept) -> Work<'a>
        requires { LiesIn (length self.now.text.now) kept }
        ensures { task_of result ≡ task_in self.now.text.now kept }
    {
        let first = kept.first as usize;
        let end = first + usize::from(kept.count);
        Work {
            line: kept.line,
            here: kept.here,
            text: &self.text[first..end],
            operation: kept.operation,
        }
    }
}
