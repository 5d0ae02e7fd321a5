//! The conflicts of a run, as programs use them.
ghost use Rattle.std.specs.Prelude.{◌≡◌, ◌<◌, ◌++◌, IfOk, OnOk, length, slice_get, Some};
ghost use Rattle.line_table.specs.Sizes.{storage_lines};
ghost use Rattle.tx_heat.specs.Text.{heat_text, end_text, status_of};

use crate::counting::LineHeat;
use crate::writing::{add_lines, add_total};
use report_text::add_number_line;
use std::alloc::{AllocError, Global};
use std::marker::Model;
pub use tx_schedule::NoMemory;

/// The conflicts of a run by line of storage. Contracts see the lines in order, and whether every CPU is finished.
#[derive(Drop)]
pub struct Heat {
    lines: Vec<LineHeat>,
    finished: bool,
}

impl Model for Heat {
    ghost use Rattle.std.specs.Prelude.{◌≡◌, length};
    ghost use Rattle.line_table.specs.Sizes.{storage_lines};
    ghost use Rattle.tx_heat.specs.Heats.{Heated};

    ghost Value = { Heated };

    ghost view = { λ h. record { lines = h.lines.items; finished = h.finished } };

    ghost invariant = { λ h. length h.lines.items ≡ storage_lines };
}

/// Adds the status, and the last line.
#[tactic(auto, unfolding(crate::specs::Text::end_text))]
fn add_end(text: &mut Vec<u8>, heat: &Heat) -> Result<(), AllocError>
    ensures { OnOk result (text.new.items ≡ text.old.items ++ end_text heat.now) }
{
    add_number_line(text, b"STATUS ", heat.status())?;
    text.extend_from_slice(b"END\n")
}

/// Adds all lines of text.
#[tactic(auto, unfolding(crate::specs::Text::heat_text))]
fn add_heat(text: &mut Vec<u8>, heat: &Heat) -> Result<(), AllocError>
    ensures { OnOk result (text.new.items ≡ text.old.items ++ heat_text heat.now) }
{
    text.extend_from_slice(b"HEAT\n")?;
    add_lines(text, heat.lines())?;
    add_total(text, heat.lines())?;
    add_end(text, heat)
}

impl Heat {
    /// The conflicts of all lines of storage in order, and whether every CPU is finished.
    pub(crate) fn of(lines: Vec<LineHeat>, finished: bool) -> Heat
        requires { length lines.items ≡ storage_lines }
        ensures { result ≡ record { lines = lines.items; finished = finished } }
    {
        Heat { lines, finished }
    }

    /// The conflicts of all lines of storage, in order.
    pub(crate) fn lines(&self) -> &[LineHeat]
        ensures value { result.now ≡ self.now.lines }
        ensures size { length result.now ≡ storage_lines }
    {
        self.lines.as_slice()
    }

    /// 0 where every CPU is finished, else 6.
    fn status(&self) -> u64
        ensures { result ≡ status_of self.now }
    {
        if self.finished { 0 } else { 6 }
    }

    /// The conflicts for a line: its first address divided by 256.
    pub fn line(&self, line: u32) -> LineHeat
        requires { line < storage_lines }
        ensures { slice_get self.now.lines line ≡ Some result }
    {
        self.lines[line as usize]
    }

    /// Whether every CPU is finished.
    pub fn is_finished(&self) -> bool
        ensures { result ≡ self.now.finished }
    {
        self.finished
    }

    /// The conflicts as text: a line for each line of storage that has some, in rising order, their totals, and the
    /// status, 0 where every CPU is finished and else 6. The error is want of memory.
    pub fn text(&self, alloc: Global) -> Result<Vec<u8>, NoMemory>
        ensures { IfOk result (λ text. text.items ≡ heat_text self.now) }
    {
        let mut text = Vec::new(alloc);
        add_heat(&mut text, self)?;
        Ok(text)
    }
}
