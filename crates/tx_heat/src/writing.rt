//! Conflicts by line as text.
ghost use Rattle.std.specs.Prelude.{◌≡◌, ◌++◌, ◌+◌, ◌<◌, ◌≤◌, ◌^◌, OnOk, length, nat_lt, sum_by};
ghost use Rattle.line_table.specs.Sizes.{storage_lines};
ghost use Rattle.report_text.specs.Digits.{labelled, word_text};
ghost use Rattle.tx_heat.specs.Text.{counts_text, line_text, line_text_where, lines_text, total_text};
ghost use Rattle.tx_heat.specs.declared.counting.LineHeat.{LineHeat};

use crate::counting::LineHeat;
use std::alloc::AllocError;

/// The bytes of a line of storage.
const LINE: u32 = 256;

/// Numbers of conflicts.
#[derive(Clone, Copy)]
struct Sums {
    rejects: u128,
    aborts: u128,
    disjoint: u128,
}

/// Adds a label and a number.
#[tactic(auto, unfolding(report_text::specs::Digits::labelled))]
fn add_count(text: &mut Vec<u8>, label: &[u8], number: u128) -> Result<(), AllocError>
    ensures { OnOk result (text.new.items ≡ text.old.items ++ labelled label.now number) }
{
    let mut digits = itoa::Buffer::new();
    text.extend_from_slice(label)?;
    text.extend_from_slice(digits.format(number).as_bytes())
}

/// Adds the address of a byte as eight hexadecimal digits.
fn add_address(text: &mut Vec<u8>, address: u32) -> Result<(), AllocError>
    ensures { OnOk result (text.new.items ≡ text.old.items ++ word_text address) }
{
    let mut digits = [0u8; 8];
    match hex::encode_to_slice(address.to_be_bytes(), &mut digits) {
        Ok(()) => text.extend_from_slice(&digits),
        Err(_) => unreachable!(),
    }
}

/// Adds the numbers, to the end of a line of text.
#[tactic(auto, unfolding(crate::specs::Text::counts_text))]
fn add_counts(text: &mut Vec<u8>, sums: Sums) -> Result<(), AllocError>
    requires { sums.rejects + sums.aborts < 2 ^ 128 }
    ensures { OnOk result (text.new.items ≡ text.old.items ++ counts_text sums.rejects sums.aborts sums.disjoint) }
{
    add_count(text, b" CONFLICTS ", sums.rejects + sums.aborts)?;
    add_count(text, b" REJECTS ", sums.rejects)?;
    add_count(text, b" ABORTS ", sums.aborts)?;
    add_count(text, b" FALSE ", sums.disjoint)?;
    text.extend_from_slice(b"\n")
}

/// The conflicts of one line, as numbers that can be added.
fn sums_of(heat: LineHeat) -> Sums
    ensures rejects { result.rejects ≡ heat.rejects }
    ensures aborts { result.aborts ≡ heat.aborts }
    ensures disjoint { result.disjoint ≡ heat.disjoint }
    ensures few_rejects { result.rejects < 2 ^ 64 }
    ensures few_aborts { result.aborts < 2 ^ 64 }
    ensures few_disjoint { result.disjoint < 2 ^ 64 }
{
    Sums {
        rejects: u128::from(heat.rejects),
        aborts: u128::from(heat.aborts),
        disjoint: u128::from(heat.disjoint),
    }
}

/// Adds the line of text of a line of storage.
#[tactic(auto, unfolding(crate::specs::Text::line_text))]
fn add_line(text: &mut Vec<u8>, line: u32, heat: LineHeat) -> Result<(), AllocError>
    requires { line < storage_lines }
    ensures { OnOk result (text.new.items ≡ text.old.items ++ line_text line heat) }
{
    text.extend_from_slice(b"LINE ")?;
    add_address(text, LINE * line)?;
    add_counts(text, sums_of(heat))
}

/// Whether there are conflicts.
fn is_hot(heat: LineHeat) -> bool
    ensures { result ≡ nat_lt 0 (heat.rejects + heat.aborts) }
{
    let sums = sums_of(heat);
    sums.rejects + sums.aborts > 0
}

/// Adds the line of text of a line of storage, where that has conflicts.
fn add_hot_line(text: &mut Vec<u8>, line: u32, heat: LineHeat) -> Result<(), AllocError>
    requires { line < storage_lines }
    ensures { OnOk result (text.new.items ≡ text.old.items ++ line_text_where line heat) }
{
    if is_hot(heat) {
        return add_line(text, line, heat);
    }
    Ok(())
}

/// Adds the lines of text of all lines of storage that have conflicts.
pub fn add_lines(text: &mut Vec<u8>, lines: &[LineHeat]) -> Result<(), AllocError>
    requires { length lines.now ≤ storage_lines }
    ensures { OnOk result (text.new.items ≡ text.old.items ++ lines_text lines.now) }
{
    for (line, heat) in lines.iter().enumerate() {
        add_hot_line(text, line as u32, *heat)?;
    }
    Ok(())
}

/// The conflicts of all lines.
fn total(lines: &[LineHeat]) -> Sums
    requires { length lines.now ≤ storage_lines }
    ensures rejects { result.rejects ≡ sum_by (λ (h : LineHeat). h.rejects) lines.now }
    ensures aborts { result.aborts ≡ sum_by (λ (h : LineHeat). h.aborts) lines.now }
    ensures disjoint { result.disjoint ≡ sum_by (λ (h : LineHeat). h.disjoint) lines.now }
    ensures few_rejects { result.rejects ≤ 2 ^ 76 }
    ensures few_aborts { result.aborts ≤ 2 ^ 76 }
{
    let mut rejects: u128 = 0;
    let mut aborts: u128 = 0;
    let mut disjoint: u128 = 0;
    for heat in lines {
        let sums = sums_of(*heat);
        rejects += sums.rejects;
        aborts += sums.aborts;
        disjoint += sums.disjoint;
    }
    Sums {
        rejects,
        aborts,
        disjoint,
    }
}

/// Adds the totals.
#[tactic(auto, unfolding(crate::specs::Text::total_text))]
pub fn add_total(text: &mut Vec<u8>, lines: &[LineHeat]) -> Result<(), AllocError>
    requires { length lines.now ≤ storage_lines }
    ensures { OnOk result (text.new.items ≡ text.old.items ++ total_text lines.now) }
{
    text.extend_from_slice(b"TOTAL")?;
    add_counts(text, total(lines))
}
