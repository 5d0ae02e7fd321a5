//! What the lines of a CPU claim that no history tells: its attempt, its turns, and what it asked.
ghost use Rattle.std.specs.Prelude.{◌≡◌, ◌≢◌, ◌<◌, ◌≤◌, ◌^◌, ℕ, List, ◌∷◌, ◌++◌, [], IfSome, IfNone};
ghost use Rattle.std.specs.Prelude.{IsTrue, ◌↔◌, codes};
ghost use Rattle.tx_journal.specs.Numbers.{Lacks};
ghost use Rattle.std.specs.Fmt.{decimal};
ghost use Rattle.report_form.specs.declared.words.Word.{Word};
ghost use Rattle.report_form.specs.declared.words.Word.TheVariants.{Fixed, AtMost};
ghost use Rattle.report_form.specs.declared.words.Name.{Name};
ghost use Rattle.report_form.specs.declared.rows.Row.TheVariants as row;
ghost use Rattle.report_form.specs.Words.{name_text};
ghost use Rattle.report_form.specs.Spelling.{Spelled};
ghost use Rattle.report_form.specs.Rows.{IsRow};
ghost use Rattle.report_text.specs.Processor.{attempt_line, counts_line};
ghost use Rattle.tx_check.specs.Sound.{AreSmall, IsSmall};
ghost use Rattle.tx_check.specs.Claims.{claim_of, counts_of, Numbered, Named, Ends, IsLabelled, IsLabelledEnd};

use tx_journal::read_number;

/// An attempt that a line claims.
#[derive(Clone, Copy)]
pub(crate) struct Claim {
    /// How many begins are open.
    pub depth: u64,
    /// How many instructions are completed.
    pub completed: u32,
}

/// The numbers in a line of counts.
#[derive(Clone, Copy)]
pub(crate) struct Tally {
    pub turns: u64,
    pub asked: u64,
    pub rejected: u64,
    pub commits: u64,
    pub aborts: u64,
}

/// What stands in front of the first byte that is this one, and behind it; None exactly where it is not there.
pub(crate) fn cut(text: &[u8], stop: u8) -> Option<(&[u8], &[u8])>
    ensures some { IfSome result (λ parts. text.now ≡ parts.0.now ++ stop ∷ parts.1.now) }
    ensures first { IfSome result (λ parts. Lacks stop parts.0.now) }
    ensures none { IfNone result (Lacks stop text.now) }
{
    let at = text.iter().position(|byte| *byte == stop)?;
    Some((&text[..at], &text[at + 1..]))
}

/// The number that a text is; None exactly where it is none of 64 bits.
fn number_in(text: &[u8]) -> Option<u64>
    ensures some { IfSome result (λ n. text.now ≡ decimal n) }
    ensures fits { IfSome result (λ n. n < 2 ^ 64) }
    ensures none { IfNone result ((n : ℕ) → n < 2 ^ 64 → text.now ≢ decimal n) }
{
    read_number(text)
}

/// A number, and what stands behind it and its blank.
#[derive(Clone, Copy)]
struct FirstNumber<'a> {
    number: u64,
    rest: &'a [u8],
}

/// What stands behind the first word of a line that has further words.
fn behind_word(text: &[u8]) -> &[u8]
    ensures { (n : Name) (next : Word) (others : List Word) → Spelled (Fixed n ∷ next ∷ others) text.now
        → Named n next others text.now result.now }
{
    let Some((front, rest)) = cut(text, b' ') else {
        return text;
    };
    rest
}

/// The number in front of a blank, and what stands behind it.
fn number_before(text: &[u8]) -> FirstNumber<'_>
    ensures { (limit : ℕ) (next : Word) (others : List Word) → Spelled (AtMost limit ∷ next ∷ others) text.now
        → Numbered limit next others text.now result.number result.rest.now }
{
    let Some((front, rest)) = cut(text, b' ') else {
        return FirstNumber {
            number: 0,
            rest: text,
        };
    };
    let Some(number) = number_in(front) else {
        return FirstNumber {
            number: 0,
            rest: text,
        };
    };
    FirstNumber { number, rest }
}

/// The number at the end of a line.
fn number_at_end(text: &[u8]) -> u64
    ensures { (limit : ℕ) → Spelled (AtMost limit ∷ []) text.now → Ends limit text.now result }
{
    let Some((front, rest)) = cut(text, b'\n') else {
        return 0;
    };
    let Some(number) = number_in(front) else {
        return 0;
    };
    number
}

/// The number behind a label.
fn labelled(text: &[u8]) -> FirstNumber<'_>
    ensures { (n : Name) (limit : ℕ) (next : Word) (others : List Word)
        → Spelled (Fixed n ∷ AtMost limit ∷ next ∷ others) text.now
        → IsLabelled n limit next others text.now result.number result.rest.now }
{
    let digits = behind_word(text);
    number_before(digits)
}

/// The number behind a label at the end of a line.
fn labelled_at_end(text: &[u8]) -> u64
    ensures { (n : Name) (limit : ℕ) → Spelled (Fixed n ∷ AtMost limit ∷ []) text.now
        → IsLabelledEnd n limit text.now result }
{
    let digits = behind_word(text);
    number_at_end(digits)
}

/// The counts in their line.
pub(crate) fn read_counts(line: &[u8]) -> Tally
    requires { IsRow 0 row.Counts line.now }
    ensures told { line.now ≡ counts_line (counts_of result) }
    ensures small { AreSmall (counts_of result) }
{
    let rest = behind_word(line);
    let turns = labelled(rest);
    let asked = labelled(turns.rest);
    let rejected = labelled(asked.rest);
    let commits = labelled(rejected.rest);
    let aborts = labelled_at_end(commits.rest);
    Tally {
        turns: turns.number,
        asked: asked.number,
        rejected: rejected.number,
        commits: commits.number,
        aborts,
    }
}

/// Whether a line says that there is no attempt.
fn claims_none(line: &[u8]) -> bool
    ensures { IsTrue result ↔ (line.now ≡ codes "TX NONE\n") }
{
    line == b"TX NONE\n".as_slice()
}

/// The attempt in its line, None where the line says that there is none.
pub(crate) fn read_attempt(line: &[u8]) -> Option<Claim>
    requires { IsRow 0 row.Attempt line.now }
    ensures told { line.now ≡ attempt_line (claim_of result) }
    ensures small { IsSmall (claim_of result) }
{
    if claims_none(line) {
        return None;
    }
    let rest = behind_word(line);
    let depth = labelled(rest);
    let completed = labelled_at_end(depth.rest);
    Some(Claim {
        depth: depth.number,
        completed: completed as u32,
    })
}
