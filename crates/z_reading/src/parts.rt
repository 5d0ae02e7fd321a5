//! The parts of a line: its label, its operation, and what stands behind it.
ghost use Rattle.std.specs.Prelude.{◌≡◌, ℕ, ◌≤◌, length, drop, IfSome, All};
ghost use Rattle.std.specs.List.{prefix_len};
ghost use Rattle.z_text.specs.Line.{is_blank, is_inked};
ghost use Rattle.z_text.specs.Tokens.{LiesIn};
ghost use Rattle.z_reading.specs.Listing.{label_in, first_token, operation_in, heads_in, field_behind};

use z_text::Token;

/// The label of a line, empty where there is none.
pub(crate) fn label_in<'a>(line: &'a [u8], tokens: &[Token]) -> &'a [u8]
    requires { All (LiesIn (length line.now)) tokens.now }
    ensures { result.now ≡ label_in line.now tokens.now }
{
    match tokens {
        [label, ..] => {
            if label.first == 0 {
                return &line[label.first..label.end];
            }
            &[]
        }
        [] => &[],
    }
}

/// The operation of a line, if it says something.
pub fn operation_in(tokens: &[Token]) -> Option<Token>
    ensures is { result ≡ operation_in tokens.now }
    ensures inside { (n : ℕ) → All (LiesIn n) tokens.now → IfSome result (LiesIn n) }
{
    match tokens {
        [] => None,
        [head, rest @ ..] => {
            if head.first == 0 {
                return first_token(rest);
            }
            Some(*head)
        }
    }
}

fn first_token(tokens: &[Token]) -> Option<Token>
    ensures is { result ≡ first_token tokens.now }
    ensures inside { (n : ℕ) → All (LiesIn n) tokens.now → IfSome result (LiesIn n) }
{
    match tokens {
        [] => None,
        [token, ..] => Some(*token),
    }
}

/// How many tokens stand before the operands.
pub fn heads_in(tokens: &[Token]) -> usize
    ensures { result ≡ heads_in tokens.now }
{
    match tokens {
        [] => 0,
        [head, ..] => { if head.first == 0 { 2 } else { 1 } }
    }
}

fn count_blanks(line: &[u8]) -> usize
    ensures is { result ≡ prefix_len is_blank line.now }
    ensures within { result ≤ length line.now }
{
    line.iter().take_while(|b| **b == b' ').count()
}

fn count_inked(line: &[u8]) -> usize
    ensures is { result ≡ prefix_len is_inked line.now }
    ensures within { result ≤ length line.now }
{
    line.iter().take_while(|b| **b != b' ').count()
}

/// The operands as they stand behind the end of the operation.
#[tactic(auto, using(std::proofs::lemmas::List::take_rest))]
pub fn field_behind(end: usize, line: &[u8]) -> &[u8]
    requires { end ≤ length line.now }
    ensures { result.now ≡ field_behind end line.now }
{
    let first = end + count_blanks(&line[end..]);
    let last = first + count_inked(&line[first..]);
    &line[first..last]
}

/// The tokens without so many at the front.
pub fn behind(tokens: &[Token], count: usize) -> &[Token]
    ensures is { result.now ≡ drop count tokens.now }
    ensures inside { (n : ℕ) → All (LiesIn n) tokens.now → All (LiesIn n) result.now }
{
    if count <= tokens.len() {
        return &tokens[count..];
    }
    &[]
}
