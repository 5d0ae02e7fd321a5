//! The parts of a line: its label, its operation and its operands.
ghost use Rattle.std.specs.Prelude.{◌≡◌, ◌<◌, ◌≤◌, length, IsTrue};
ghost use Rattle.std.specs.List.{prefix_len, list_all};
ghost use Rattle.z_text.specs.Line.{is_blank, is_inked, is_printed, is_letter_or_digit, past, fields_of};
ghost use Rattle.z_text.specs.Line.{says_nothing, is_name, keeps_operands_whole};

/// Where the parts of a line stand: its label from the first byte to `label_end`, its operation, and its
/// operands.
#[derive(Clone, Copy, Debug, PartialEq, Eq)]
pub struct Fields {
    /// The place after the label, 0 where there is none.
    pub label_end: usize,
    /// The first byte of the operation.
    pub operation: usize,
    /// The place after the operation.
    pub operation_end: usize,
    /// The first byte of the operands.
    pub operands: usize,
    /// The place after the operands, where the remark begins.
    pub operands_end: usize,
}

fn count_blanks(line: &[u8]) -> usize
    ensures value { result ≡ prefix_len is_blank line.now }
    ensures within { result ≤ length line.now }
{
    line.iter().take_while(|b| **b == b' ').count()
}

/// How many bytes stand before the first blank.
pub(crate) fn count_inked(line: &[u8]) -> usize
    ensures value { result ≡ prefix_len is_inked line.now }
    ensures within { result ≤ length line.now }
{
    line.iter().take_while(|b| **b != b' ').count()
}

#[tactic(auto, using(std::proofs::lemmas::List::take_rest))]
fn past_blanks(line: &[u8], at: usize) -> usize
    requires { at ≤ length line.now }
    ensures value { result ≡ past is_blank at line.now }
    ensures within { result ≤ length line.now }
{
    at + count_blanks(&line[at..])
}

#[tactic(auto, using(std::proofs::lemmas::List::take_rest))]
fn past_inked(line: &[u8], at: usize) -> usize
    requires { at ≤ length line.now }
    ensures value { result ≡ past is_inked at line.now }
    ensures within { result ≤ length line.now }
{
    at + count_inked(&line[at..])
}

/// The parts of a line.
#[tactic(auto, unfolding(crate::specs::Line::fields_of))]
pub(crate) fn fields_of(line: &[u8]) -> Fields
    ensures value { result ≡ fields_of line.now }
    ensures label { result.label_end ≤ result.operation }
    ensures operation { result.operation ≤ result.operation_end }
    ensures between { result.operation_end ≤ result.operands }
    ensures operands { result.operands ≤ result.operands_end }
    ensures within { result.operands_end ≤ length line.now }
{
    let label_end = past_inked(line, 0);
    let operation = past_blanks(line, label_end);
    let operation_end = past_inked(line, operation);
    let operands = past_blanks(line, operation_end);
    let operands_end = past_inked(line, operands);
    Fields {
        label_end,
        operation,
        operation_end,
        operands,
        operands_end,
    }
}

fn are_blank(line: &[u8]) -> bool
    ensures { result ≡ list_all is_blank line.now }
{
    line.iter().all(|b| *b == b' ')
}

/// Whether the line is empty, all blanks, or a comment.
pub(crate) fn says_nothing(line: &[u8]) -> bool
    ensures { result ≡ says_nothing line.now }
{
    match line {
        [] => true,
        [b'*', ..] => true,
        _ => are_blank(line),
    }
}

fn are_letters_or_digits(text: &[u8]) -> bool
    ensures { result ≡ list_all is_letter_or_digit text.now }
{
    text.iter()
        .all(|b| b.is_ascii_uppercase() || b.is_ascii_digit())
}

/// Whether it is a capital letter with up to 15 capital letters or digits.
pub(crate) fn is_name(text: &[u8]) -> bool
    ensures value { result ≡ is_name text.now }
    ensures some { IsTrue result → 0 < length text.now }
    ensures short { IsTrue result → length text.now ≤ 16 }
{
    match text {
        [] => false,
        [first, rest @ ..] => {
            if !first.is_ascii_uppercase() || 15 < rest.len() {
                return false;
            }
            are_letters_or_digits(rest)
        }
    }
}

/// Whether no byte is outside 32 to 126.
pub(crate) fn are_printed(text: &[u8]) -> bool
    ensures { result ≡ list_all is_printed text.now }
{
    text.iter().all(|b| 32 <= *b && *b <= 126)
}

/// Whether it is DC or SCHED, whose operands are not split.
pub(crate) fn keeps_operands_whole(operation: &[u8]) -> bool
    ensures { result ≡ keeps_operands_whole operation.now }
{
    match operation {
        [b'D', b'C'] => true,
        [b'S', b'C', b'H', b'E', b'D'] => true,
        _ => false,
    }
}
