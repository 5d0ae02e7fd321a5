//! Words: what stands between two blanks of a line.
ghost use Rattle.std.specs.Prelude.{◌≡◌, ◌↔◌, true, IsTrue, EachIndex, slice_index};
ghost use Rattle.report_form.specs.Words.{name_text, is_digit, AreDigits, IsNumber, IsEvent, IsWord};

use tx_journal::read_number;

/// A word that stands as it is.
#[derive(Clone, Copy, Debug, PartialEq, Eq)]
pub enum Name {
    /// No byte at all, as in front of a blank that begins a line.
    Empty,
    /// `0`
    Zero,
    /// `6`
    Six,
    /// `00`
    From0,
    /// `04`
    From4,
    /// `08`
    From8,
    /// `12`
    From12,
    /// `ABORTS`
    Aborts,
    /// `AR`
    Access,
    /// `ASKED`
    Asked,
    /// `AT`
    At,
    /// `CC`
    Condition,
    /// `CODE`
    Code,
    /// `COMMITS`
    Commits,
    /// `COMPLETED`
    Completed,
    /// `COUNTS`
    Counts,
    /// `CPU`
    Cpu,
    /// `D`
    Block,
    /// `DEPTH`
    Depth,
    /// `END`
    End,
    /// `FLAGS`
    Flags,
    /// `FORMAT`
    Format,
    /// `GR`
    General,
    /// `HALTED`
    Halted,
    /// `HISTORY`
    History,
    /// `INTERRUPTED`
    Interrupted,
    /// `M`
    Bytes,
    /// `MASK`
    Mask,
    /// `NONE`
    Nothing,
    /// `PENDING`
    Pending,
    /// `PI`
    Interruption,
    /// `PSW`
    Psw,
    /// `REJECTED`
    Rejected,
    /// `REPORT`
    Report,
    /// `RUNNING`
    Running,
    /// `SCHED`
    Sched,
    /// `SCHEDULE`
    Schedule,
    /// `STATUS`
    Status,
    /// `TOKEN`
    Token,
    /// `TURNS`
    Turns,
    /// `TX`
    Transaction,
    /// `ZTX`
    Ztx,
}

/// What a word of a line may be.
#[derive(Clone, Copy, Debug, PartialEq, Eq)]
pub enum Word {
    /// The name as it is.
    Fixed(Name),
    /// A number in decimal, without leading zeros, that is not above this.
    AtMost(u64),
    /// So many hexadecimal digits in lower case.
    Digits(u32),
    /// An event of a CPU whose number is not above this: the number, behind an X for one from outside.
    Event(u32),
}

impl Name {
    /// The word.
    pub fn text(self) -> &'static [u8]
        ensures { result.now ≡ name_text self }
    {
        match self {
            Name::Empty => b"",
            Name::Zero => b"0",
            Name::Six => b"6",
            Name::From0 => b"00",
            Name::From4 => b"04",
            Name::From8 => b"08",
            Name::From12 => b"12",
            Name::Aborts => b"ABORTS",
            Name::Access => b"AR",
            Name::Asked => b"ASKED",
            Name::At => b"AT",
            Name::Condition => b"CC",
            Name::Code => b"CODE",
            Name::Commits => b"COMMITS",
            Name::Completed => b"COMPLETED",
            Name::Counts => b"COUNTS",
            Name::Cpu => b"CPU",
            Name::Block => b"D",
            Name::Depth => b"DEPTH",
            Name::End => b"END",
            Name::Flags => b"FLAGS",
            Name::Format => b"FORMAT",
            Name::General => b"GR",
            Name::Halted => b"HALTED",
            Name::History => b"HISTORY",
            Name::Interrupted => b"INTERRUPTED",
            Name::Bytes => b"M",
            Name::Mask => b"MASK",
            Name::Nothing => b"NONE",
            Name::Pending => b"PENDING",
            Name::Interruption => b"PI",
            Name::Psw => b"PSW",
            Name::Rejected => b"REJECTED",
            Name::Report => b"REPORT",
            Name::Running => b"RUNNING",
            Name::Sched => b"SCHED",
            Name::Schedule => b"SCHEDULE",
            Name::Status => b"STATUS",
            Name::Token => b"TOKEN",
            Name::Turns => b"TURNS",
            Name::Transaction => b"TX",
            Name::Ztx => b"ZTX",
        }
    }
}

/// Whether a byte is a hexadecimal digit in lower case.
fn is_digit(byte: u8) -> bool
    ensures { result ≡ is_digit byte }
{
    byte.is_ascii_digit() || (97 <= byte && byte <= 102)
}

/// Whether a text is a number that is not above a limit.
fn is_number(limit: u64, text: &[u8]) -> bool
    ensures { IsTrue result ↔ IsNumber limit text.now }
{
    match read_number(text) {
        Some(number) => number <= limit,
        None => false,
    }
}

/// Whether a text has hexadecimal digits alone.
fn has_digits_alone(text: &[u8]) -> bool
    ensures { IsTrue result ↔ EachIndex text.now (λ k. is_digit (slice_index text.now k) ≡ true) }
{
    text.iter().all(|byte| is_digit(*byte))
}

/// Whether a text is so many hexadecimal digits.
fn is_digits(count: u32, text: &[u8]) -> bool
    ensures { IsTrue result ↔ AreDigits count text.now }
{
    if text.len() != count as usize {
        return false;
    }
    has_digits_alone(text)
}

/// Whether a text is an event of a CPU whose number is not above this one.
fn is_event(last: u32, text: &[u8]) -> bool
    ensures { IsTrue result ↔ IsEvent last text.now }
{
    let Some((first, number)) = text.split_first() else {
        return is_number(u64::from(last), text);
    };
    if *first == b'X' {
        return is_number(u64::from(last), number);
    }
    is_number(u64::from(last), text)
}

/// Whether a text is the word.
pub(crate) fn is_word(word: Word, text: &[u8]) -> bool
    ensures { IsTrue result ↔ IsWord word text.now }
{
    match word {
        Word::Fixed(name) => text == name.text(),
        Word::AtMost(limit) => is_number(limit, text),
        Word::Digits(count) => is_digits(count, text),
        Word::Event(last) => is_event(last, text),
    }
}
