//! Lines of steps, which most entries are, read by their few bytes.
ghost use Rattle.std.specs.Prelude.{◌≡◌, ◌<◌, IfSome, length};
ghost use Rattle.tx_journal.specs.Lines.{entry_text};
ghost use Rattle.tx_journal.specs.declared.entries.Entry.TheVariants.{Step};

/// The CPU of a step, where the line has four bytes and is one.
#[tactic(auto, using(crate::proofs::StepLines::one_digit))]
fn step_below_ten(line: &[u8]) -> Option<u32>
    requires { length line.now ≡ 4 }
    ensures text { IfSome result (λ cpu. line.now ≡ entry_text (Step cpu)) }
    ensures few { IfSome result (λ cpu. cpu < 20) }
{
    if line[0] != b'S' {
        return None;
    }
    if line[1] != b' ' {
        return None;
    }
    if line[3] != b'\n' {
        return None;
    }
    let digit = line[2];
    if digit < b'0' || digit > b'9' {
        return None;
    }
    Some(u32::from(digit - b'0'))
}

/// The CPU of a step, where the line has five bytes and is one of a CPU below 20.
#[tactic(auto, using(crate::proofs::StepLines::two_digits_from_ten))]
fn step_from_ten(line: &[u8]) -> Option<u32>
    requires { length line.now ≡ 5 }
    ensures text { IfSome result (λ cpu. line.now ≡ entry_text (Step cpu)) }
    ensures few { IfSome result (λ cpu. cpu < 20) }
{
    if line[0] != b'S' {
        return None;
    }
    if line[1] != b' ' {
        return None;
    }
    if line[2] != b'1' {
        return None;
    }
    if line[4] != b'\n' {
        return None;
    }
    let digit = line[3];
    if digit < b'0' || digit > b'9' {
        return None;
    }
    Some(u32::from(digit - b'0') + 10)
}

/// The CPU of a step, where a line is one of a CPU below 20. Where None comes, it may still be a step.
pub fn step_cpu(line: &[u8]) -> Option<u32>
    ensures text { IfSome result (λ cpu. line.now ≡ entry_text (Step cpu)) }
    ensures few { IfSome result (λ cpu. cpu < 20) }
{
    match line.len() {
        4 => step_below_ten(line),
        5 => step_from_ten(line),
        _ => None,
    }
}
