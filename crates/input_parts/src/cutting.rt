//! Texts up to a byte, and behind it.
ghost use Rattle.std.specs.Prelude.{◌≡◌, ◌++◌, ◌∷◌, IfSome, IfNone};
ghost use Rattle.tx_journal.specs.Numbers.{Lacks};

/// What stands in front of the first byte that is this one, and behind it; None exactly where it is not there.
pub fn cut(text: &[u8], stop: u8) -> Option<(&[u8], &[u8])>
    ensures some { IfSome result (λ parts. text.now ≡ parts.0.now ++ stop ∷ parts.1.now) }
    ensures first { IfSome result (λ parts. Lacks stop parts.0.now) }
    ensures none { IfNone result (Lacks stop text.now) }
{
    let at = text.iter().position(|byte| *byte == stop)?;
    Some((&text[..at], &text[at + 1..]))
}
