//! Text as XML has it.

use std::alloc::{AllocError, Global};

/// A text in which the characters that XML reserves stand as references.
pub fn escaped(alloc: Global, raw: &str) -> Result<String, AllocError> {
    let mut text = String::new(alloc);
    for character in raw.chars() {
        match character {
            '&' => text.push_str("&amp;")?,
            '<' => text.push_str("&lt;")?,
            '>' => text.push_str("&gt;")?,
            '"' => text.push_str("&quot;")?,
            '\'' => text.push_str("&#39;")?,
            _ => text.push(character)?,
        }
    }
    Ok(text)
}
