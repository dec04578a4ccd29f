//! Text in markup.
use std::alloc::AllocError;

// Appends a character of text: those that markup has a use for by their names, and those that it
// may not have as the character that stands for what cannot be shown.
fn put_character(out: &mut String, character: char) -> Result<(), AllocError> {
    match character {
        '&' => out.push_str("&amp;"),
        '<' => out.push_str("&lt;"),
        '>' => out.push_str("&gt;"),
        '"' => out.push_str("&quot;"),
        '\'' => out.push_str("&#39;"),
        '\u{0}'..='\u{1f}' | '\u{fffe}' | '\u{ffff}' => out.push('\u{fffd}'),
        _ => out.push(character),
    }
}

/// Appends text, so that it ends no element and no attribute.
pub fn put_text(out: &mut String, text: &str) -> Result<(), AllocError> {
    for character in text.chars() {
        put_character(out, character)?;
    }
    Ok(())
}
