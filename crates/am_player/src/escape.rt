//! Texts as they are written in XML.

ghost use Rattle.std.specs.Prelude.{◌≡◌, ◌++◌, IfOk, OnOk, chars, string_bytes};
ghost use Rattle.std.specs.List.{flat_map};
ghost use Rattle.std.specs.Option.{option_copied};
ghost use Rattle.am_player.specs.Escapes.{escaped, reference_of, shortened, spelled};

use std::alloc::{AllocError, Global};

/// Returns what stands for a character that can't stand for itself.
fn reference_of(character: char) -> Option<&'static str>
    ensures { option_copied result ≡ reference_of character }
{
    match character {
        '&' => Some("&amp;"),
        '<' => Some("&lt;"),
        '>' => Some("&gt;"),
        '"' => Some("&quot;"),
        '\'' => Some("&#39;"),
        '\r' => Some("&#13;"),
        '\t' | '\n' => None,
        '\0'..='\u{1F}' | '\u{FFFE}' | '\u{FFFF}' => Some("\u{FFFD}"),
        _ => None,
    }
}

/// Appends a character.
fn append_character(out: &mut String, character: char) -> Result<(), AllocError>
    ensures { OnOk result (string_bytes out.new ≡ string_bytes out.old ++ spelled character) }
{
    match reference_of(character) {
        Some(reference) => out.push_str(reference),
        None => out.push(character),
    }
}

/// Appends characters.
fn append_characters(out: &mut String, characters: &[char]) -> Result<(), AllocError>
    ensures { OnOk result (string_bytes out.new ≡ string_bytes out.old ++ flat_map spelled characters.now) }
{
    for character in characters {
        append_character(out, *character)?;
    }
    Ok(())
}

/// Returns the characters of a text.
fn characters_of(alloc: Global, text: &str) -> Result<Vec<char>, AllocError>
    ensures { IfOk result (λ characters. characters.items ≡ chars text.now) }
{
    text.chars().collect(alloc)
}

/// Appends a text as it is written in XML: `&`, `<`, `>`, both quotes and a carriage return as references, and U+FFFD for each
/// character that XML doesn't have.
///
/// # Errors
///
/// [`AllocError`] if memory runs out.
pub fn append_escaped(alloc: Global, out: &mut String, text: &str) -> Result<(), AllocError>
    ensures appended { OnOk result (string_bytes out.new ≡ string_bytes out.old ++ escaped text.now) }
{
    let characters = characters_of(alloc, text)?;
    append_characters(out, &characters)
}

/// Does as [`append_escaped`] does with at most `most` characters. If the text has more, the last of them is an ellipsis.
///
/// # Errors
///
/// [`AllocError`] if memory runs out.
pub fn append_shortened(
    alloc: Global,
    out: &mut String,
    text: &str,
    most: usize,
) -> Result<(), AllocError>
    ensures appended { OnOk result (string_bytes out.new ≡ string_bytes out.old ++ shortened most text.now) }
{
    let characters = characters_of(alloc, text)?;
    if characters.len() <= most {
        return append_characters(out, &characters);
    }
    append_characters(out, &characters[..most.saturating_sub(1)])?;
    out.push_str("\u{2026}")
}
