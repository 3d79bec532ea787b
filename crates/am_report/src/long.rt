//! The details below the line of a version in long lines.

ghost use Rattle.std.specs.Prelude.{◌≡◌, ◌++◌, IfOk, OnOk, string_bytes};
ghost use Rattle.am_report.specs.Lists.{behind_commas};
ghost use Rattle.am_report.specs.Long.{about_lines, change_line, field_line, fields_change, fields_line, long_key, long_silence, matcher_word, matchers_word};
ghost use Rattle.am_report.specs.Long.{moment_change, moment_changes, sign_of, text_change, text_changes};
ghost use Rattle.am_report.specs.Words.{word_of};

use crate::less::differing_text;
use crate::moments::shown_moment;
use crate::with_unknown::WithUnknown;
use crate::words::{EscapedWord, ListedWord, Tail};
use am_nflog::LogKey;
use am_silence::{MatcherIter, MatcherKind, MatcherRef, MeshSilence};
use am_version_order::Moment;
use std::alloc::{AllocError, Global};

/// Returns the sign between a label's name and the pattern with which its value is compared.
fn sign_of(kind: MatcherKind) -> &'static str
    ensures { result.now ≡ sign_of kind }
{
    match kind {
        MatcherKind::Equal => "=",
        MatcherKind::Regexp => "=~",
        MatcherKind::NotEqual => "!=",
        MatcherKind::NotRegexp => "!~",
    }
}

/// Appends a matcher.
fn append_matcher(out: &mut String, matcher: &MatcherRef<'_>) -> Result<(), AllocError>
    ensures { OnOk result (string_bytes out.new ≡ string_bytes out.old ++ matcher_word matcher.now) }
{
    let name = ListedWord(matcher.name().as_bytes());
    let sign = sign_of(matcher.kind());
    let pattern = ListedWord(matcher.pattern().as_bytes());
    write!(out, "{name}{sign}{pattern}")
}

/// Appends matchers, each behind a comma.
fn append_matchers(out: &mut String, matchers: MatcherIter<'_>) -> Result<(), AllocError>
    ensures { OnOk result (string_bytes out.new ≡ string_bytes out.old ++ behind_commas matcher_word matchers.entry) }
{
    for matcher in matchers {
        write!(out, ",")?;
        append_matcher(out, &matcher)?;
    }
    Ok(())
}

/// Converts matchers to a word.
fn matchers_text(alloc: Global, matchers: MatcherIter<'_>) -> Result<String, AllocError>
    ensures { IfOk result (λ text. string_bytes text ≡ matchers_word matchers.entry) }
{
    let mut matchers = matchers;
    let mut text = String::new(alloc);
    let Some(first) = matchers.next() else {
        text.push_str("-")?;
        return Ok(text);
    };
    append_matcher(&mut text, &first)?;
    append_matchers(&mut text, matchers)?;
    Ok(text)
}

/// Converts a text to a word.
fn word_text(alloc: Global, text: &str) -> Result<String, AllocError>
    ensures { IfOk result (λ word. string_bytes word ≡ word_of text.now) }
{
    let word = EscapedWord(text.as_bytes());
    format!(in alloc; "{word}")
}

/// Appends the line of a field.
#[tactic(auto, unfolding(crate::specs::Long::field_line))]
fn append_field(out: &mut String, field: &str, word: &str) -> Result<(), AllocError>
    ensures { OnOk result (string_bytes out.new ≡ string_bytes out.old ++ field_line field.now word.now) }
{
    writeln!(out, "  {field} {word}")
}

/// Appends the line of a field that changed.
#[tactic(auto, unfolding(crate::specs::Long::change_line))]
fn append_change(out: &mut String, field: &str, from: &str, to: &str) -> Result<(), AllocError>
    ensures { OnOk result (string_bytes out.new ≡ string_bytes out.old ++ change_line field.now from.now to.now) }
{
    if from == to {
        return Ok(());
    }
    writeln!(out, "  changed {field} {from} to {to}")
}

/// Appends the line of a moment that changed.
fn append_moment_change(
    out: &mut String,
    field: &str,
    from: Moment,
    to: Moment,
) -> Result<(), AllocError>
    ensures { OnOk result (string_bytes out.new ≡ string_bytes out.old ++ moment_change field.now from to) }
{
    let from = shown_moment(from);
    let to = shown_moment(to);
    append_change(out, field, from.as_str(), to.as_str())
}

/// Appends the line of a text that changed.
fn append_text_change(
    alloc: Global,
    out: &mut String,
    field: &str,
    from: &str,
    to: &str,
) -> Result<(), AllocError>
    ensures { OnOk result (string_bytes out.new ≡ string_bytes out.old ++ text_change field.now from.now to.now) }
{
    let from = word_text(alloc, from)?;
    let to = word_text(alloc, to)?;
    append_change(out, field, from.as_str(), to.as_str())
}

/// Appends the matchers of a silence, its author and its comment.
fn append_about(alloc: Global, out: &mut String, silence: &MeshSilence) -> Result<(), AllocError>
    ensures { OnOk result (string_bytes out.new ≡ string_bytes out.old ++ about_lines silence.now.silence) }
{
    let matchers = matchers_text(alloc, silence.matchers())?;
    let author = word_text(alloc, silence.created_by())?;
    let comment = word_text(alloc, silence.comment())?;
    append_field(out, "matchers", matchers.as_str())?;
    append_field(out, "author", author.as_str())?;
    append_field(out, "comment", comment.as_str())
}

/// Appends the moments of a silence that changed.
fn append_moment_changes(
    out: &mut String,
    silence: &MeshSilence,
    greatest: &MeshSilence,
    has_expiries: bool,
) -> Result<(), AllocError>
    ensures { OnOk result (string_bytes out.new ≡ string_bytes out.old ++ moment_changes has_expiries silence.now greatest.now) }
{
    append_moment_change(out, "starts", silence.starts_at(), greatest.starts_at())?;
    append_moment_change(out, "ends", silence.ends_at(), greatest.ends_at())?;
    append_moment_change(out, "updated", silence.updated_at(), greatest.updated_at())?;
    if has_expiries {
        append_moment_change(out, "expires", silence.expires_at(), greatest.expires_at())?;
    }
    Ok(())
}

/// Appends the texts and the matchers of a silence that changed.
fn append_text_changes(
    alloc: Global,
    out: &mut String,
    silence: &MeshSilence,
    greatest: &MeshSilence,
) -> Result<(), AllocError>
    ensures { OnOk result (string_bytes out.new ≡ string_bytes out.old ++ text_changes silence.now.silence greatest.now.silence) }
{
    let from = matchers_text(alloc, silence.matchers())?;
    let to = matchers_text(alloc, greatest.matchers())?;
    append_change(out, "matchers", from.as_str(), to.as_str())?;
    append_text_change(
        alloc,
        out,
        "author",
        silence.created_by(),
        greatest.created_by(),
    )?;
    append_text_change(alloc, out, "comment", silence.comment(), greatest.comment())
}

/// Appends the line of the numbers of fields that changed, if there are any.
fn append_fields(out: &mut String, numbers: &str) -> Result<(), AllocError>
    ensures { OnOk result (string_bytes out.new ≡ string_bytes out.old ++ fields_line numbers.now) }
{
    if numbers.is_empty() {
        return Ok(());
    }
    writeln!(out, "  changed fields {numbers}")
}

/// Appends the line of the unknown fields that changed, if any did.
///
/// # Errors
///
/// [`AllocError`] if memory runs out. A part of the line may be left.
#[tactic(auto, unfolding(crate::specs::Long::fields_change))]
pub fn append_fields_change<V: WithUnknown>(
    out: &mut String,
    version: &V,
    greatest: &V,
) -> Result<(), AllocError>
    ensures { OnOk result (string_bytes out.new ≡ string_bytes out.old ++ fields_change (V.unknown_of version.now) (V.unknown_of greatest.now)) }
{
    let numbers = differing_text(*out.allocator(), version, greatest)?;
    append_fields(out, numbers.as_str())
}

/// Appends the details of a silence, and what changed from it to the greatest version.
///
/// # Errors
///
/// [`AllocError`] if memory runs out. A part of the lines may be left.
#[tactic(auto, unfolding(crate::specs::Long::long_silence))]
pub fn append_long_silence(
    out: &mut String,
    silence: &MeshSilence,
    greatest: &MeshSilence,
    has_expiries: bool,
) -> Result<(), AllocError>
    ensures { OnOk result (string_bytes out.new ≡ string_bytes out.old ++ long_silence has_expiries silence.now greatest.now) }
{
    let alloc = *out.allocator();
    append_about(alloc, out, silence)?;
    append_moment_changes(out, silence, greatest, has_expiries)?;
    append_text_changes(alloc, out, silence, greatest)?;
    append_fields_change(out, silence, greatest)
}

/// Appends the receiver and the group of an entry.
///
/// # Errors
///
/// [`AllocError`] if memory runs out. A part of the lines may be left.
#[tactic(auto, unfolding(crate::specs::Long::long_key))]
pub fn append_long_key(out: &mut String, key: &LogKey) -> Result<(), AllocError>
    ensures { OnOk result (string_bytes out.new ≡ string_bytes out.old ++ long_key key.now) }
{
    let group = Tail(key.group_key());
    let name = Tail(key.group_name().as_bytes());
    let integration = Tail(key.integration().as_bytes());
    let idx = key.idx();
    writeln!(
        out,
        "  receiver {name}/{integration}/{idx}\n  group {group}"
    )
}
