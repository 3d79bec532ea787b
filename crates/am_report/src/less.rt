//! The words that say by what a version is less than a greater one.

ghost use Rattle.std.specs.Prelude.{◌≡◌, true, IfOk, string_bytes};
ghost use Rattle.am_version_order.specs.Versions.{is_below};
ghost use Rattle.am_report.specs.Less.{fields_word, is_same_known, less_word, part_word, word_of_numbers};
ghost use Rattle.am_report.specs.UnknownFields.{differing};

use crate::diff_field::DiffField;
use crate::field_numbers::append_differing;
use crate::groups::is_behind_by;
use crate::with_unknown::WithUnknown;
use am_version_order::Version;
use std::alloc::{AllocError, Global};

/// Returns the name of a part of the order.
fn part_name(part: DiffField) -> &'static str
    ensures { result.now ≡ part_word part }
{
    match part {
        DiffField::Update => "update",
        DiffField::Expiry => "expiry",
        DiffField::Bytes => "bytes",
    }
}

/// Returns whether two versions are the same apart from their unknown fields.
fn is_same_known<V: WithUnknown>(alloc: Global, version: &V, other: &V) -> Result<bool, AllocError>
    ensures { IfOk result (λ same. same ≡ is_same_known V.seen V.known_of version.now other.now) }
{
    let version = version.known(alloc)?;
    let other = other.known(alloc)?;
    Ok(version.canonical() == other.canonical())
}

/// Returns the numbers of the unknown fields by which two versions differ.
///
/// # Errors
///
/// [`AllocError`] if memory runs out.
pub fn differing_text<V: WithUnknown>(
    alloc: Global,
    version: &V,
    other: &V,
) -> Result<String, AllocError>
    ensures { IfOk result (λ text. string_bytes text ≡ differing (V.unknown_of version.now) (V.unknown_of other.now)) }
{
    let fields = version.unknown(alloc)?;
    let others = other.unknown(alloc)?;
    let mut numbers = String::new(alloc);
    append_differing(&mut numbers, &fields, &others)?;
    Ok(numbers)
}

/// Returns the word for versions that differ only by the fields of these numbers.
fn word_of_numbers(alloc: Global, numbers: &str) -> Result<String, AllocError>
    ensures { IfOk result (λ word. string_bytes word ≡ word_of_numbers numbers.now) }
{
    if numbers.is_empty() {
        return format!(in alloc; "bytes");
    }
    format!(in alloc; "fields {numbers}")
}

/// Returns the word for two versions that differ only by unknown fields.
fn fields_text<V: WithUnknown>(alloc: Global, version: &V, other: &V) -> Result<String, AllocError>
    ensures { IfOk result (λ text. string_bytes text ≡ fields_word V.unknown_of version.now other.now) }
{
    let numbers = differing_text(alloc, version, other)?;
    word_of_numbers(alloc, numbers.as_str())
}

/// Returns the name of the part of the order by which a version is less than a greater one; if both are the same apart from unknown
/// fields, the numbers of these.
///
/// # Errors
///
/// [`AllocError`] if memory runs out.
#[tactic(auto, unfolding(crate::specs::Less::less_word))]
pub fn less_by<V: WithUnknown>(
    alloc: Global,
    version: &V,
    greatest: &V,
) -> Result<String, AllocError>
    requires { is_below (V.seen version.now) (V.seen greatest.now) ≡ true }
    ensures { IfOk result (λ text. string_bytes text ≡ less_word V.seen V.unknown_of V.known_of version.now greatest.now) }
{
    let part = is_behind_by(version, greatest);
    if let DiffField::Bytes = part
        && is_same_known(alloc, version, greatest)?
    {
        return fields_text(alloc, version, greatest);
    }
    let name = part_name(part);
    format!(in alloc; "{name}")
}
