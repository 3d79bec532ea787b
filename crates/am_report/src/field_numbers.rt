//! The fields that readers kept without knowing them, by their numbers.

ghost use Rattle.std.specs.Prelude.{◌≡◌, ◌++◌, ◌==◌, [], ◌∷◌, Some, None, take, filter, IfOk, OnOk, string_bytes, if◌then◌else◌};
ghost use Rattle.std.specs.Option.{option_map_or};
ghost use Rattle.am_report.specs.UnknownFields.{between, bytes_at, differing, differs_at, named, named_of, numbers_in, unknown_numbers, with_numbers};

use crate::lists::FieldNumbers;
use am_wire::{Field, Fields, UnknownFields};
use std::alloc::{AllocError, Global};
use std::collections::BTreeSet;

/// The maximum number of numbers that are named.
const MOST_NAMED: usize = 16;

/// The maximum number of numbers that are looked at.
const MOST_COMPARED: usize = 256;

/// Adds the numbers of the fields that bytes spell.
fn add_numbers(numbers: &mut BTreeSet<u32>, bytes: &[u8]) -> Result<(), AllocError>
    ensures { OnOk result (numbers.new.keys ≡ with_numbers numbers.old.keys (numbers_in bytes.now)) }
{
    for item in Fields::new(bytes) {
        let Ok(field) = item else {
            break;
        };
        numbers.insert(field.number)?;
    }
    Ok(())
}

/// Adds the numbers of the unknown fields of a version, inside its message and beside it, to others.
///
/// # Errors
///
/// [`AllocError`] if memory runs out. A part of the numbers may have been added then.
pub fn add_unknown_numbers(
    numbers: &mut BTreeSet<u32>,
    fields: &UnknownFields,
) -> Result<(), AllocError>
    ensures { OnOk result (numbers.new.keys ≡ with_numbers numbers.old.keys (unknown_numbers fields.now)) }
{
    add_numbers(numbers, fields.inner.as_slice())?;
    add_numbers(numbers, fields.outer.as_slice())
}

/// Returns the least numbers, at most `most`, in increasing order.
///
/// # Errors
///
/// [`AllocError`] if memory runs out.
pub fn least_numbers(
    alloc: Global,
    numbers: &BTreeSet<u32>,
    most: usize,
) -> Result<Vec<u32>, AllocError>
    ensures { IfOk result (λ least. least.items ≡ take most numbers.now.keys) }
{
    let mut least = Vec::new(alloc);
    for number in numbers {
        if least.len() == most {
            break;
        }
        least.push(*number)?;
    }
    Ok(least)
}

/// Returns the bytes from one offset up to another.
fn between(bytes: &[u8], start: usize, end: usize) -> &[u8]
    ensures { result.now ≡ between start end bytes.now }
{
    let (front, _) = bytes.split_at(end.min(bytes.len()));
    let (_, part) = front.split_at(start.min(front.len()));
    part
}

/// Appends the bytes of a field from where it began, if one did, up to its end.
fn append_begun(
    out: &mut Vec<u8>,
    bytes: &[u8],
    begun: Option<usize>,
    end: usize,
) -> Result<(), AllocError>
    ensures { OnOk result (out.new.items ≡ out.old.items ++ option_map_or (λ start. between start end bytes.now) begun []) }
{
    match begun {
        Some(start) => out.extend_from_slice(between(bytes, start, end)),
        None => Ok(()),
    }
}

/// Returns where a field begins, if it has the number.
fn begun_at(number: u32, field: &Field<'_>) -> Option<usize>
    ensures { result ≡ (if field.now.number == number then Some field.now.at else None) }
{
    if field.number == number {
        Some(field.at)
    } else {
        None
    }
}

/// Returns the bytes of the fields that have the number, one after the other.
fn bytes_at(alloc: Global, number: u32, bytes: &[u8]) -> Result<Vec<u8>, AllocError>
    ensures { IfOk result (λ part. part.items ≡ bytes_at number bytes.now) }
{
    let mut out = Vec::new(alloc);
    let mut begun = None;
    for item in Fields::new(bytes) {
        let Ok(field) = item else {
            break;
        };
        append_begun(&mut out, bytes, begun, field.at)?;
        begun = begun_at(number, &field);
    }
    append_begun(&mut out, bytes, begun, bytes.len())?;
    Ok(out)
}

/// Returns whether the unknown fields of two versions that have the number differ.
fn differs_at(
    alloc: Global,
    one: &UnknownFields,
    other: &UnknownFields,
    number: u32,
) -> Result<bool, AllocError>
    ensures { IfOk result (λ differs. differs ≡ differs_at one.now other.now number) }
{
    let inner = bytes_at(alloc, number, one.inner.as_slice())?;
    let other_inner = bytes_at(alloc, number, other.inner.as_slice())?;
    let outer = bytes_at(alloc, number, one.outer.as_slice())?;
    let other_outer = bytes_at(alloc, number, other.outer.as_slice())?;
    let is_same = inner.as_slice() == other_inner.as_slice()
        && outer.as_slice() == other_outer.as_slice();
    Ok(!is_same)
}

/// Appends a number if it is wanted.
fn push_if(numbers: &mut Vec<u32>, number: u32, is_wanted: bool) -> Result<(), AllocError>
    ensures { OnOk result (numbers.new.items ≡ numbers.old.items ++ (if is_wanted then number ∷ [] else [])) }
{
    if is_wanted {
        numbers.push(number)?;
    }
    Ok(())
}

/// Returns the numbers at which the unknown fields of two versions differ.
fn those_that_differ(
    alloc: Global,
    numbers: &[u32],
    one: &UnknownFields,
    other: &UnknownFields,
) -> Result<Vec<u32>, AllocError>
    ensures { IfOk result (λ found. found.items ≡ filter (differs_at one.now other.now) numbers.now) }
{
    let mut found = Vec::new(alloc);
    for number in numbers {
        let differs = differs_at(alloc, one, other, *number)?;
        push_if(&mut found, *number, differs)?;
    }
    Ok(found)
}

/// Appends numbers, and `..` if there are more.
fn append_named(out: &mut String, numbers: &[u32], has_more: bool) -> Result<(), AllocError>
    ensures { OnOk result (string_bytes out.new ≡ string_bytes out.old ++ named numbers.now has_more) }
{
    let listed = FieldNumbers(numbers);
    match (numbers.is_empty(), has_more) {
        (true, false) => Ok(()),
        (true, true) => write!(out, ".."),
        (false, false) => write!(out, "{listed}"),
        (false, true) => write!(out, "{listed},.."),
    }
}

/// Appends the first of the numbers that differ.
fn append_first(out: &mut String, numbers: &[u32], are_left: bool) -> Result<(), AllocError>
    ensures { OnOk result (string_bytes out.new ≡ string_bytes out.old ++ named_of numbers.now are_left) }
{
    let (first, _) = numbers.split_at(numbers.len().min(MOST_NAMED));
    append_named(out, first, numbers.len() > MOST_NAMED || are_left)
}

/// Appends the numbers by which the unknown fields of two versions differ, with commas between them: nothing if the fields are the
/// same or only stand in another order. At most 16 numbers are named, and only the least 256 are looked at; `..` follows if there
/// are more.
///
/// # Errors
///
/// [`AllocError`] if memory runs out. A part of the numbers may be left.
#[tactic(auto, unfolding(crate::specs::UnknownFields::differing))]
pub fn append_differing(
    out: &mut String,
    one: &UnknownFields,
    other: &UnknownFields,
) -> Result<(), AllocError>
    ensures { OnOk result (string_bytes out.new ≡ string_bytes out.old ++ differing one.now other.now) }
{
    if one.inner == other.inner && one.outer == other.outer {
        return Ok(());
    }
    let alloc = *out.allocator();
    let mut numbers = BTreeSet::new(alloc);
    add_unknown_numbers(&mut numbers, one)?;
    add_unknown_numbers(&mut numbers, other)?;
    let least = least_numbers(alloc, &numbers, MOST_COMPARED)?;
    let found = those_that_differ(alloc, least.as_slice(), one, other)?;
    append_first(out, found.as_slice(), numbers.len() > MOST_COMPARED)
}
