//! The hash of an alert.

ghost use Rattle.std.specs.Prelude.{◌≡◌, ◌++◌, [], map, IfOk, OnOk};
ghost use Rattle.std.specs.List.{flat_map};
ghost use Rattle.std.specs.Map.Iter.{deref_pair};
ghost use Rattle.am_api_decisions.specs.Alerts.{alert_hash, by_name, ended, ended_pair};

use crate::xxhash::xxh64;
use am_matcher::{Label, Labels};
use std::alloc::{AllocError, Global};
use std::collections::BTreeMap;

/// The byte after each text, which occurs in none.
const END: u8 = 0xFF;

/// Returns the values by their names.
fn values_by_name<'a>(
    alloc: Global,
    labels: &'a [Label],
) -> Result<BTreeMap<&'a str, &'a str>, AllocError>
    ensures { IfOk result (λ values. map deref_pair values.entries ≡ by_name [] labels.now) }
{
    let mut values = BTreeMap::new(alloc);
    for label in labels {
        values.insert(label.name.as_str(), label.value.as_str())?;
    }
    Ok(values)
}

/// Appends a text and its end.
fn append_ended(bytes: &mut Vec<u8>, text: &str) -> Result<(), AllocError>
    ensures { OnOk result (bytes.new.items ≡ bytes.old.items ++ ended text.now) }
{
    bytes.extend_from_slice(text.as_bytes())?;
    bytes.push(END)?;
    Ok(())
}

/// Returns the names and their values, each ended, in the order of the names.
fn ended_pairs(alloc: Global, values: &BTreeMap<&str, &str>) -> Result<Vec<u8>, AllocError>
    ensures { IfOk result (λ bytes. bytes.items ≡ flat_map ended_pair (map deref_pair values.now.entries)) }
{
    let mut bytes = Vec::new(alloc);
    for (name, value) in values {
        append_ended(&mut bytes, name)?;
        append_ended(&mut bytes, value)?;
    }
    Ok(bytes)
}

/// Returns the hash by which Alertmanager's log knows an alert: XXH64 of its labels in the byte order of their names, with the
/// name, a byte FF, the value and a byte FF for each. If labels have the same name, the last one counts.
///
/// # Errors
///
/// [`AllocError`] if memory runs out. It takes as much as the labels' texts.
#[tactic(auto, unfolding(crate::specs::Alerts::alert_hash))]
pub fn alert_hash(alloc: Global, labels: &Labels) -> Result<u64, AllocError>
    // PROMISE: An alert's hash is XXH64 of its labels in the order of their names.
    ensures { IfOk result (λ hash. hash ≡ alert_hash labels.now) }
{
    let values = values_by_name(alloc, labels.as_slice())?;
    let bytes = ended_pairs(alloc, &values)?;
    Ok(xxh64(bytes.as_slice()))
}
