//! The views of both maps.

ghost use Rattle.std.specs.Prelude.{◌≡◌, ◌++◌, [], ◌∷◌, IfOk, OnOk};
ghost use Rattle.std.specs.List.{list_all};
ghost use Rattle.std.specs.Option.{option_copied};
ghost use Rattle.am_matcher.specs.Matching.{passes};
ghost use Rattle.am_merge.specs.Maps.{if_live};
ghost use Rattle.am_instance.specs.InstanceStates.{log_in_view};
ghost use Rattle.am_instance.specs.Replies.{entry_in_view, silence_in_view, silences_shown};

use am_matcher::Filter;
use am_merge::Held;
use am_nflog::{LogKey, MeshEntry};
use am_silence::{MeshSilence, State};
use am_version_order::{Moment, Version};
use am_wire::Text;
use std::alloc::{AllocError, Global};

/// Returns whether the silence of a version passes all filters.
fn passes_all(version: &MeshSilence, filters: &mut Vec<Filter>) -> Result<bool, AllocError>
    ensures answer { IfOk result (λ yes. yes ≡ list_all (λ f. passes f version.now.silence) filters.old.items) }
    ensures same { filters.new.items ≡ filters.old.items }
{
    for filter in filters.iter_mut() {
        if !filter.passes_version(version)? {
            return Ok(false);
        }
    }
    Ok(true)
}

/// Appends a silence to those shown if it is in view and passes all filters.
fn show_silence(
    alloc: Global,
    version: &MeshSilence,
    filters: &mut Vec<Filter>,
    now: Moment,
    shown: &mut Vec<(MeshSilence, State)>,
) -> Result<(), AllocError>
    ensures shown { OnOk result (shown.new.items ≡ shown.old.items ++ silences_shown now filters.old.items (version.now ∷ [])) }
    ensures same { filters.new.items ≡ filters.old.items }
{
    if now < version.expires() && passes_all(version, filters)? {
        let state = version.state_at(now);
        shown.push((version.try_clone(alloc)?, state))?;
    }
    Ok(())
}

/// Returns the silences in view that pass all filters, in the order of their identifiers, with their states.
///
/// # Errors
///
/// [`AllocError`] if memory runs out.
pub fn silences_shown(
    alloc: Global,
    silences: &Held<MeshSilence>,
    filters: &mut Vec<Filter>,
    now: Moment,
) -> Result<Vec<(MeshSilence, State)>, AllocError>
    ensures rows { IfOk result (λ rows. rows.items ≡ silences_shown now filters.old.items silences.now) }
{
    let mut shown = Vec::new(alloc);
    for version in silences.iter() {
        show_silence(alloc, version, filters, now, &mut shown)?;
    }
    Ok(shown)
}

/// Appends an entry of the log to those shown if it is in view.
fn show_entry(
    alloc: Global,
    version: &MeshEntry,
    now: Moment,
    shown: &mut Vec<MeshEntry>,
) -> Result<(), AllocError>
    ensures { OnOk result (shown.new.items ≡ shown.old.items ++ log_in_view now (version.now ∷ [])) }
{
    if now < version.expires() {
        shown.push(version.try_clone(alloc)?)?;
    }
    Ok(())
}

/// Returns the log's entries in view, in the order of their keys.
///
/// # Errors
///
/// [`AllocError`] if memory runs out.
pub fn log_shown(
    alloc: Global,
    log: &Held<MeshEntry>,
    now: Moment,
) -> Result<Vec<MeshEntry>, AllocError>
    ensures { IfOk result (λ entries. entries.items ≡ log_in_view now log.now) }
{
    let mut shown = Vec::new(alloc);
    for version in log.iter() {
        show_entry(alloc, version, now, &mut shown)?;
    }
    Ok(shown)
}

/// Returns the version that was found if it is live.
fn live_one<'a, V: Version>(found: Option<&'a V>, now: Moment) -> Option<&'a V>
    ensures { option_copied result ≡ if_live V.seen now (option_copied found.entry) }
{
    let version = found?;
    if now < version.expires() {
        Some(version)
    } else {
        None
    }
}

/// Returns the silence with an identifier if it is in view. Nothing is allocated.
pub fn silence_in_view<'a>(
    silences: &'a Held<MeshSilence>,
    id: &Text,
    now: Moment,
) -> Option<&'a MeshSilence>
    ensures { option_copied result ≡ silence_in_view now silences.now id.now }
{
    live_one(silences.get(id), now)
}

/// Returns the log's entry at a key if it is in view. Nothing is allocated.
pub fn entry_in_view<'a>(
    log: &'a Held<MeshEntry>,
    key: &LogKey,
    now: Moment,
) -> Option<&'a MeshEntry>
    ensures { option_copied result ≡ entry_in_view now log.now key.now }
{
    live_one(log.get(key), now)
}
