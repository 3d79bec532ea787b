//! The differences of sources as figures.

ghost use Rattle.std.specs.Prelude.{◌≡◌, ℕ, List, map, All, IfOk, IfErr};
ghost use Rattle.std.specs.Io.KnownBytes.{Appends};
ghost use Rattle.am_merge.specs.Maps.{IsMap};
ghost use Rattle.am_report.specs.Sources.{rest_of};
ghost use Rattle.am_report.specs.Views.{StopsWriting};
ghost use Rattle.am_commands.specs.Figures.{AreFigures, IsFound, StopsFigures};

use am_metrics::{Family, MetricLabel, MetricType, Number, Sample, write_families};
use am_report::{
    Compared, HeldSource, InJson, MergeCursor, greatest_of, next_difference, sides_of,
};
use am_snapshot::SnapshotError;
use am_version_order::{Moment, Version};
use am_wire::{Text, send};
use std::alloc::{AllocError, Global};
use std::io::Write;

/// At how many keys a source lacks the greatest version.
#[derive(Clone, Copy)]
struct SourceLag {
    /// The replica holds none there.
    missing: u64,
    /// The replica holds a lesser one.
    behind: u64,
}

/// The tallies of sources, and whether there is a difference.
#[derive(Drop)]
struct Tallies {
    each: Vec<SourceLag>,
    found: bool,
}

/// Counts what sources lack at the key where a walk is.
fn count_here<V: Version>(each: &mut [SourceLag], sides: &[MergeCursor<'_, V>]) {
    let greatest = greatest_of(sides);
    for (tally, cursor) in each.iter_mut().zip(sides) {
        match (cursor.here(), greatest) {
            (Some(here), Some(greatest)) if here.compare(greatest).is_eq() => {}
            (Some(_), _) => tally.behind = tally.behind.saturating_add(1),
            (None, _) => tally.missing = tally.missing.saturating_add(1),
        }
    }
}

/// Counts what is left of all differences on a walk. Returns whether there is one.
fn count_left<V: Version>(
    each: &mut [SourceLag],
    sides: &mut [MergeCursor<'_, V>],
    compared: Compared,
    now: Moment,
) -> bool
    requires order { All (λ cursor. IsMap V.seen V.Key.cmp cursor.left) sides.old }
    ensures { IsFound V.seen V.Key.cmp compared now (map rest_of sides.old) result }
{
    let mut found = false;
    while next_difference(sides, compared, now) {
        count_here(each, sides);
        found = true;
    }
    found
}

/// Counts all differences of sources.
fn tallies_of<V: Version>(
    alloc: Global,
    replicas: &[HeldSource<'_, V>],
    compared: Compared,
    now: Moment,
) -> Result<Tallies, AllocError>
    ensures { IfOk result (λ tallies. IsFound V.seen V.Key.cmp compared now replicas.now tallies.found) }
{
    let mut each = Vec::with_capacity(alloc, replicas.len())?;
    for _ in replicas {
        each.push(SourceLag {
            missing: 0,
            behind: 0,
        })?;
    }
    let mut sides = sides_of(alloc, replicas)?;
    let found = count_left(&mut each, &mut sides, compared, now);
    Ok(Tallies { each, found })
}

/// Returns a label of a figure.
fn label(alloc: Global, name: &'static str, value: &str) -> Result<MetricLabel, AllocError> {
    let value = Text::new(String::from_str(alloc, value)?);
    Ok(MetricLabel { name, value })
}

/// Returns the figure of a source: at how many keys it stands so to the greatest version.
fn sample_of(
    alloc: Global,
    kind: &'static str,
    replica: &str,
    relation: &'static str,
    count: u64,
) -> Result<Sample, AllocError> {
    let mut labels = Vec::with_capacity(alloc, 3)?;
    labels.push(label(alloc, "kind", kind)?)?;
    labels.push(label(alloc, "replica", replica)?)?;
    labels.push(label(alloc, "relation", relation)?)?;
    Ok(Sample {
        suffix: "",
        labels,
        number: Number::Whole(count),
    })
}

/// Returns the figures of all sources.
fn versions_family<V: Version>(
    alloc: Global,
    kind: &'static str,
    replicas: &[HeldSource<'_, V>],
    each: &[SourceLag],
) -> Result<Family, AllocError> {
    let mut samples = Vec::new(alloc);
    for (replica, tally) in replicas.iter().zip(each) {
        let name = replica.name();
        samples.push(sample_of(alloc, kind, name, "missing", tally.missing)?)?;
        samples.push(sample_of(alloc, kind, name, "behind", tally.behind)?)?;
    }
    Ok(Family {
        name: "am_diff_versions",
        help: "Silences or entries at which replicas differ, by replica: it holds none, or is behind the greatest.",
        kind: MetricType::Gauge,
        samples,
    })
}

/// Returns the figure of the moment of the comparison, in seconds since 1970.
fn success_family(alloc: Global, kind: &'static str, now: Moment) -> Result<Family, AllocError> {
    let (seconds, _) = now.parts();
    let mut labels = Vec::with_capacity(alloc, 1)?;
    labels.push(label(alloc, "kind", kind)?)?;
    let mut samples = Vec::with_capacity(alloc, 1)?;
    samples.push(Sample {
        suffix: "",
        labels,
        number: Number::Whole(seconds.max(0) as u64),
    })?;
    Ok(Family {
        name: "am_diff_last_success_timestamp_seconds",
        help: "When all replicas were last read and compared, in seconds since 1970.",
        kind: MetricType::Gauge,
        samples,
    })
}

/// Returns the text of figures, and whether there is a difference.
#[derive(Drop)]
struct Figures {
    text: Vec<u8>,
    found: bool,
}

/// Returns the figures of all differences of sources.
fn figures_of<V: InJson>(
    alloc: Global,
    replicas: &[HeldSource<'_, V>],
    compared: Compared,
    now: Moment,
) -> Result<Figures, AllocError>
    ensures { IfOk result (λ figures. AreFigures V.seen V.Key.cmp compared now replicas.now figures.found figures.text.items) }
{
    let Tallies { each, found } = tallies_of(alloc, replicas, compared, now)?;
    let mut families = Vec::with_capacity(alloc, 2)?;
    families.push(versions_family(alloc, V::name(), replicas, &each)?)?;
    families.push(success_family(alloc, V::name(), now)?)?;
    let text = write_families(alloc, &families)?;
    Ok(Figures { text, found })
}

/// Writes how many keys each source lacks the greatest version at, as figures in Prometheus' text format, with the moment.
/// Returns whether there is a difference.
///
/// # Errors
///
/// [`SnapshotError::Write`] if a write fails or takes nothing: exactly the first `written` bytes of the text went out, and it
/// is not tried again. [`SnapshotError::Memory`] if memory runs out, before a byte goes out.
pub fn write_figures<V: InJson, W: Write>(
    alloc: Global,
    replicas: &[HeldSource<'_, V>],
    compared: Compared,
    now: Moment,
    writer: &mut W,
) -> Result<bool, SnapshotError>
    ensures text { IfOk result (λ found. (text : List ℕ) × AreFigures V.seen V.Key.cmp compared now replicas.now found text ×
        Appends (W.contents writer.old) (W.contents writer.new) text) }
    ensures stopped { IfErr result (StopsFigures V.seen V.Key.cmp compared now replicas.now W.contents writer.old writer.new) }
{
    let figures = figures_of(alloc, replicas, compared, now)?;
    send(writer, &figures.text)?;
    Ok(figures.found)
}
