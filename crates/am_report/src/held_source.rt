//! A source: a map with its name.

ghost use Rattle.std.specs.Prelude.{◌≡◌, map, All, IfOk};
ghost use Rattle.am_merge.specs.Maps.{IsMap};
ghost use Rattle.am_report.specs.Sources.{side_of};

use crate::merge_cursor::MergeCursor;
use am_merge::Held;
use am_version_order::Version;
use std::alloc::{AllocError, Global};
use std::marker::Model;

/// A source: its name, and the map that it holds.
#[derive(Drop)]
pub struct HeldSource<'a, V: Version> {
    name: &'a str,
    held: Held<V>,
}

impl<'a, V: Version> Model for HeldSource<'a, V> {
    ghost use Rattle.am_report.specs.Sources.{Source};

    ghost Value = { Source V };

    ghost view = { λ replica. record { name = replica.name.now; held = replica.held } };
}

impl<'a, V: Version> HeldSource<'a, V> {
    /// Returns the source of this name that holds this map.
    pub fn new(name: &'a str, held: Held<V>) -> Self
        ensures { result ≡ record { name = name.now; held = held } }
    {
        HeldSource { name, held }
    }

    /// Returns the name of the source.
    pub fn name(&self) -> &'a str
        ensures { result.now ≡ self.now.name }
    {
        self.name
    }

    /// Returns the map that the source holds.
    pub fn held(&self) -> &Held<V>
        ensures { result.now ≡ self.now.held }
    {
        &self.held
    }
}

/// Returns the sources before the first of their keys.
///
/// # Errors
///
/// [`AllocError`] if memory runs out.
pub fn sides_of<'a, 'n, V: Version>(
    alloc: Global,
    replicas: &'a [HeldSource<'n, V>],
) -> Result<Vec<MergeCursor<'a, V>>, AllocError>
    ensures start { IfOk result (λ sides. sides.items ≡ map side_of replicas.now) }
    ensures order { IfOk result (λ sides. All (λ cursor. IsMap V.seen V.Key.cmp cursor.left) sides.items) }
{
    let mut sides = Vec::with_capacity(alloc, replicas.len())?;
    for replica in replicas {
        sides.push(MergeCursor::new(replica.name(), replica.held()))?;
    }
    Ok(sides)
}
