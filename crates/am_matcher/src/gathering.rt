//! The silences that may mute an alert, found by its labels.

ghost use Rattle.std.specs.Prelude.{◌≡◌, ◌++◌, ℕ, List, map, filter, Contains, Any, IfOk, OnOk};
ghost use Rattle.std.specs.Ordering.{nat_cmp};
ghost use Rattle.std.specs.Cmp.Lexicographic.{slice_cmp};
ghost use Rattle.am_merge.specs.Maps.{IsMap};
ghost use Rattle.am_silence.specs.Mesh.{Mesh, mesh_version};
ghost use Rattle.am_matcher.specs.Buckets.{label_bucket, buckets_for, is_at, is_in};

use crate::labels::Label;
use am_merge::Held;
use am_silence::{Matcher, MatcherKind, MeshSilence};
use am_version_order::Version;
use am_wire::{Bytes, Message};
use std::alloc::{AllocError, Global};

/// Returns the bucket of the silences whose first wanted label is this one.
fn bucket_of(alloc: Global, label: &Label) -> Result<Bytes, AllocError>
    ensures { IfOk result (λ bucket. bucket ≡ label_bucket label.now) }
{
    let name = label.name.try_clone(alloc)?;
    let wanted = Matcher {
        kind: MatcherKind::Equal,
        name,
        pattern: label.value.try_clone(alloc)?,
    };
    let mut bucket = Vec::new(alloc);
    wanted.write(&mut bucket)?;
    Ok(Bytes::new(bucket))
}

/// Returns the empty bucket, and the buckets of the labels.
pub fn buckets_for(alloc: Global, labels: &[Label]) -> Result<Vec<Bytes>, AllocError>
    ensures { IfOk result (λ buckets. buckets.items ≡ buckets_for labels.now) }
{
    let mut buckets = Vec::new(alloc);
    buckets.push(Bytes::new(Vec::new(alloc)))?;
    for label in labels {
        buckets.push(bucket_of(alloc, label)?)?;
    }
    Ok(buckets)
}

/// Appends the silences of a bucket.
fn push_bucket<'a>(
    silences: &mut Vec<&'a MeshSilence>,
    held: &'a Held<MeshSilence>,
    bucket: &'a [u8],
) -> Result<(), AllocError>
    ensures { OnOk result (map (λ m. m.now) silences.new.items
        ≡ map (λ m. m.now) silences.old.items ++ filter (is_at bucket.now) held.now) }
{
    for silence in held.in_bucket(bucket) {
        silences.push(silence)?;
    }
    Ok(())
}

/// Sorts silences by their ids, and leaves one of each id.
fn order_by_id(silences: &mut Vec<&MeshSilence>)
    ensures rising { IsMap mesh_version (slice_cmp nat_cmp) (map (λ m. m.now) silences.new.items) }
    ensures same { (m : Mesh) → Contains (map (λ m. m.now) silences.new.items) m
        → Contains (map (λ m. m.now) silences.old.items) m }
    ensures kept { (m : Mesh) → Contains (map (λ m. m.now) silences.old.items) m
        → Any (λ other. other.silence.id ≡ m.silence.id) (map (λ m. m.now) silences.new.items) }
{
    silences.sort_unstable_by(|one, other| one.key().cmp(other.key()));
    silences.dedup_by(|one, kept| {
        let (one, kept): (&MeshSilence, &MeshSilence) = (one, kept);
        one.key() == kept.key()
    });
}

/// Returns the silences of these buckets, in the order of their ids.
pub fn gather<'a>(
    alloc: Global,
    held: &'a Held<MeshSilence>,
    buckets: &'a [Bytes],
) -> Result<Vec<&'a MeshSilence>, AllocError>
    ensures { IfOk result (λ found. map (λ m. m.now) found.items ≡ filter (is_in buckets.now) held.now) }
{
    let mut found = Vec::new(alloc);
    for bucket in buckets {
        push_bucket(&mut found, held, bucket.as_slice())?;
    }
    order_by_id(&mut found);
    // A walk shows that the ids of the map are in order.
    let _walk = held.iter();
    Ok(found)
}
