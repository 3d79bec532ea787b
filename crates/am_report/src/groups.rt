//! The versions at a key, by how great they are.

ghost use Rattle.std.specs.Prelude.{◌≡◌, None, Some, true, map};
ghost use Rattle.std.specs.Option.{option_copied};
ghost use Rattle.am_merge.specs.Maps.{greater_of};
ghost use Rattle.am_version_order.specs.Versions.{is_below};
ghost use Rattle.am_report.specs.Groups.{IsLessBy, greatest_within, part_between, within};
ghost use Rattle.am_report.specs.Sources.{holding_of};

use crate::diff_field::DiffField;
use crate::merge_cursor::MergeCursor;
use am_version_order::Version;

/// Returns the greater of two versions, or the only one; the first if they tie.
#[tactic(auto, unfolding(am_version_order::specs::Versions::is_below))]
fn greater<'a, V: Version>(one: Option<&'a V>, other: Option<&'a V>) -> Option<&'a V>
    ensures { option_copied result ≡ greater_of V.seen (option_copied one.entry) (option_copied other.entry) }
{
    let (Some(version), Some(next)) = (one, other) else {
        return one.or(other);
    };
    if version.compare(next).is_lt() {
        other
    } else {
        one
    }
}

/// Returns the version if it is below the bound.
#[tactic(auto, unfolding(am_version_order::specs::Versions::is_below))]
fn below<'a, V: Version>(version: Option<&'a V>, bound: &V) -> Option<&'a V>
    ensures { option_copied result ≡ within V.seen (Some bound.now) (option_copied version.entry) }
{
    let version = version?;
    if version.compare(bound).is_lt() {
        Some(version)
    } else {
        None
    }
}

/// Returns the greatest version that a source holds at the key that the walk has reached.
pub fn greatest_of<'a, V: Version>(sides: &[MergeCursor<'a, V>]) -> Option<&'a V>
    ensures { option_copied result ≡ greatest_within V.seen None (map holding_of sides.now) }
{
    let mut best = None;
    for cursor in sides {
        best = greater(best, cursor.here());
    }
    best
}

/// Returns the greatest version that a source holds there and that is less than this one.
pub fn next_below<'a, V: Version>(sides: &[MergeCursor<'a, V>], above: &V) -> Option<&'a V>
    ensures { option_copied result ≡ greatest_within V.seen (Some above.now) (map holding_of sides.now) }
{
    let mut best = None;
    for cursor in sides {
        best = greater(best, below(cursor.here(), above));
    }
    best
}

/// Returns the part of the order by which a version is less than a greater one of its key. It takes no memory.
#[tactic(auto, using(crate::proofs::Parts::less_by_part))]
pub fn is_behind_by<V: Version>(version: &V, greatest: &V) -> DiffField
    requires { is_below (V.seen version.now) (V.seen greatest.now) ≡ true }
    ensures part { result ≡ part_between (V.seen version.now) (V.seen greatest.now) }
    ensures less { IsLessBy result (V.seen version.now) (V.seen greatest.now) }
{
    if version.updated() < greatest.updated() {
        DiffField::Update
    } else if version.expires() < greatest.expires() {
        DiffField::Expiry
    } else {
        DiffField::Bytes
    }
}
