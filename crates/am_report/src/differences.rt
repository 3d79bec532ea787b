//! The keys at which sources differ.

ghost use Rattle.std.specs.Prelude.{◌≡◌, ◌<◌, List, [], ◌∷◌, true, false, map, All, IsTrue};
ghost use Rattle.std.specs.Option.{option_copied};
ghost use Rattle.am_merge.specs.Maps.{IsMap};
ghost use Rattle.am_report.specs.Differences.{AreDifferences, Difference, is_different, is_same};
ghost use Rattle.am_report.specs.Sources.{come_to, holding_of, left_of_all, rest_of};
ghost use Rattle.am_report.specs.Walks.{least_of, lesser_of};

use crate::compared::Compared;
use crate::merge_cursor::MergeCursor;
use am_version_order::{Moment, Version};

/// Returns the version with the lesser key, or the only one.
fn lesser<'a, V: Version>(one: Option<&'a V>, other: Option<&'a V>) -> Option<&'a V>
    ensures { option_copied result ≡ lesser_of V.seen V.Key.cmp (option_copied one.entry) (option_copied other.entry) }
{
    let (Some(version), Some(next)) = (one, other) else {
        return one.or(other);
    };
    if next.key().cmp(version.key()).is_lt() {
        other
    } else {
        one
    }
}

/// Returns a version whose key is the least that is left.
#[tactic(auto, using(crate::proofs::Loops::least_more))]
fn least<'a, V: Version>(sides: &[MergeCursor<'a, V>]) -> Option<&'a V>
    ensures { option_copied result ≡ least_of V.seen V.Key.cmp sides.now }
{
    let mut least = None;
    for cursor in sides {
        least = lesser(least, cursor.next_version());
    }
    least
}

/// Advances each source to a key.
#[tactic(auto, using(crate::proofs::Loops::come_more))]
fn come_to<V: Version>(sides: &mut [MergeCursor<'_, V>], key: &V::Key)
    ensures { sides.new ≡ map (come_to V.seen V.Key.cmp key.now) sides.old }
{
    for cursor in sides.iter_mut() {
        cursor.come_to(key);
    }
}

/// Returns whether two versions are one to the order, or there is none on either side.
pub fn is_same<V: Version>(one: Option<&V>, other: Option<&V>) -> bool
    ensures { result ≡ is_same V.seen (option_copied one.entry) (option_copied other.entry) }
{
    match (one, other) {
        (Some(one), Some(other)) => one.compare(other).is_eq(),
        (None, None) => true,
        _ => false,
    }
}

/// Returns whether the sources differ at the key that the walk has reached.
fn is_different<V: Version>(sides: &[MergeCursor<'_, V>], compared: Compared, now: Moment) -> bool
    ensures { result ≡ is_different V.seen compared now (map holding_of sides.now) }
{
    let Some((first, others)) = sides.split_first() else {
        return false;
    };
    let here = first.compared(compared, now);
    for other in others {
        if !is_same(here, other.compared(compared, now)) {
            return true;
        }
    }
    false
}

/// Advances to the next key at which sources differ, and returns whether there is one. It takes no memory.
pub fn next_difference<V: Version>(
    sides: &mut [MergeCursor<'_, V>],
    compared: Compared,
    now: Moment,
) -> bool
    requires order { All (λ cursor. IsMap V.seen V.Key.cmp cursor.left) sides.old }
    ensures order { All (λ cursor. IsMap V.seen V.Key.cmp cursor.left) sides.new }
    // PROMISE: No difference is skipped, and none is invented.
    ensures next { IsTrue result → (key : V.Key) × ((differences : List (Difference V.Key V)) →
        AreDifferences V.seen V.Key.cmp compared now (map rest_of sides.new) differences →
        AreDifferences V.seen V.Key.cmp compared now (map rest_of sides.old)
        (record { key = key; holdings = map holding_of sides.new } ∷ differences)) }
    ensures none { result ≡ false →
        AreDifferences V.seen V.Key.cmp compared now (map rest_of sides.old) [] }
    ensures fewer { IsTrue result → left_of_all sides.new < left_of_all sides.old }
{
    while let Some(version) = least(sides) {
        come_to(sides, version.key());
        if is_different(sides, compared, now) {
            return true;
        }
    }
    false
}
