//! Laws of the differences of sources.

ghost use Rattle.std.specs.Prelude.{◌≡◌, ◌↔◌, ℕ, List, [], ◌∷◌, true, map, All, Contains};
ghost use Rattle.std.specs.List.{flat_map};
ghost use Rattle.am_merge.specs.Maps.{IsMap, swept};
ghost use Rattle.am_merge.specs.Views.{IsBest};
ghost use Rattle.am_version_order.specs.Versions.{is_below};
ghost use Rattle.am_report.specs.Differences.{AreDifferences, held_at};
ghost use Rattle.am_report.specs.Groups.{AreRanked, IsLessBy};
ghost use Rattle.am_report.specs.Sources.{Source};
ghost use Rattle.am_report.specs.declared.compared.Compared.TheVariants as what;
ghost use Rattle.am_report.specs.declared.diff_field.DiffField.{DiffField};

use am_version_order::Version;

/// States that nothing is different exactly if all sources show the same at the moment, or, if all that is held is compared, if all
/// sources hold the same.
pub fn nothing_is_different_where_all_is_the_same<V: Version>()
    ensures shown { (sources : List (Source V)) (now : ℕ) →
        All (λ source. IsMap V.seen V.Key.cmp source.held) sources → All (λ source. All V.is_value source.held) sources →
        (AreDifferences V.seen V.Key.cmp what.Shown now sources []
        ↔ ((one other : Source V) → Contains sources one → Contains sources other → swept V.seen now one.held ≡ swept V.seen now other.held)) }
    ensures held { (sources : List (Source V)) (now : ℕ) →
        All (λ source. IsMap V.seen V.Key.cmp source.held) sources → All (λ source. All V.is_value source.held) sources →
        (AreDifferences V.seen V.Key.cmp what.Held now sources []
        ↔ ((one other : Source V) → Contains sources one → Contains sources other → one.held ≡ other.held)) }
{}

/// States that the first of the versions at a key is the one that counts: no version of that key that any source holds is greater,
/// so it is the one that a fold of all sources holds there.
pub fn the_greatest_is_best<V: Version>()
    ensures { (sources : List (Source V)) (key : V.Key) (greatest : V) (others : List V) →
        All (λ source. IsMap V.seen V.Key.cmp source.held) sources →
        AreRanked V.seen (held_at V.seen V.Key.cmp key sources) (greatest ∷ others) →
        IsBest V.seen (flat_map (λ source. source.held) sources) greatest }
{}

/// States that a version that is less by a part of the order is less.
pub fn a_part_is_less<V: Version>()
    ensures { (part : DiffField) (v w : V) → IsLessBy part (V.seen v) (V.seen w) → is_below (V.seen v) (V.seen w) ≡ true }
{}
