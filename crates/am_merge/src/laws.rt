//! Laws of joining and sweeping maps.

ghost use Rattle.std.specs.Prelude.{◌≡◌, ◌↔◌, ℕ, List, ◌∷◌, ◌++◌, All, IsPermutation};
ghost use Rattle.am_merge.specs.Maps.{IsMap, IsJoin, HidesNone, from_key, swept};

use am_version_order::Version;

/// States that any two maps have a join.
pub fn join_exists<V: Version>()
    ensures { (a b : List V) → IsMap V.seen V.Key.cmp a → IsMap V.seen V.Key.cmp b →
        (joined : List V) × IsMap V.seen V.Key.cmp joined × IsJoin V.seen V.Key.cmp a b joined }
{}

/// States that two maps have only one join.
pub fn join_is_unique<V: Version>()
    ensures { (a b joined other : List V) →
        IsMap V.seen V.Key.cmp joined → IsMap V.seen V.Key.cmp other →
        IsJoin V.seen V.Key.cmp a b joined → IsJoin V.seen V.Key.cmp a b other → joined ≡ other }
{}

/// States that two maps have the same join in either order.
pub fn join_is_commutative<V: Version>()
    // PROMISE: Joining maps in either order gives the same map.
    ensures { (a b joined : List V) → All V.is_value a → All V.is_value b →
        IsJoin V.seen V.Key.cmp a b joined → IsJoin V.seen V.Key.cmp b a joined }
{}

/// States that three maps have the same join in either grouping.
pub fn join_is_associative<V: Version>()
    // PROMISE: Joining three maps in any grouping gives the same map.
    ensures { (a b c ab bc joined : List V) →
        IsJoin V.seen V.Key.cmp a b ab → IsJoin V.seen V.Key.cmp b c bc →
        (IsJoin V.seen V.Key.cmp ab c joined ↔ IsJoin V.seen V.Key.cmp a bc joined) }
{}

/// States that the join of a map with itself is the map.
pub fn join_is_idempotent<V: Version>()
    // PROMISE: Joining a map with itself changes nothing.
    ensures { (map : List V) → IsJoin V.seen V.Key.cmp map map map }
{}

/// States that sweeping a join is the same as joining swept maps if and only if no key has a live version in one map, and a
/// greater one that isn't live in the other.
pub fn sweep_and_join_commute<V: Version>()
    ensures { (a b joined : List V) (now : ℕ) →
        IsMap V.seen V.Key.cmp a → IsMap V.seen V.Key.cmp b → IsMap V.seen V.Key.cmp joined →
        IsJoin V.seen V.Key.cmp a b joined →
        (IsJoin V.seen V.Key.cmp (swept V.seen now a) (swept V.seen now b) (swept V.seen now joined)
        ↔ (HidesNone V.seen V.Key.cmp now a b × HidesNone V.seen V.Key.cmp now b a)) }
{}

/// States that if all versions are values of their type, so are those of a map made of them, of a join, and of a swept map.
/// A map changes in no other way.
pub fn values_stay_values<V: Version>()
    ensures made { (versions map : List V) → IsPermutation versions map →
        All V.is_value versions → All V.is_value map }
    ensures joined { (a b joined : List V) →
        IsMap V.seen V.Key.cmp joined → IsJoin V.seen V.Key.cmp a b joined →
        All V.is_value a → All V.is_value b → All V.is_value joined }
    ensures swept { (now : ℕ) (map : List V) →
        All V.is_value map → All V.is_value (swept V.seen now map) }
{}

/// States that from the key of one of its versions on, a map has that version and those behind it.
pub fn a_map_goes_on_from_a_key<V: Version>()
    ensures { (front rest : List V) (v : V) → IsMap V.seen V.Key.cmp (front ++ v ∷ rest) →
        from_key V.seen V.Key.cmp (front ++ v ∷ rest) (V.seen v).key ≡ v ∷ rest }
{}
