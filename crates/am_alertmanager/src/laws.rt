//! Laws about replicas that are mended.

ghost use Rattle.std.specs.Prelude.{◌≡◌, ℕ, List, All, Option, Some, if◌then◌else◌};
ghost use Rattle.am_merge.specs.Maps.{IsMap, at};
ghost use Rattle.am_merge.specs.Views.{HoldsBest};
ghost use Rattle.am_alertmanager.specs.Mending.{AreLive, TieNowhere, after, kept, lacked, takes, versions_of};

use am_version_order::Version;

/// States that, if no two versions of a key that replicas hold tie in their update, and all are live, each of the replicas holds
/// the fold of all once it was sent what it lacks of that.
pub fn mended_replicas_hold_the_fold<V: Version>()
    // PROMISE: If no updates tie and all is live, replicas that were mended hold the fold.
    ensures { (now : ℕ) (replicas : List (List V)) (fold : List V) →
        All (IsMap V.seen V.Key.cmp) replicas → IsMap V.seen V.Key.cmp fold → HoldsBest V.seen (versions_of replicas) fold →
        TieNowhere V.seen (versions_of replicas) → AreLive V.seen now (versions_of replicas) →
        All (λ held. (key : V.Key) →
        after V.seen V.Key.cmp now held (lacked V.seen V.Key.cmp held fold) key ≡ at V.seen V.Key.cmp fold key) replicas }
{}

/// States that an Alertmanager holds a version once it has taken it, and otherwise holds what it held.
pub fn what_is_taken_is_held<V: Version>()
    ensures { (now : ℕ) (held : Option V) (v : V) → kept V.seen now held v ≡ (if takes V.seen now held v then Some v else held) }
{}
