//! Laws about calm events and the maps that saw them. `am_merge::laws` states that joining maps is commutative, associative and
//! idempotent.

ghost use Rattle.std.specs.Prelude.{◌≡◌, ◌≤◌, ℕ, List, ◌++◌, All};
ghost use Rattle.am_merge.specs.Maps.{IsMap, at, if_live};
ghost use Rattle.am_merge.specs.Views.{IsViewAt};
ghost use Rattle.am_collect.specs.Events.{Events, HaveSame, taken, after_all, last_moment};
ghost use Rattle.am_collect.specs.Calm.{IsCalm};
ghost use Rattle.am_collect.specs.Kept.{Kept};
ghost use Rattle.am_collect.specs.Keepers.{IsCalmlyLeft, IsLeftBy, view_at};

use am_version_order::Version;

/// States that events and later events together lead from the first state to the last.
pub fn events_follow_events<V: Version>()
    ensures { (old between new : Kept V) (past events : Events V) →
        IsLeftBy V.seen V.Key.cmp old past between → IsLeftBy V.seen V.Key.cmp between events new →
        IsLeftBy V.seen V.Key.cmp old (past ++ events) new }
{}

/// States that after calm events a map shows, at every key and at every moment from the last event on, the same as the bare set
/// of all that it started with and all that was delivered.
pub fn calm_events_show_the_bare_set<V: Version>()
    ensures { (start : List V) (from : ℕ) (events : Events V) (now : ℕ) (key : V.Key) →
        IsMap V.seen V.Key.cmp start → IsCalm V.seen start from events → last_moment from events ≤ now →
        IsViewAt V.seen (taken start events) now key
        (if_live V.seen now (after_all V.seen V.Key.cmp (at V.seen V.Key.cmp start) events key)) }
{}

/// States that two maps that took the same versions in calm events, in any order and however often, show the same from the
/// later one of their last moments on.
pub fn calm_keepers_agree<V: Version>()
    // PROMISE: Two maps that took the same in calm events, in any order and however often, show the same.
    ensures { (start begin : Kept V) (events others : Events V) (one other : Kept V) (now : ℕ) (key : V.Key) →
        IsCalmlyLeft V.seen V.Key.cmp start events one → IsCalmlyLeft V.seen V.Key.cmp begin others other →
        HaveSame (taken start.held events) (taken begin.held others) → All V.is_value (taken start.held events) →
        one.last ≤ now → other.last ≤ now →
        view_at V.seen V.Key.cmp one now key ≡ view_at V.seen V.Key.cmp other now key }
{}
