//! Laws about runs.

ghost use Rattle.std.specs.Prelude.{◌≡◌, ◌≢◌, ◌↔◌, ◌+◌, ◌<◌, ◌≤◌, ℕ, List, [], ◌∷◌, ◌++◌, true, false, Option, None};
ghost use Rattle.std.specs.Prelude.{Some, All, Contains, IfSome};
ghost use Rattle.am_version_order.specs.Versions.{is_below};
ghost use Rattle.am_merge.specs.Maps.{IsMap, at, greater_of, if_live};
ghost use Rattle.am_collect.specs.Events.{Events};
ghost use Rattle.am_merge.specs.Views.{IsBest, IsInView, IsViewAt};
ghost use Rattle.am_runs.specs.Steps.{RunStep, delivered_in, moment};
ghost use Rattle.am_runs.specs.Members.{last_of, map_of, member_after, member_of, passes, set_of};
ghost use Rattle.am_runs.specs.Runs.{IsPossible, IsRun, IsCalmStep, IsCalmAt};
ghost use Rattle.am_runs.specs.Timely.{IsTimely};
ghost use Rattle.am_runs.specs.Settles.{join_of};
ghost use Rattle.am_runs.specs.Examples.{behind, forgotten, late, lesser, restarted};
ghost use Rattle.std.specs.Ordering.{nat_cmp};

use am_version_order::Version;

/// States how one more step extends a run, its members and their calm.
pub fn one_step_more<V: Version>()
    ensures run { (members : ℕ) (steps : List (RunStep V)) (step : RunStep V) →
        IsRun V.seen V.Key.cmp members (steps ++ step ∷ [])
        ↔ (IsRun V.seen V.Key.cmp members steps × IsPossible V.seen V.Key.cmp members steps step) }
    ensures member { (members place : ℕ) (steps : List (RunStep V)) (step : RunStep V) →
        member_of members place (steps ++ step ∷ []) ≡ member_after place (member_of members place steps) step }
    ensures calm { (members place : ℕ) (steps : List (RunStep V)) (step : RunStep V) →
        IsCalmAt V.seen members place (steps ++ step ∷ [])
        ↔ (IsCalmAt V.seen members place steps × IsCalmStep V.seen members place steps step) }
{}

/// States that a calm member shows, at every key and at every moment from its last one on, the same as the bare set of all
/// that it took, whatever was lost, repeated or reordered, and across saves, stops and restarts.
pub fn calm_members_show_the_bare_set<V: Version>()
    ensures { (members place : ℕ) (steps : List (RunStep V)) (now : ℕ) (key : V.Key) →
        IsCalmAt V.seen members place steps →
        let member = member_of members place steps in
        last_of member ≤ now →
        IsViewAt V.seen (set_of member) now key (if_live V.seen now (map_of V.seen V.Key.cmp member.past key)) }
{}

/// States that every member is calm in a run that keeps a spread and a flight time.
pub fn timely_runs_are_calm<V: Version>()
    // PROMISE: In a timely run every replica is calm, whatever was lost, repeated or restarted.
    ensures { (members spread flight : ℕ) (steps : List (RunStep V)) → 0 < spread →
        IsRun V.seen V.Key.cmp members steps → IsTimely V.seen spread flight members steps →
        (place : ℕ) → IsCalmAt V.seen members place steps }
{}

/// States that when a step of a timely run begins, any two running members show the same for each key of which every version
/// delivered anywhere in the run was made at least a spread ago.
pub fn views_agree<V: Version>()
    // PROMISE: In a timely run, replicas show the same of each key whose versions are all old enough.
    ensures { (members spread flight now : ℕ) (before rest : List (RunStep V)) (step : RunStep V) (key : V.Key) → 0 < spread →
        let steps = before ++ step ∷ rest in
        IsRun V.seen V.Key.cmp members steps → IsTimely V.seen spread flight members steps →
        All V.is_value (delivered_in steps) → moment step ≡ Some now →
        All (λ v. (V.seen v).key ≡ key → (V.seen v).updated + spread ≤ now) (delivered_in steps) →
        (place other : ℕ) → (member_of members place before).runs ≡ true →
        (member_of members other before).runs ≡ true →
        if_live V.seen now (map_of V.seen V.Key.cmp (member_of members place before).past key)
        ≡ if_live V.seen now (map_of V.seen V.Key.cmp (member_of members other before).past key) }
{}

/// States that a calm member shows nothing for a key exactly if no version of it that the member took is best and live.
pub fn nothing_shown_exactly<V: Version>()
    ensures { (members place : ℕ) (steps : List (RunStep V)) (now : ℕ) (key : V.Key) →
        IsCalmAt V.seen members place steps →
        let member = member_of members place steps in
        last_of member ≤ now →
        (if_live V.seen now (map_of V.seen V.Key.cmp member.past key) ≡ None)
        ↔ ((v : V) → IsInView V.seen (set_of member) now v → (V.seen v).key ≢ key) }
{}

/// States that when a step of a timely run begins, a running member shows nothing for the key of a version made at least a
/// spread ago only if the greatest version of that key that it took, at least as great as that one, isn't live any more.
pub fn nothing_shown_after_a_spread<V: Version>()
    ensures { (members spread flight now : ℕ) (before rest : List (RunStep V)) (step : RunStep V) (v : V) → 0 < spread →
        let steps = before ++ step ∷ rest in
        IsRun V.seen V.Key.cmp members steps → IsTimely V.seen spread flight members steps →
        moment step ≡ Some now → Contains (delivered_in steps) v → (V.seen v).updated + spread ≤ now →
        (place : ℕ) → let member = member_of members place before in
        member.runs ≡ true → if_live V.seen now (map_of V.seen V.Key.cmp member.past (V.seen v).key) ≡ None →
        (greatest : V) × IsBest V.seen (set_of member) greatest × ((V.seen greatest).key ≡ (V.seen v).key)
        × (is_below (V.seen greatest) (V.seen v) ≡ false) × ((V.seen greatest).expires ≤ now) }
{}

/// States that taking the versions of a map in an event joins that map to the held one.
pub fn taking_a_map_joins_it<V: Version>()
    ensures { (past : Events V) (now : ℕ) (versions : List V) (key : V.Key) → IsMap V.seen V.Key.cmp versions →
        map_of V.seen V.Key.cmp (past ++ passes now versions) key
        ≡ greater_of V.seen (map_of V.seen V.Key.cmp past key) (at V.seen V.Key.cmp versions key) }
{}

/// States that joining the join of all members' maps to the map of one of them gives that join again. So after a settle, in
/// which the first member takes the maps of the others and then they take its map, all of them hold that join.
pub fn settled<V: Version>()
    ensures { (members place : ℕ) (maps : ℕ → V.Key → Option V) (key : V.Key) →
        ((other : ℕ) → other < members → IfSome (maps other key) (λ v. ((V.seen v).key ≡ key) × V.is_value v)) →
        place < members →
        greater_of V.seen (maps place key) (join_of V.seen members maps key) ≡ join_of V.seen members maps key }
{}

/// States the results of worked runs of two members. Forgetting a version makes a member uncalm, and it shows another
/// version than a member that took the same before it collected. After a restart from nothing a run is timely until that member
/// acts when a version should have come to it again. And a version may come late in a timely run.
pub fn worked_runs()
    // PROMISE: The premises can be met, and their lack makes a difference: worked runs.
    ensures forgotten { IsRun (λ v. v) nat_cmp 2 forgotten }
    ensures shown { if_live (λ v. v) 22 (map_of (λ v. v) nat_cmp (member_of 2 0 forgotten).past 0) ≡ Some lesser }
    ensures hidden { if_live (λ v. v) 22 (map_of (λ v. v) nat_cmp (member_of 2 1 forgotten).past 0) ≡ None }
    ensures uncalm { ¬ IsCalmAt (λ v. v) 2 0 forgotten }
    ensures timely { IsTimely (λ v. v) 5 5 2 restarted }
    ensures untimely { ¬ IsTimely (λ v. v) 5 5 2 behind }
    ensures late { IsRun (λ v. v) nat_cmp 2 late × IsTimely (λ v. v) 5 5 2 late }
{}
