//! The laws that on-call people rely on.

ghost use Rattle.std.specs.Prelude.{◌≡◌, ℕ, Bool, true, false, List, None, Some, Contains, ◌↔◌};
ghost use Rattle.std.specs.FinSet.{contains};
ghost use Rattle.am_dedup.specs.Decisions.{Hashes, Logged, decision, set_of};
ghost use Rattle.am_dedup.specs.Laws.{IsTold};
ghost use Rattle.am_dedup.specs.declared.decision.Decision.TheVariants.{Skip, Notify};
ghost use Rattle.am_dedup.specs.declared.decision.Reason.TheVariants.{First, NewFiring};

/// States that a group is skipped if something fires, its entry lists all of it, no resolved alert is wanted that the entry
/// doesn't list, and the repeat interval isn't over.
pub fn what_was_told_is_skipped()
    ensures { (entry : Logged) (firing resolved : Hashes) (repeat : ℕ) (wanted : Bool) (now : ℕ) →
        IsTold entry firing resolved repeat wanted now → decision (Some entry) firing resolved repeat wanted now ≡ Skip }
{}

/// States that a group is notified if something fires that its entry doesn't list, or something fires and it has no entry.
pub fn what_fires_untold_is_notified()
    ensures listed { (entry : Logged) (firing resolved : Hashes) (hash repeat : ℕ) (wanted : Bool) (now : ℕ) →
        contains firing hash ≡ true → contains entry.firing hash ≡ false →
        decision (Some entry) firing resolved repeat wanted now ≡ Notify NewFiring }
    ensures none { (firing resolved : Hashes) (hash repeat : ℕ) (wanted : Bool) (now : ℕ) →
        contains firing hash ≡ true → decision None firing resolved repeat wanted now ≡ Notify First }
{}

/// States that lists of hashes count as sets: those with the same members lead to the same decision.
pub fn order_and_repetition_do_not_count()
    ensures members { (hashes : List ℕ) (hash : ℕ) → (contains (set_of hashes) hash ≡ true) ↔ Contains hashes hash }
    // PROMISE: The order and the repetition of alerts make no difference.
    ensures alike { (hashes others : List ℕ) → ((hash : ℕ) → Contains hashes hash ↔ Contains others hash) → set_of hashes ≡ set_of others }
{}
