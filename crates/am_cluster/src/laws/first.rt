//! Laws of members that say that a group is notified for the first time.

ghost use Rattle.std.specs.Prelude.{◌≡◌, ◌≢◌, ◌↔◌, ◌+◌, ◌<◌, ◌≤◌, ◌++◌, ◌∷◌, ℕ, List, Some, true, false, Contains};
ghost use Rattle.am_nflog.specs.Mesh.{Mesh as LogMesh, mesh_version as entry_version};
ghost use Rattle.am_nflog.specs.Keys.{key_cmp};
ghost use Rattle.am_version_order.specs.Versions.{is_below};
ghost use Rattle.am_merge.specs.Views.{IsBest, IsInView};
ghost use Rattle.am_runs.specs.Steps.{RunStep, delivered_in, moment};
ghost use Rattle.am_runs.specs.Members.{member_of, set_of};
ghost use Rattle.am_runs.specs.Runs.{IsRun};
ghost use Rattle.am_runs.specs.Timely.{IsTimely};
ghost use Rattle.am_cluster.specs.BothStates.{log_state};
ghost use Rattle.am_cluster.specs.Recorded.{HasGoneThrough};
ghost use Rattle.am_instance.specs.InstanceStates.{InstanceState, kept_log};
ghost use Rattle.am_instance.specs.declared.reply.Made.{Made};
ghost use Rattle.am_instance.specs.declared.reply.Reply.{Reply};
ghost use Rattle.am_instance.specs.Replies.{IsReply};
ghost use Rattle.am_cluster.specs.Lives.{OfMember};
ghost use Rattle.am_cluster.specs.Replicas.{IsCalmBy, entries_taken};
ghost use Rattle.am_cluster.specs.Questions.{Question, asks, is_first, key_of, something_fires};

use crate::cluster::Cluster;
use crate::laws::shown::members_show_the_bare_sets;
use am_nflog::MeshEntry;
use am_runs::laws::nothing_shown_after_a_spread;
use am_version_order::Version;

/// States that a calm member that is asked at a moment from its last one on says that a group is notified for the first
/// time if and only if something fires, and none of the group's entries that were delivered to it is best and live.
pub fn first_is_told_exactly(cluster: &Cluster)
    // PROMISE: A calm member calls a notification the first exactly if something fires and no entry that reached it is best and live.
    ensures { (place now : ℕ) (asked : Question) (reply : Reply) (made : Made) →
        OfMember cluster.now place (λ replica. IsCalmBy cluster.now place replica now →
        IsReply replica.stand (asks asked) now reply made →
        (reply ≡ is_first) ↔ ((something_fires asked ≡ true)
        × ((v : LogMesh) → IsInView entry_version (entries_taken cluster.now place) now v → (entry_version v).key ≢ key_of asked))) }
{
    members_show_the_bare_sets(cluster);
}

/// States what follows if a member calls a notification the first in a timely run. Its step begins a spread or more after
/// the update of an entry of the group, which was delivered anywhere in the run, and the member runs. Then the greatest
/// entry of the group that the member took, which is at least as great as that one, isn't live any more.
pub fn first_is_told_after_a_spread()
    // PROMISE: In a timely run, a spread after an entry, no member calls it the first while the greatest entry that it took lives.
    ensures { (members spread flight now : ℕ) (before rest : List (RunStep LogMesh)) (step : RunStep LogMesh) (entry : LogMesh) → 0 < spread →
        let steps = before ++ step ∷ rest in
        IsRun entry_version key_cmp members steps → IsTimely entry_version spread flight members steps → moment step ≡ Some now →
        Contains (delivered_in steps) entry → (entry_version entry).updated + spread ≤ now →
        (place : ℕ) → let member = member_of members place before in member.runs ≡ true →
        (stand : InstanceState) (asked : Question) (made : Made) → HasGoneThrough log_state member.past (kept_log stand) →
        (entry_version entry).key ≡ key_of asked → IsReply stand (asks asked) now is_first made →
        (greatest : LogMesh) × IsBest entry_version (set_of member) greatest × ((entry_version greatest).key ≡ key_of asked)
        × (is_below (entry_version greatest) (entry_version entry) ≡ false) × ((entry_version greatest).expires ≤ now) }
{
    nothing_shown_after_a_spread::<MeshEntry>();
}
