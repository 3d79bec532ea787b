//! Laws of a timely cluster at the moment when a step begins: of the cluster as it is before that step, and as it is later.
//! Both are values of contracts alone, since no program has a cluster and its own past. `Cluster::consistency` says of each
//! that it is a cluster, and `answered_steps_go_on` that one goes on to the other.

ghost use Rattle.std.specs.Prelude.{◌≡◌, ◌+◌, ◌<◌, ◌≤◌, ℕ, Contains, false, length};
ghost use Rattle.am_nflog.specs.Mesh.{Mesh as LogMesh, mesh_version as entry_version};
ghost use Rattle.am_version_order.specs.Versions.{is_below};
ghost use Rattle.am_merge.specs.Views.{IsBest};
ghost use Rattle.am_runs.specs.Steps.{delivered_in};
ghost use Rattle.am_cluster.specs.Reports.{AreTimely};
ghost use Rattle.am_cluster.specs.Answered.{Replies};
ghost use Rattle.am_cluster.specs.Clusters.{IsCluster};
ghost use Rattle.am_cluster.specs.BothRuns.{log_run, silence_run};
ghost use Rattle.am_cluster.specs.Lives.{OfMember};
ghost use Rattle.am_cluster.specs.Replicas.{GoesOnAt, entries_taken};
ghost use Rattle.am_cluster.specs.Questions.{Question, asks, is_first, key_of};
ghost use Rattle.am_cluster.specs.Shown.{AgreeOnWhatIsOld};
ghost use Rattle.am_cluster.specs.Worlds.{World};

use crate::laws::first::first_is_told_after_a_spread;
use am_nflog::MeshEntry;
use am_runs::laws::views_agree;
use am_silence::MeshSilence;

/// States that, when a step begins in a timely run of a cluster, any two members that run show the same version of an
/// identifier or a key of the log if every version of it that was delivered anywhere in the run was updated a spread before
/// or earlier.
pub fn members_agree_on_what_is_old()
    ensures silences { (earlier later : World) → IsCluster earlier → IsCluster later → AgreeOnWhatIsOld silence_run earlier later }
    ensures log { (earlier later : World) → IsCluster earlier → IsCluster later → AgreeOnWhatIsOld log_run earlier later }
{
    views_agree::<MeshSilence>();
    views_agree::<MeshEntry>();
}

/// States that, when a step begins in a timely run of a cluster, a spread or more after the update of an entry of a group,
/// a member that runs says that the group is notified for the first time only if the greatest entry of the group that it
/// took, which is at least as great as that one, isn't live any more.
pub fn first_is_told_where_old_ones_ended()
    ensures { (earlier later : World) (spread flight now : ℕ) (entry : LogMesh) (asked : Question) (place : ℕ) → 0 < spread →
        IsCluster earlier → IsCluster later → GoesOnAt earlier later now →
        AreTimely spread flight (length later.replicas) later.silences later.log →
        Contains (delivered_in later.log) entry → (entry_version entry).updated + spread ≤ now →
        (entry_version entry).key ≡ key_of asked →
        OfMember earlier place (λ replica. Replies replica (asks asked) now is_first →
        (greatest : LogMesh) × IsBest entry_version (entries_taken earlier place) greatest × ((entry_version greatest).key ≡ key_of asked)
        × (is_below (entry_version greatest) (entry_version entry) ≡ false) × ((entry_version greatest).expires ≤ now)) }
{
    first_is_told_after_a_spread();
}
