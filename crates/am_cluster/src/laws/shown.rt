//! Laws of the versions that members show.

ghost use Rattle.std.specs.Prelude.{◌≡◌, ℕ, List, Option, All, Contains, true};
ghost use Rattle.am_matcher.specs.declared.labels.Label.{Label};
ghost use Rattle.am_matcher.specs.declared.dialect.Dialect.{Dialect};
ghost use Rattle.am_matcher.specs.Mutes.{AreMutedIn};
ghost use Rattle.am_merge.specs.Views.{IsViewAt};
ghost use Rattle.am_collect.specs.Events.{HaveSame};
ghost use Rattle.am_instance.specs.declared.event.Event.{Event};
ghost use Rattle.am_instance.specs.declared.reply.Made.{Made};
ghost use Rattle.am_instance.specs.declared.reply.Reply.{Reply};
ghost use Rattle.am_instance.specs.Bare.{IsBareReply, asks_shown};
ghost use Rattle.am_instance.specs.Laws.{HasMaps, asks_views};
ghost use Rattle.am_instance.specs.Replies.{IsReply};
ghost use Rattle.am_cluster.specs.BothRuns.{log_run, silence_run};
ghost use Rattle.am_cluster.specs.Lives.{OfMember};
ghost use Rattle.am_cluster.specs.Replicas.{IsCalmBy, entries_taken, silences_taken};
ghost use Rattle.am_cluster.specs.Shown.{ShowTheBareSet};

use crate::cluster::Cluster;
use am_instance::laws::{equal_views_mute_alike, equal_views_reply_alike, what_is_shown_replies};
use am_instance::{Instance, Place};
use am_nflog::MeshEntry;
use am_runs::laws::calm_members_show_the_bare_set;
use am_silence::MeshSilence;
use am_version_order::Version;

/// States that, after any steps of a cluster, a member that was calm shows the same as the bare set of all versions that
/// were delivered to it, for each identifier and each key of the log, at every moment from its last one on.
pub fn members_show_the_bare_sets(cluster: &Cluster)
    ensures silences { ShowTheBareSet silence_run cluster.now }
    ensures log { ShowTheBareSet log_run cluster.now }
{
    cluster.consistency();
    calm_members_show_the_bare_set::<MeshSilence>();
    calm_members_show_the_bare_set::<MeshEntry>();
}

/// States that sets with the same versions show one version of a key, or none.
fn equal_sets_show_one<V: Version>()
    ensures { (set other : List V) (now : ℕ) (key : V.Key) (one two : Option V) → HaveSame set other → All V.is_value set →
        IsViewAt V.seen set now key one → IsViewAt V.seen other now key two → one ≡ two }
{}

/// States that both lists of an instance are maps.
fn instance_has_maps(instance: &Instance)
    ensures { HasMaps instance.now }
{
    instance.silences().has_values();
    instance.log().has_values();
}

/// States that both lists of the member at a place are maps.
fn member_has_maps(cluster: &Cluster, place: Place)
    ensures { OfMember cluster.now place (λ replica. HasMaps replica.stand) }
{
    if let Some(instance) = cluster.instance(place) {
        instance_has_maps(instance);
    }
}

/// States that, after any steps of a cluster, a member that was calm replies as the bare sets of all versions that were
/// delivered to it would. This holds of a list, a single silence, a decision, both views and the mutes of an alert, at
/// every moment from its last one on.
pub fn members_reply_as_the_bare_sets(cluster: &Cluster, place: Place)
    // PROMISE: A calm member of any cluster answers as everything that was delivered to it would.
    ensures { (now : ℕ) (event : Event) (reply : Reply) (made : Made) →
        OfMember cluster.now place (λ replica. IsCalmBy cluster.now place replica now →
        asks_shown event ≡ true → IsReply replica.stand event now reply made →
        IsBareReply replica.stand.config.dialect (silences_taken cluster.now place) (entries_taken cluster.now place) event now reply) }
{
    members_show_the_bare_sets(cluster);
    member_has_maps(cluster, place);
    what_is_shown_replies();
}

/// States that two calm members, of one cluster or of two, to which the same versions were delivered, in any order and
/// however often, give the same replies to events that are answered from the views alone, at every moment from the later of
/// their last ones on.
pub fn members_with_equal_sets_reply_alike(
    cluster: &Cluster,
    place: Place,
    other: &Cluster,
    peer: Place,
)
    // PROMISE: Two calm members that were delivered the same answer alike.
    ensures { (now : ℕ) (event : Event) (reply : Reply) (made : Made) → OfMember cluster.now place (λ one. OfMember other.now peer (λ two.
        IsCalmBy cluster.now place one now → IsCalmBy other.now peer two now →
        HaveSame (silences_taken cluster.now place) (silences_taken other.now peer) →
        HaveSame (entries_taken cluster.now place) (entries_taken other.now peer) →
        asks_views event ≡ true → IsReply one.stand event now reply made → IsReply two.stand event now reply made)) }
{
    cluster.consistency();
    members_show_the_bare_sets(cluster);
    members_show_the_bare_sets(other);
    equal_sets_show_one::<MeshSilence>();
    equal_sets_show_one::<MeshEntry>();
    member_has_maps(cluster, place);
    member_has_maps(other, peer);
    equal_views_reply_alike();
}

/// States that a silence that mutes an alert at one of two such members mutes it at the other, by patterns of the same
/// dialect, unless the other reports its patterns as broken.
pub fn members_with_equal_sets_mute_alike(
    cluster: &Cluster,
    place: Place,
    other: &Cluster,
    peer: Place,
)
    ensures { (dialect : Dialect) (now : ℕ) (labels : List Label) (ids broken others broken_too : List (List ℕ)) →
        OfMember cluster.now place (λ one. OfMember other.now peer (λ two.
        IsCalmBy cluster.now place one now → IsCalmBy other.now peer two now →
        HaveSame (silences_taken cluster.now place) (silences_taken other.now peer) →
        HaveSame (entries_taken cluster.now place) (entries_taken other.now peer) →
        AreMutedIn dialect labels now one.stand.silences ids broken → AreMutedIn dialect labels now two.stand.silences others broken_too →
        (id : List ℕ) → Contains ids id → ¬ Contains broken_too id → Contains others id)) }
{
    cluster.consistency();
    members_show_the_bare_sets(cluster);
    members_show_the_bare_sets(other);
    equal_sets_show_one::<MeshSilence>();
    equal_sets_show_one::<MeshEntry>();
    member_has_maps(cluster, place);
    member_has_maps(other, peer);
    equal_views_mute_alike();
}
