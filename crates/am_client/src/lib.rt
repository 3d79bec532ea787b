//! A client of clusters: the promises that a program which steps a cluster gets about its replies. Each function makes one or
//! two calls, and its promise follows from public clauses of am_cluster: those of the call, of the cluster's own reports, and
//! of a law.
#![tactic(auto)]

ghost use Rattle.std.specs.Prelude.{◌≡◌, ◌≢◌, ◌↔◌, ◌≤◌, ℕ, IfOk, IsTrue, Some, length, true};
ghost use Rattle.am_nflog.specs.Mesh.{Mesh as LogMesh, mesh_version as entry_version};
ghost use Rattle.am_merge.specs.Views.{IsInView};
ghost use Rattle.am_collect.specs.Events.{HaveSame};
ghost use Rattle.am_instance.specs.declared.event.Event.{Event};
ghost use Rattle.am_instance.specs.declared.reply.Reply.{Reply as Answer};
ghost use Rattle.am_instance.specs.Bare.{IsBareReply, asks_shown};
ghost use Rattle.am_instance.specs.Laws.{asks_views};
ghost use Rattle.am_cluster.specs.Answered.{Asks, Replies, moment_of};
ghost use Rattle.am_cluster.specs.BothRuns.{log_run, silence_run};
ghost use Rattle.am_cluster.specs.Lives.{OfMember};
ghost use Rattle.am_cluster.specs.Questions.{Question, asks, is_first, key_of, something_fires};
ghost use Rattle.am_cluster.specs.Replicas.{entries_taken, silences_taken};
ghost use Rattle.am_cluster.specs.Reports.{IsCalmInBoth};
ghost use Rattle.am_cluster.specs.Shown.{AgreeAt};
ghost use Rattle.am_cluster.specs.Worlds.{Replica};

use am_cluster::laws::{
    answered_steps_go_on, answered_steps_reply, first_is_told_exactly,
    members_agree_on_what_is_old, members_reply_as_the_bare_sets,
    members_with_equal_sets_reply_alike,
};
use am_cluster::{Cluster, ClusterError};
use am_instance::{Place, Reply};
use am_schedule::Step;
use am_version_order::Interval;

/// The reply to a step, and whether the member that was asked had been calm before.
#[derive(Drop)]
pub struct CalmReply {
    pub calm: bool,
    pub reply: Result<Reply, ClusterError>,
}

/// The reply to a step, and whether the run was timely with it.
#[derive(Drop)]
pub struct TimelyReply {
    pub timely: bool,
    pub reply: Result<Reply, ClusterError>,
}

/// Makes a step. If it asks a calm member for a list, a single silence, a decision, both views or the mutes of an alert, the
/// reply is that of the bare sets of all versions that were delivered to the member.
pub fn ask(cluster: &mut Cluster, place: Place, step: &Step, line: u64) -> CalmReply
    // PROMISE: A client that asks a calm member of a cluster gets the reply of everything that was delivered to it.
    ensures { IsTrue result.calm → IfOk result.reply (λ reply. (replica : Replica) (event : Event) (now : ℕ) →
        Asks cluster.old step.now place replica event now → asks_shown event ≡ true →
        IsBareReply replica.stand.config.dialect (silences_taken cluster.old place) (entries_taken cluster.old place) event now reply) }
{
    answered_steps_reply();
    members_reply_as_the_bare_sets(cluster, place);
    let calm = cluster.calm(place).calm;
    let reply = cluster.step(step, line);
    CalmReply { calm, reply }
}

/// Returns whether two members are both calm. If they are, and the same was delivered to both, in any order and however often,
/// then every reply that one gives from its views alone is also the other's.
pub fn both_calm(cluster: &Cluster, place: Place, peer: Place) -> bool
    // PROMISE: Of two calm members that were delivered the same, a client gets the same replies.
    ensures { IsTrue result → HaveSame (silences_taken cluster.now place) (silences_taken cluster.now peer) →
        HaveSame (entries_taken cluster.now place) (entries_taken cluster.now peer) →
        (now : ℕ) (event : Event) (reply : Answer) → asks_views event ≡ true →
        OfMember cluster.now place (λ one. OfMember cluster.now peer (λ two. two.runs ≡ true → two.stand.last ≤ now →
        Replies one event now reply → Replies two event now reply)) }
{
    members_with_equal_sets_reply_alike(cluster, place, cluster, peer);
    let one = cluster.calm(place).calm;
    let two = cluster.calm(peer).calm;
    one && two
}

/// Makes a step, and returns its reply with whether the run was timely. If it was, every member is calm, and when the step
/// began, all members that ran showed the same of each identifier and of each key of the log, if every version of it is a
/// spread old.
pub fn step_in_time(
    cluster: &mut Cluster,
    step: &Step,
    line: u64,
    spread: Interval,
    flight: Interval,
) -> TimelyReply
    ensures calm { IsTrue result.timely → (place : ℕ) →
        IsCalmInBoth (length cluster.new.replicas) place cluster.new.silences cluster.new.log }
    // PROMISE: In a timely run a client finds that all running members agree on what is old.
    ensures agree { IsTrue result.timely → IfOk result.reply (λ reply. (now : ℕ) → moment_of step.now ≡ Some now →
        AgreeAt silence_run cluster.old cluster.new spread now × AgreeAt log_run cluster.old cluster.new spread now) }
{
    answered_steps_go_on();
    members_agree_on_what_is_old();
    cluster.consistency();
    let reply = cluster.step(step, line);
    cluster.consistency();
    let timely = cluster.timely(spread, flight);
    TimelyReply { timely, reply }
}

/// Makes a step. If it asks a calm member whether a group is notified, the group is notified for the first time exactly if
/// something fires and none of the group's entries that were delivered to the member is best and live.
pub fn decide(cluster: &mut Cluster, place: Place, step: &Step, line: u64) -> CalmReply
    ensures { IsTrue result.calm → IfOk result.reply (λ reply. (replica : Replica) (question : Question) (now : ℕ) →
        Asks cluster.old step.now place replica (asks question) now →
        (reply ≡ is_first) ↔ ((something_fires question ≡ true)
        × ((v : LogMesh) → IsInView entry_version (entries_taken cluster.old place) now v → (entry_version v).key ≢ key_of question))) }
{
    answered_steps_reply();
    first_is_told_exactly(cluster);
    let calm = cluster.calm(place).calm;
    let reply = cluster.step(step, line);
    CalmReply { calm, reply }
}
