//! Laws of durable members, which have been saved after each step that brings them something live when they are started
//! again. A member that writes each such step to a log on its disk before it answers is durable.

ghost use Rattle.std.specs.Prelude.{◌↔◌, ◌<◌, ℕ, length};
ghost use Rattle.std.specs.Ordering.{nat_cmp};
ghost use Rattle.am_runs.specs.Examples.{behind};
ghost use Rattle.am_runs.specs.Runs.{IsRun};
ghost use Rattle.am_runs.specs.Timely.{IsTimely};
ghost use Rattle.am_cluster.specs.BothRuns.{log_run, silence_run};
ghost use Rattle.am_cluster.specs.Durable.{IsDurable};
ghost use Rattle.am_cluster.specs.DurableExamples.{saved_behind};
ghost use Rattle.am_cluster.specs.DurableRuns.{AreTimelyByWhatCame, ComeInTime, IsDurableInBoth, LoseNothing, ShowWhatCame};
ghost use Rattle.am_cluster.specs.Reports.{AreTimely};
ghost use Rattle.am_cluster.specs.Worlds.{World};

use crate::cluster::Cluster;
use crate::laws::shown::members_show_the_bare_sets;

/// States that everything that came live to a durable member by some moment of a run is in its bare set at every later
/// moment, however often it was stopped and started in between.
pub fn durable_members_lose_nothing()
    // PROMISE: A member that is saved after each live change keeps these through every restart.
    ensures silences { (earlier later : World) → LoseNothing silence_run earlier later }
    ensures log { (earlier later : World) → LoseNothing log_run earlier later }
{}

/// States that, if all members of a cluster are durable, its run is timely if and only if it would be so without anything
/// lost at starts: from a spread after the update of a version on, that version, or a greater one of its key, once came to
/// every member that runs. How long ago that was, and from which copy the member was started since, doesn't matter.
pub fn durable_runs_are_timely_by_what_came(cluster: &Cluster)
    // PROMISE: For such members a run is timely exactly if each version once reached all in time.
    ensures { (spread flight : ℕ) →
        ((place : ℕ) → place < length cluster.now.replicas → IsDurableInBoth place cluster.now.silences cluster.now.log) →
        AreTimely spread flight (length cluster.now.replicas) cluster.now.silences cluster.now.log
        ↔ AreTimelyByWhatCame spread flight (length cluster.now.replicas) cluster.now.silences cluster.now.log }
{
    cluster.consistency();
}

/// States that, after any steps of a cluster, a durable member that was calm shows what everything that ever came to it
/// would show, also before its starts, at every moment from its last one on. This holds for each identifier and each key of
/// the log of which nothing came too late: each version that came to the member, or a greater one, came while it was live.
pub fn durable_members_show_what_came(cluster: &Cluster)
    ensures silences { ShowWhatCame silence_run cluster.now }
    ensures log { ShowWhatCame log_run cluster.now }
{
    members_show_the_bare_sets(cluster);
}

/// States that in a timely run nothing comes to a member too late: each version that comes to it, or a greater one of its
/// key, came to it while it was live.
pub fn timely_runs_bring_all_in_time(cluster: &Cluster)
    ensures silences { ComeInTime silence_run cluster.now }
    ensures log { ComeInTime log_run cluster.now }
{
    cluster.consistency();
}

/// Works out a run of two members. One of them restarts, and acts when a version should have come to it that came before it
/// was stopped. If it was saved after that version came, it is durable and the run is timely. If it wasn't, neither is
/// true.
pub fn worked_restarts()
    ensures durable { IsDurable (λ v. v) 0 saved_behind }
    ensures timely { IsRun (λ v. v) nat_cmp 2 saved_behind × IsTimely (λ v. v) 5 5 2 saved_behind }
    ensures lossy { ¬ IsDurable (λ v. v) 0 behind }
    ensures untimely { ¬ IsTimely (λ v. v) 5 5 2 behind }
{}
