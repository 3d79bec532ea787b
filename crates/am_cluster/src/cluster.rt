//! A cluster, and the questions that it answers.

ghost use Rattle.std.specs.Prelude.{◌≡◌, ◌↔◌, ◌<◌, ℕ, [], Any, Err, IfOk, IsTrue, MatchOption, OnErr, OnOk, length, option_map};
ghost use Rattle.std.specs.Option.{option_copied};
ghost use Rattle.am_instance.specs.Configs.{HasTwice, IsEmptyName, IsLongName};
ghost use Rattle.am_gossip.specs.declared.refusals.ConfigError.TheVariants as errors;
ghost use Rattle.am_cluster.specs.Reports.{AreTimely, IsCalmInBoth, IsLineOfFault};
ghost use Rattle.am_cluster.specs.Clusters.{IsCluster};
ghost use Rattle.am_cluster.specs.Beginnings.{AreNewborn, AreUnborn, newborns};
ghost use Rattle.am_cluster.specs.DurableRuns.{IsDurableInBoth};
ghost use Rattle.am_cluster.specs.Worlds.{replica_at, with_room};

use crate::flight::Flight;
use crate::journal::{CalmReport, Journal};
use crate::member::ClusterMember;
use am_instance::{Config, ConfigError, Instance, Place};
use am_version_order::{Interval, Moment};
use am_wire::Text;
use std::alloc::{AllocError, Global};
use std::marker::Model;

/// A cluster: its members, all that happened to them, and the frames in flight between them.
///
/// Contracts see the state of each member, the record of each step so far for the silences and for the log, the frames, and
/// the number of further steps for which there is room.
pub struct Cluster {
    pub(crate) alloc: Global,
    pub(crate) members: Vec<ClusterMember>,
    pub(crate) journal: Journal,
    pub(crate) flights: Vec<Flight>,
}

// With this the crates above cite one drop, and don't prove those of everything inside.
impl Drop for Cluster {
    fn drop(self) {
        let Cluster {
            alloc: _,
            members: _,
            journal: _,
            flights: _,
        } = self;
    }
}

impl Model for Cluster {
    ghost use Rattle.std.specs.Prelude.{◌≡◌, length};
    ghost use Rattle.am_cluster.specs.Worlds.{World};
    ghost use Rattle.am_cluster.specs.Ties.{IsWorld};

    ghost Value = { World };

    ghost view = { λ c. record {
      replicas = c.members.items;
      silences = c.journal.silences;
      log = c.journal.log;
      lines = c.journal.lines;
      flights = c.flights.items;
      room = c.journal.room;
    } };

    ghost invariant = { λ c. record {
      members : c.journal.members ≡ length c.members.items;
      world : IsWorld (record {
        replicas = c.members.items;
        silences = c.journal.silences;
        log = c.journal.log;
        lines = c.journal.lines;
        flights = c.flights.items;
        room = c.journal.room;
      });
    } };
}

/// Returns a member for each place of a configuration, each of them empty.
fn newborn_members(alloc: Global, config: &Config) -> Result<Vec<ClusterMember>, AllocError>
    ensures { IfOk result (λ members. members.items ≡ newborns config.now) }
{
    let count = config.members().len();
    let mut members = Vec::with_capacity(alloc, count)?;
    for place in 0..count {
        let own = config.for_member(place as u64)?;
        members.push(ClusterMember::new(alloc, own))?;
    }
    Ok(members)
}

impl Cluster {
    /// Returns a cluster of members with these names, which wait `peer_timeout` for one another and keep versions for
    /// `retention` after their end. Each of them runs, is empty, and has the first moment as its last one. Without names
    /// there are no members.
    ///
    /// # Errors
    ///
    /// The first [`ConfigError`] that applies, in their order.
    pub fn new(
        alloc: Global,
        names: Vec<Text>,
        retention: Interval,
        peer_timeout: Interval,
    ) -> Result<Cluster, ConfigError>
        ensures members { IfOk result (AreNewborn names.items retention peer_timeout) }
        ensures empty_name { (result ≡ Err errors.EmptyName) ↔ Any IsEmptyName names.items }
        ensures long_name { (result ≡ Err errors.LongName)
            ↔ (¬ Any IsEmptyName names.items) × Any IsLongName names.items }
        ensures same_name { (result ≡ Err errors.SameName)
            ↔ (¬ Any IsEmptyName names.items) × (¬ Any IsLongName names.items) × HasTwice names.items }
    {
        let mut peers = names;
        let Some(name) = peers.pop() else {
            return Ok(Cluster::of(alloc, Vec::new(alloc)));
        };
        let config = Config::new(alloc, name, peers, retention, peer_timeout)?;
        let members = newborn_members(alloc, &config)?;
        Ok(Cluster::of(alloc, members))
    }

    /// Returns a cluster of these members, in which nothing has happened yet.
    fn of(alloc: Global, members: Vec<ClusterMember>) -> Cluster
        requires { AreUnborn members.items }
        ensures members { result.replicas ≡ members.items }
        ensures silences { result.silences ≡ [] }
        ensures log { result.log ≡ [] }
        ensures lines { result.lines ≡ [] }
        ensures flights { result.flights ≡ [] }
    {
        let journal = Journal::new(alloc, members.len());
        Cluster {
            alloc,
            members,
            journal,
            flights: Vec::new(alloc),
        }
    }

    /// States that the cluster is consistent. Each member is in the state that its past in both runs tells, and each frame
    /// in flight is one that a step of its sender sent. Both are runs and tell of the same steps, each of which has a line.
    /// Everything that was delivered in them is a value of its type. Nothing is done.
    pub fn consistency(&self)
        ensures { IsCluster self.now }
    {
        self.journal.consistency();
    }

    /// Makes room for `steps` more steps, each of which takes one place when it is recorded. While there is room, no step
    /// that is to be refused is reported as [`ClusterError::Memory`]. This is for programs that have to tell the two apart.
    /// A replay stops at either of them, and doesn't call it.
    ///
    /// # Errors
    ///
    /// [`AllocError`] if memory runs out. Nothing has changed then.
    pub fn make_room(&mut self, steps: usize) -> Result<(), AllocError>
        ensures room { OnOk result (self.new ≡ with_room self.old steps) }
        ensures unchanged { OnErr result (self.new ≡ self.old) }
        ensures without_room { OnErr result (self.old.room < steps) }
    {
        self.journal.make_room(steps)
    }

    /// Returns the frames in flight, in the order of their numbers. Nothing is allocated.
    pub fn in_flight(&self) -> &[Flight]
        ensures { result.now ≡ self.now.flights }
    {
        self.flights.as_slice()
    }

    /// Returns the instance of the member at a place, or `None` if there is none. Nothing is allocated.
    pub fn instance(&self, place: Place) -> Option<&Instance>
        ensures { option_copied result ≡ option_map (λ replica. replica.stand) (replica_at self.now place) }
    {
        match self.members.get(place as usize) {
            Some(member) => Some(&member.instance),
            None => None,
        }
    }

    /// Returns the report on the member at a place. It was calm if it was so at each of its events so far, including those
    /// before a restart, and no start or settle was refused because its moment was before the member's last one. Otherwise
    /// the report has the line of the first step at which that fails. Nothing is allocated.
    pub fn calm(&self, place: Place) -> CalmReport
        // PROMISE: Whether a member was calm is answered exactly.
        ensures calm { IsTrue result.calm ↔ IsCalmInBoth (length self.now.replicas) place self.now.silences self.now.log }
        ensures fault { MatchOption result.first_fault
            (IsCalmInBoth (length self.now.replicas) place self.now.silences self.now.log)
            (IsLineOfFault (length self.now.replicas) place self.now.silences self.now.log self.now.lines) }
    {
        self.journal.report(place as usize)
    }

    /// Returns whether the run so far keeps a spread and a flight time, by one clock. If it does, every member is calm.
    /// Nothing is allocated.
    pub fn timely(&self, spread: Interval, flight: Interval) -> bool
        ensures some_time { 0 < spread }
        ensures exactly { IsTrue result
            ↔ AreTimely spread flight (length self.now.replicas) self.now.silences self.now.log }
        ensures calm { IsTrue result → (place : ℕ) →
            IsCalmInBoth (length self.now.replicas) place self.now.silences self.now.log }
    {
        let _sum = Moment::LEAST.checked_add(spread);
        self.journal.timely(spread, flight)
    }

    /// Returns whether the member at a place is durable: at each of its starts, it had been saved after every step that had
    /// brought it something live. A member that has each such step in a log on its disk is durable. Nothing is allocated.
    pub fn durable(&self, place: Place) -> bool
        ensures { IsTrue result ↔ IsDurableInBoth place self.now.silences self.now.log }
    {
        self.journal.durable(place as usize)
    }
}
