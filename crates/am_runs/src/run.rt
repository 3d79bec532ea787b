//! The record of a run.

ghost use Rattle.std.specs.Prelude.{◌≡◌, ◌++◌, ℕ, [], ◌∷◌, ◌+◌, ◌<◌, ◌≤◌, map, MatchOption, IsTrue, ◌↔◌, OnOk, All};
ghost use Rattle.am_runs.specs.Members.{last_of, member_of};
ghost use Rattle.am_runs.specs.Records.{step_of};
ghost use Rattle.am_runs.specs.Runs.{IsPossible, IsRun, IsCalmAt, IsFirstFault};
ghost use Rattle.am_runs.specs.Steps.{delivered_in};
ghost use Rattle.am_runs.specs.Timely.{IsTimely};

use crate::calm::first_fault;
use crate::laws::{one_step_more, timely_runs_are_calm};
use crate::member_index::{MemberIndex, fill_first, note};
use crate::running::{last_from, runs_from};
use crate::spans::is_some_time;
use crate::step::RunStep;
use crate::timely::is_timely;
use am_version_order::{Interval, Moment, Version, versions_are_values};
use std::alloc::{AllocError, Global};
use std::marker::Model;

/// The history of a cluster so far, for the versions of one type.
///
/// Contracts see it as the number of the members, the list of the steps, which is a run, and the room for more.
pub struct Run<V: Version> {
    members: usize,
    steps: Vec<RunStep<V>>,
    // Empty if memory ran out in noting a step; the plain loops answer then.
    indexes: Vec<MemberIndex<V>>,
    alloc: Global,
}

// Crates that use a run cite this one drop, and need not prove those of its parts.
impl<V: Version> Drop for Run<V> {
    fn drop(self) {
        let Run {
            members: _,
            steps: _,
            indexes: _,
            alloc: _,
        } = self;
    }
}

impl<V: Version> Model for Run<V> {
    ghost use Rattle.std.specs.Prelude.{◌-◌, map, vec_len, vec_capacity};
    ghost use Rattle.am_runs.specs.Records.{Record, step_of};
    ghost use Rattle.am_runs.specs.Accounts.{IsAccount};

    ghost Value = { Record V };

    ghost view = { λ run. record {
      members = run.members;
      steps = map step_of run.steps.items;
      room = vec_capacity run.steps - vec_len run.steps;
    } };

    ghost invariant = { λ run. IsAccount V.seen V.Key.cmp V.is_value run.members
        (map step_of run.steps.items) run.indexes.items };
}

impl<V: Version> Run<V> {
    /// Creates a run of `members` members in which nothing has happened yet: all of them run, and are empty. This takes no memory.
    pub fn new(alloc: Global, members: usize) -> Self
        ensures members { result.members ≡ members }
        ensures steps { result.steps ≡ [] }
    {
        Run {
            members,
            steps: Vec::new(alloc),
            indexes: Vec::new(alloc),
            alloc,
        }
    }

    /// Returns the number of members.
    pub fn members(&self) -> usize
        ensures { result ≡ self.now.members }
    {
        self.members
    }

    /// Returns the steps so far, in order.
    pub fn steps(&self) -> &[RunStep<V>]
        ensures { map step_of result.now ≡ self.now.steps }
    {
        &self.steps
    }

    /// States that the record is consistent: the steps are a run, and the versions delivered in them are values of their type.
    pub fn consistency(&self)
        ensures run { IsRun V.seen V.Key.cmp self.now.members self.now.steps }
        ensures values { All V.is_value (delivered_in self.now.steps) }
    {
        let _steps = &self.steps;
    }

    /// Makes room for `steps` more steps.
    ///
    /// # Errors
    ///
    /// Returns [`AllocError`] if memory runs out. There is then no less room than before.
    pub fn make_room(&mut self, steps: usize) -> Result<(), AllocError>
        ensures members { self.new.members ≡ self.old.members }
        ensures steps { self.new.steps ≡ self.old.steps }
        ensures room { OnOk result (steps ≤ self.new.room) }
        ensures kept_room { self.old.room ≤ self.new.room }
    {
        fill_first(self.alloc, &mut self.indexes, self.members, &self.steps)?;
        self.steps.reserve(steps)
    }

    /// Appends a step. If there is no memory for the indexes that make answers quick, answers take longer.
    pub fn append(&mut self, step: RunStep<V>)
        requires room { 0 < self.old.room }
        requires possible { IsPossible V.seen V.Key.cmp self.old.members self.old.steps (step_of step) }
        ensures members { self.new.members ≡ self.old.members }
        ensures steps { self.new.steps ≡ self.old.steps ++ step_of step ∷ [] }
        ensures room { self.old.room ≤ self.new.room + 1 }
    {
        one_step_more::<V>();
        versions_are_values(step.versions());
        note(&mut self.indexes, &self.steps, &step);
        self.steps.push_reserved(step);
    }

    /// Returns whether a member runs. This takes no memory.
    pub fn runs(&self, place: usize) -> bool
        ensures { result ≡ (member_of self.now.members place self.now.steps).runs }
    {
        match self.indexes.get(place) {
            Some(index) if place < self.members => index.runs,
            _ => runs_from(place, place < self.members, &self.steps),
        }
    }

    /// Returns the moment of a member's last event or start, or the first moment if it had none. This takes no memory.
    pub fn last(&self, place: usize) -> Moment
        ensures { result ≡ last_of (member_of self.now.members place self.now.steps) }
    {
        match self.indexes.get(place) {
            Some(index) => index.acted,
            None => last_from(place, &self.steps),
        }
    }

    /// Returns the number of the first step, counted from 0, after which a member is not calm, or `None` if it is calm. This
    /// takes no memory.
    pub fn first_fault(&self, place: usize) -> Option<usize>
        ensures { MatchOption result (IsCalmAt V.seen self.now.members place self.now.steps)
            (IsFirstFault V.seen self.now.members place self.now.steps) }
    {
        match self.indexes.get(place) {
            Some(index) => index.fault,
            None => first_fault(place, &self.steps),
        }
    }

    /// Returns whether the run keeps a spread and a flight time. This takes no memory.
    pub fn timely(&self, spread: Interval, flight: Interval) -> bool
        // PROMISE: Whether a run was timely is answered exactly.
        ensures exactly { IsTrue result ↔ IsTimely V.seen spread flight self.now.members self.now.steps }
        ensures calm { IsTrue result → (place : ℕ) → IsCalmAt V.seen self.now.members place self.now.steps }
    {
        timely_runs_are_calm::<V>();
        is_some_time(spread);
        is_timely(spread, flight, self.members, &self.steps)
    }
}
