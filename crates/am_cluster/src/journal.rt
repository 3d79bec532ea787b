//! The journal of a cluster: the record of each step so far for the silences and for the log, and its line.

ghost use Rattle.std.specs.Prelude.{◌≡◌, ◌++◌, ℕ, [], ◌∷◌, ◌+◌, ◌-◌, ◌<◌, ◌≤◌, length, max, IsTrue, ◌↔◌, MatchOption, OnOk, OnErr, All};
ghost use Rattle.am_runs.specs.Members.{last_of, member_of};
ghost use Rattle.am_runs.specs.Records.{step_of};
ghost use Rattle.am_runs.specs.Steps.{delivered_in, flights_by, flights_of};
ghost use Rattle.am_silence.specs.Mesh.{IsMesh};
ghost use Rattle.am_nflog.specs.Mesh.{IsMesh as IsLogMesh};
ghost use Rattle.am_cluster.specs.DurableRuns.{IsDurableInBoth};
ghost use Rattle.am_cluster.specs.Marks.{step_of_mark};
ghost use Rattle.am_cluster.specs.Reports.{AreRuns, AreTimely, IsCalmInBoth, IsLineOfFault, IsPossibleForLog, IsPossibleForSilences};
ghost use Rattle.am_cluster.specs.Twins.{AreTwins, IsTwin};

pub mod laws;
mod mark;
mod report;

use crate::durable::is_durable;
use am_nflog::MeshEntry;
use am_runs::{Run, RunStep};
use am_silence::MeshSilence;
use am_version_order::{Interval, Moment};
use laws::{marks_are_told_of_both, twins_tell_same};
pub use mark::Mark;
pub use report::CalmReport;
use report::earlier;
use std::alloc::{AllocError, Global};
use std::marker::Model;

/// The journal of a cluster: the record of each step so far for the silences and for the log, and the line that it was
/// given.
///
/// Contracts see the number of members, both lists of steps, the lines, and the room for more.
pub struct Journal {
    silences: Run<MeshSilence>,
    log: Run<MeshEntry>,
    lines: Vec<u64>,
    // The number of frames that were ever sent.
    sendings: usize,
    // The number of further steps for which there is room.
    room: usize,
}

// With this the crates above cite one drop, and don't prove those of everything inside.
impl Drop for Journal {
    fn drop(self) {
        let Journal {
            silences: _,
            log: _,
            lines: _,
            sendings: _,
            room: _,
        } = self;
    }
}

impl Model for Journal {
    ghost use Rattle.std.specs.Prelude.{◌≡◌, ◌≤◌, ◌-◌, length, vec_len, vec_capacity};
    ghost use Rattle.am_runs.specs.Steps.{flights_of};
    ghost use Rattle.am_cluster.specs.Accounts.{Account};
    ghost use Rattle.am_cluster.specs.Twins.{AreTwins};

    ghost Value = { Account };

    ghost view = { λ journal. record {
      members = journal.silences.members;
      silences = journal.silences.steps;
      log = journal.log.steps;
      lines = journal.lines.items;
      room = journal.room;
    } };

    ghost invariant = { λ journal. record {
      members : journal.silences.members ≡ journal.log.members;
      twins : AreTwins journal.silences.steps journal.log.steps;
      lines : length journal.lines.items ≡ length journal.silences.steps;
      sendings : journal.sendings ≡ length (flights_of journal.silences.steps);
      room_silences : journal.room ≤ journal.silences.room;
      room_log : journal.room ≤ journal.log.room;
      room_lines : journal.room ≤ vec_capacity journal.lines - vec_len journal.lines;
    } };
}

impl Journal {
    /// Returns a journal of `members` members, all of which run and are empty, before the first step. Nothing is allocated.
    pub fn new(alloc: Global, members: usize) -> Journal
        ensures members { result.members ≡ members }
        ensures silences { result.silences ≡ [] }
        ensures log { result.log ≡ [] }
        ensures lines { result.lines ≡ [] }
    {
        Journal {
            silences: Run::new(alloc, members),
            log: Run::new(alloc, members),
            lines: Vec::new(alloc),
            sendings: 0,
            room: 0,
        }
    }

    /// States that the journal is consistent. Both lists of steps are runs and tell of the same steps, each of which has a
    /// line. Everything that was delivered in them is a value of its type. Nothing is done.
    pub fn consistency(&self)
        ensures runs { AreRuns self.now.members self.now.silences self.now.log }
        ensures silences { All IsMesh (delivered_in self.now.silences) }
        ensures log { All IsLogMesh (delivered_in self.now.log) }
        ensures twins { AreTwins self.now.silences self.now.log }
        ensures lines { length self.now.lines ≡ length self.now.silences }
    {
        self.silences.consistency();
        self.log.consistency();
    }

    /// Makes room for `steps` steps. If there is enough room already, nothing is allocated.
    ///
    /// # Errors
    ///
    /// [`AllocError`] if memory runs out. The room is the same then as before.
    pub fn make_room(&mut self, steps: usize) -> Result<(), AllocError>
        ensures members { self.new.members ≡ self.old.members }
        ensures silences { self.new.silences ≡ self.old.silences }
        ensures log { self.new.log ≡ self.old.log }
        ensures lines { self.new.lines ≡ self.old.lines }
        ensures room { OnOk result (self.new.room ≡ max self.old.room steps) }
        ensures kept_room { OnErr result (self.new.room ≡ self.old.room) }
        ensures without_room { OnErr result (self.old.room < steps) }
    {
        if steps <= self.room {
            return Ok(());
        }
        self.silences.make_room(steps)?;
        self.log.make_room(steps)?;
        self.lines.reserve(steps)?;
        self.room = self.room.max(steps);
        Ok(())
    }

    /// Checks that `frames` more frames can be numbered, each by its place among all frames that were ever sent. Nothing is
    /// allocated.
    ///
    /// # Errors
    ///
    /// [`AllocError`] if their numbers would exceed [`usize::MAX`]. No memory holds so many frames, so this never happens.
    pub fn room_for_frames(&self, frames: usize) -> Result<(), AllocError>
        ensures ok { OnOk result (length (flights_of self.now.silences) + frames ≤ usize.MAX) }
        ensures err { OnErr result (usize.MAX < length (flights_of self.now.silences) + frames) }
    {
        match self.sendings.checked_add(frames) {
            Some(_) => Ok(()),
            None => Err(AllocError),
        }
    }

    /// Appends the record of a step for the silences and for the log, and its line.
    pub fn append(&mut self, silences: RunStep<MeshSilence>, log: RunStep<MeshEntry>, line: u64)
        requires room { 0 < self.old.room }
        requires frames { length (flights_of self.old.silences) + length (flights_by (step_of silences)) ≤ usize.MAX }
        requires possible_silences { IsPossibleForSilences self.old.members self.old.silences (step_of silences) }
        requires possible_log { IsPossibleForLog self.old.members self.old.log (step_of log) }
        requires twins { IsTwin (step_of silences) (step_of log) }
        ensures members { self.new.members ≡ self.old.members }
        ensures silences { self.new.silences ≡ self.old.silences ++ step_of silences ∷ [] }
        ensures log { self.new.log ≡ self.old.log ++ step_of log ∷ [] }
        ensures lines { self.new.lines ≡ self.old.lines ++ line ∷ [] }
        ensures room { self.new.room ≡ self.old.room - 1 }
    {
        self.sendings += silences.sendings();
        self.room -= 1;
        self.silences.append(silences);
        self.log.append(log);
        self.lines.push_reserved(line);
    }

    /// Appends the record of a step without versions, and its line.
    pub fn mark(&mut self, mark: Mark, line: u64)
        requires room { 0 < self.old.room }
        requires possible { IsPossibleForSilences self.old.members self.old.silences (step_of_mark mark) }
        ensures members { self.new.members ≡ self.old.members }
        ensures silences { self.new.silences ≡ self.old.silences ++ step_of_mark mark ∷ [] }
        ensures log { self.new.log ≡ self.old.log ++ step_of_mark mark ∷ [] }
        ensures lines { self.new.lines ≡ self.old.lines ++ line ∷ [] }
        ensures room { self.new.room ≡ self.old.room - 1 }
    {
        self.is_told_of_both();
        marks_are_told_of_both();
        self.append(mark.step(), mark.step(), line);
    }

    /// States that both runs tell of the same steps, and that each step has its line. Nothing is done.
    pub fn is_told_of_both(&self)
        ensures twins { AreTwins self.now.silences self.now.log }
        ensures lines { length self.now.lines ≡ length self.now.silences }
        ensures frames { length (flights_of self.now.silences) ≤ usize.MAX }
    {
        let _sendings = self.sendings;
    }

    /// Returns the number of frames that were ever sent. Nothing is allocated.
    pub fn sendings(&self) -> usize
        ensures silences { result ≡ length (flights_of self.now.silences) }
        ensures log { result ≡ length (flights_of self.now.log) }
    {
        twins_tell_same();
        self.sendings
    }

    /// Returns whether a member runs. Nothing is allocated.
    pub fn runs(&self, place: usize) -> bool
        ensures silences { result ≡ (member_of self.now.members place self.now.silences).runs }
        ensures log { result ≡ (member_of self.now.members place self.now.log).runs }
    {
        twins_tell_same();
        self.silences.runs(place)
    }

    /// Returns the moment of a member's last event or start, or the first moment if it had none. Nothing is allocated.
    pub fn last(&self, place: usize) -> Moment
        ensures silences { result ≡ last_of (member_of self.now.members place self.now.silences) }
        ensures log { result ≡ last_of (member_of self.now.members place self.now.log) }
    {
        twins_tell_same();
        self.silences.last(place)
    }

    /// Returns the report on a member: that it was calm, or the line of the first step at which it wasn't. Nothing is
    /// allocated.
    pub fn report(&self, place: usize) -> CalmReport
        ensures calm { IsTrue result.calm
            ↔ IsCalmInBoth self.now.members place self.now.silences self.now.log }
        ensures fault { MatchOption result.first_fault
            (IsCalmInBoth self.now.members place self.now.silences self.now.log)
            (IsLineOfFault self.now.members place self.now.silences self.now.log self.now.lines) }
    {
        match earlier(
            self.silences.first_fault(place),
            self.log.first_fault(place),
        ) {
            Some(number) => CalmReport {
                calm: false,
                first_fault: Some(self.lines[number]),
            },
            None => CalmReport {
                calm: true,
                first_fault: None,
            },
        }
    }

    /// Returns whether both runs keep a spread and a flight time. Nothing is allocated.
    pub fn timely(&self, spread: Interval, flight: Interval) -> bool
        ensures exactly { IsTrue result
            ↔ AreTimely spread flight self.now.members self.now.silences self.now.log }
        ensures calm { IsTrue result → (place : ℕ) →
            IsCalmInBoth self.now.members place self.now.silences self.now.log }
    {
        self.silences.timely(spread, flight) && self.log.timely(spread, flight)
    }

    /// Returns whether a member is durable in both runs: at each of its starts, it had been saved after every step that had
    /// brought it something live. Nothing is allocated.
    pub fn durable(&self, place: usize) -> bool
        ensures { IsTrue result ↔ IsDurableInBoth place self.now.silences self.now.log }
    {
        is_durable(place, &self.silences) && is_durable(place, &self.log)
    }
}
