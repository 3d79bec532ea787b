//! The state of what is to be on the disk before it is answered.

ghost use Rattle.std.specs.Prelude.{◌≡◌};
ghost use Rattle.am_backend.specs.CommitStates.{behind, came, disk_of, fresh_with, keeps_logs, kept, uncommitted, with_begun, with_ended, with_lost, with_more, with_saved};

use am_instance::Place;
use std::time::{Duration, Instant};

/// The name of the disk among the members: as text it comes after all names that somebody gives.
pub const DISK: &str =
    "\u{10FFFF}\u{10FFFF}\u{10FFFF}\u{10FFFF}\u{10FFFF}\u{10FFFF}\u{10FFFF}\u{10FFFF}";

/// The least time in milliseconds between two saves that are made because the logs lack something.
const SAVE_AT_MOST_EVERY: u64 = 1_000;

/// The state of what is to be in the logs.
#[derive(Clone, Copy)]
pub struct CommitState {
    /// The place of the disk among the members, if logs are kept.
    disk: Option<Place>,
    /// The number of times that something came that is to be in a log.
    changes: u64,
    /// True if something came since the last commit.
    has_changes: bool,
    /// True if the logs lack something, so that nothing is kept before a save.
    is_behind: bool,
    /// True if all that was done before the last commit is kept.
    is_kept: bool,
    /// The moment before which no save is made because the logs lack something.
    next_save: Option<Instant>,
}

impl CommitState {
    /// Returns the state before anything came. The disk has this place, if logs are kept.
    pub fn new(disk: Option<Place>) -> CommitState
        ensures { result ≡ fresh_with disk }
    {
        CommitState {
            disk,
            changes: 0,
            has_changes: false,
            is_behind: false,
            is_kept: true,
            next_save: None,
        }
    }

    /// Returns whether logs are kept.
    pub fn is_on(&self) -> bool
        ensures { result ≡ keeps_logs self.now }
    {
        self.disk.is_some()
    }

    /// Notes that something came that is to be in a log.
    pub fn add(&mut self)
        ensures { self.new ≡ with_more self.old }
    {
        self.changes = self.changes.saturating_add(1);
        self.has_changes = true;
    }

    /// Notes that something came that is in no log.
    pub fn lose(&mut self)
        ensures { self.new ≡ with_lost self.old }
    {
        if self.is_on() {
            self.add();
            self.is_behind = true;
        }
    }

    /// Returns the place of the disk among the members, if logs are kept.
    pub fn disk(&self) -> Option<Place>
        ensures { result ≡ disk_of self.now }
    {
        self.disk
    }

    /// Notes that a commit begins: nothing has come since.
    pub fn begin_commit(&mut self)
        ensures { self.new ≡ with_begun self.old }
    {
        self.has_changes = false;
    }

    /// Notes that the commit is over: all that was done before is kept, if the logs lack nothing.
    pub fn end_commit(&mut self)
        ensures { self.new ≡ with_ended self.old }
    {
        self.is_kept = !self.is_behind;
    }

    /// Returns the number of times that something came.
    pub fn changes(&self) -> u64
        ensures { result ≡ came self.now }
    {
        self.changes
    }

    /// Returns whether something came since the last commit.
    pub fn has_changes(&self) -> bool
        ensures { result ≡ uncommitted self.now }
    {
        self.has_changes
    }

    /// Returns whether all that was done before the last commit is kept.
    pub fn is_kept(&self) -> bool
        ensures { result ≡ kept self.now }
    {
        self.is_kept
    }

    /// Notes that everything is in the files, and the logs are begun anew.
    pub fn is_saved(&mut self)
        ensures { self.new ≡ with_saved self.old }
    {
        self.is_behind = false;
    }

    /// Returns whether the logs lack something, so that nothing is kept before a save.
    pub fn is_behind(&self) -> bool
        ensures { result ≡ behind self.now }
    {
        self.is_behind
    }

    /// Returns whether a save may be made because the logs lack something. If so, none may before a second is over.
    pub fn may_save(&mut self, now: Instant) -> bool
        ensures { self.new ≡ record self.old { next_save = self.new.next_save } }
    {
        if let Some(next) = self.next_save
            && now < next
        {
            return false;
        }
        self.next_save = now.checked_add(Duration::from_millis(SAVE_AT_MOST_EVERY));
        true
    }
}
