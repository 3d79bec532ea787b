//! One replica: what it is asked, and what it is told.

ghost use Rattle.std.specs.Prelude.{◌≡◌, ◌≢◌, false, true, is_some, nat_le, IsTrue, None, Ok, Some};
ghost use Rattle.am_alertmanager.specs.Heard.{heard_all, is_due_then, lost_all};

use crate::pending_versions::PendingVersions;
use crate::rounds::Rounds;
use am_gossip::Frame;
use am_memberlist::request_encoding;
use am_version_order::Moment;
use am_wire::Unknown;
use std::alloc::{AllocError, Global};
use std::time::{Duration, Instant};

/// The number of seconds after which it is reported again that a replica wasn't heard.
const LINE_EVERY: u64 = 60;

/// The exchange that is under way with a replica.
#[derive(Clone, Copy, PartialEq, Eq)]
enum ExchangeState {
    /// No exchange.
    Idle,
    /// The replica is asked for all it holds.
    Pulling,
    /// The replica is told something.
    Pushing,
}

/// One replica.
#[derive(Drop)]
pub struct Replica {
    exchange: ExchangeState,
    /// True if the replica is to be asked for all it holds.
    is_due: bool,
    /// The replica's answer, which isn't looked at yet.
    answer: Option<Vec<u8>>,
    /// True if the replica's answer is being looked at.
    is_looked_at: bool,
    rounds: Rounds,
    /// The time before which it isn't reported again that the replica wasn't heard.
    next_line: Option<Instant>,
    pub pending_versions: PendingVersions,
}

impl Replica {
    /// Returns a replica that is to be asked.
    pub fn new(alloc: Global) -> Replica {
        Replica {
            exchange: ExchangeState::Idle,
            is_due: true,
            answer: None,
            is_looked_at: false,
            rounds: Rounds::none(),
            next_line: None,
            pending_versions: PendingVersions::new(alloc),
        }
    }

    /// Marks the replica to be asked for all it holds, unless it is just being asked, or has answered: what it lacks is found
    /// once that is looked at.
    pub fn want(&mut self)
        ensures { self.new ≡ record (self.old) { is_due = is_due_then self.old } }
    {
        self.is_due |= self.exchange != ExchangeState::Pulling && self.answer.is_none();
    }

    /// Returns whether an answer waits to be looked at.
    pub fn has_answer(&self) -> bool
        ensures { result ≡ is_some self.now.answer }
    {
        self.answer.is_some()
    }

    /// Returns the replica's answer, which is looked at from now on.
    pub fn take_answer(&mut self) -> Option<Vec<u8>>
        ensures taken { result ≡ self.old.answer }
        ensures looked_at { self.new ≡ record (self.old) { answer = None; is_looked_at = is_some self.old.answer } }
    {
        let answer = self.answer.take();
        self.is_looked_at = answer.is_some();
        answer
    }

    /// Records that the whole answer was taken, or that it is at fault.
    pub fn end_look(&mut self, is_taken: bool)
        ensures heard { IsTrue is_taken → self.new ≡ record (self.old) { is_looked_at = false; rounds = heard_all self.old.rounds } }
        ensures lost { is_taken ≡ false → self.new ≡ record (self.old) { is_looked_at = false; rounds = lost_all self.old.rounds } }
    {
        self.is_looked_at = false;
        if is_taken {
            self.rounds.hear();
        } else {
            self.rounds.lose();
        }
    }

    /// Returns the exchanges with the replica.
    pub fn rounds(&self) -> Rounds
        ensures { result ≡ self.now.rounds }
    {
        self.rounds
    }

    /// Returns whether to report now that the replica wasn't heard since a round: if it wasn't, and once a minute.
    pub fn is_missed(&mut self, round: u64, now: Instant) -> bool
        ensures heard { nat_le round self.old.rounds.heard ≡ true → result ≡ false }
        ensures untold { result ≡ false → self.new ≡ self.old }
    {
        let is_early = match self.next_line {
            Some(next) => now < next,
            None => false,
        };
        if is_early || self.rounds.is_heard(round) {
            return false;
        }
        self.next_line = now.checked_add(Duration::from_secs(LINE_EVERY));
        true
    }

    /// Adds what a frame brings, read by the policy for unknown fields, to the versions that wait for the replica. What finds
    /// no room or memory is found again once the replica is asked.
    pub fn bring(&mut self, alloc: Global, unknown: Unknown, frame: &Frame) {
        if let Frame::Delta(part) = frame
            && !self.pending_versions.add(alloc, unknown, part)
        {
            self.want();
        }
    }

    /// Returns whether the replica is asked next for all it holds, in a round: not before its last answer was taken.
    fn is_asked_next(&self, round: u64) -> bool
        ensures { IsTrue result → (self.now.answer ≡ None) × (self.now.is_looked_at ≡ false) }
    {
        let is_wanted = self.is_due || self.rounds.lacks(round);
        is_wanted && self.answer.is_none() && !self.is_looked_at
    }

    /// Returns what goes to the replica next, in a round, if anything: nothing while an exchange is under way.
    ///
    /// # Errors
    ///
    /// [`AllocError`] if memory runs out.
    pub fn question(
        &mut self,
        alloc: Global,
        now: Moment,
        round: u64,
    ) -> Result<Option<Vec<u8>>, AllocError>
        // PROMISE: While an exchange with an Alertmanager is under way, no other one begins.
        ensures busy { self.old.exchange ≢ ExchangeState.Idle → (result ≡ Ok None) × (self.new ≡ self.old) }
    {
        if self.exchange != ExchangeState::Idle {
            return Ok(None);
        }
        if self.is_asked_next(round) {
            self.is_due = false;
            let request = request_encoding(alloc, &[])?;
            self.exchange = ExchangeState::Pulling;
            self.rounds.begin(round);
            return Ok(Some(request));
        }
        let message = self.pending_versions.next_message(alloc, now)?;
        if message.is_some() {
            self.exchange = ExchangeState::Pushing;
        }
        Ok(message)
    }

    /// Takes the bytes that the replica answered. They are ignored if it was told something.
    pub fn answered(&mut self, answer: Vec<u8>)
        ensures asked { self.old.exchange ≡ ExchangeState.Pulling → self.new ≡ record (self.old) { exchange = ExchangeState.Idle; answer = Some answer } }
        ensures told { self.old.exchange ≢ ExchangeState.Pulling → self.new ≡ record (self.old) { exchange = ExchangeState.Idle } }
    {
        if self.exchange == ExchangeState::Pulling {
            self.answer = Some(answer);
        }
        self.exchange = ExchangeState::Idle;
    }

    /// Records that what was asked of the replica, or told to it, is lost.
    pub fn lost(&mut self)
        ensures asked { self.old.exchange ≡ ExchangeState.Pulling → self.new ≡ record (self.old) { exchange = ExchangeState.Idle; rounds = lost_all self.old.rounds } }
        ensures told { self.old.exchange ≢ ExchangeState.Pulling → self.new ≡ record (self.old) { exchange = ExchangeState.Idle } }
    {
        if self.exchange == ExchangeState::Pulling {
            self.rounds.lose();
        }
        self.exchange = ExchangeState::Idle;
    }
}
