//! All replicas beside a member.

ghost use Rattle.std.specs.Prelude.{◌≡◌};
ghost use Rattle.std.specs.List.{list_all};
ghost use Rattle.am_alertmanager.specs.Heard.{is_over_at};

use crate::replica::Replica;
use crate::reports::{Reports, WithheldSilence};
use crate::work::{AnswerWork, Stretch};
use am_gossip::Frame;
use am_memberlist::AnswerError;
use am_merge::Held;
use am_nflog::MeshEntry;
use am_silence::MeshSilence;
use am_version_order::Moment;
use am_wire::Unknown;
use std::alloc::{AllocError, Global};
use std::net::SocketAddr;
use std::time::{Duration, Instant};

/// All replicas beside a member. Answers are looked at one at a time, in stretches.
#[derive(Drop)]
pub struct Replicas {
    alloc: Global,
    /// The policy for unknown fields in what comes.
    unknown: Unknown,
    /// The replicas by the places of members, with `None` for a member that isn't one.
    replicas: Vec<Option<Replica>>,
    /// True if there are none.
    is_empty: bool,
    /// The time between two questions to each replica for all it holds.
    every: Duration,
    /// The time of their next questions.
    next: Option<Instant>,
    /// The replica whose answer is looked at, and the progress of that.
    work: Option<(usize, AnswerWork)>,
    /// The reports of silences that aren't sent.
    reports: Reports,
}

/// The result of a stretch of work on the answer of the replica at a place.
#[derive(Drop)]
pub enum Came {
    /// There was nothing to do.
    Nothing,
    /// There is nothing for the member to take.
    Stretch,
    /// A frame.
    Frame(usize, Frame),
    /// The last part: all that the replica holds has come, including this frame, if there is one. The number is that of the
    /// versions that the replica lacked.
    Whole(usize, Option<Frame>, u64),
    /// A fault, after which nothing more of the answer comes.
    Fault(usize, AnswerError),
}

/// Returns the replica at a place.
fn replica_at(replicas: &mut [Option<Replica>], place: usize) -> Option<&mut Replica> {
    match replicas.get_mut(place) {
        Some(Some(replica)) => Some(replica),
        _ => None,
    }
}

/// Returns whether an exchange with a replica that began in a round or later is over, or there is no replica.
fn is_over(replica: &Option<Replica>, round: u64) -> bool
    ensures { result ≡ is_over_at round replica.now }
{
    match replica {
        Some(replica) => replica.rounds().is_over(round),
        None => true,
    }
}

impl Replicas {
    /// Returns the replicas at the places that have an address, which are asked at once, and then at each interval; what they
    /// tell, and what they are to be told, is read by the policy for unknown fields.
    ///
    /// # Errors
    ///
    /// [`AllocError`] if memory runs out.
    pub fn new(
        alloc: Global,
        addresses: &[Option<SocketAddr>],
        every: Duration,
        unknown: Unknown,
    ) -> Result<Replicas, AllocError> {
        let mut replicas = Vec::with_capacity(alloc, addresses.len())?;
        for address in addresses {
            let replica = match address {
                Some(_) => Some(Replica::new(alloc)),
                None => None,
            };
            replicas.push(replica)?;
        }
        Ok(Replicas {
            alloc,
            unknown,
            replicas,
            every,
            is_empty: addresses.iter().all(|address| address.is_none()),
            next: None,
            work: None,
            reports: Reports::new(alloc),
        })
    }

    /// Returns whether, with each replica, an exchange that began in a round or later is over.
    pub fn are_over(&self, round: u64) -> bool
        // PROMISE: Who waits to hear the replicas since a round waits on while an exchange with one isn't over that began since.
        ensures { result ≡ list_all (is_over_at round) self.now.replicas.items }
    {
        self.replicas.iter().all(|replica| is_over(replica, round))
    }

    /// Returns whether to report now that the replica at a place, if there is one, wasn't heard since a round: if it wasn't, and
    /// once a minute.
    pub fn is_missed(&mut self, place: usize, round: u64, now: Instant) -> bool {
        match replica_at(&mut self.replicas, place) {
            Some(replica) => replica.is_missed(round, now),
            None => false,
        }
    }

    /// Returns the next silence that isn't sent because of its hazard, and isn't reported yet, with the place of the replica.
    pub fn next_report(&mut self) -> Option<WithheldSilence> {
        for place in 0..self.replicas.len() {
            if let Some(replica) = replica_at(&mut self.replicas, place)
                && let Some(withheld) = replica.pending_versions.next_withheld()
            {
                return Some(self.reports.report(place, withheld));
            }
        }
        None
    }

    /// Returns the place of a replica whose matchers, receivers and moments lost fields since this was last called, and their
    /// number.
    pub fn next_dropped(&mut self) -> Option<(usize, u64)> {
        for place in 0..self.replicas.len() {
            if let Some(replica) = replica_at(&mut self.replicas, place) {
                let count = replica.pending_versions.take_dropped();
                if count > 0 {
                    return Some((place, count));
                }
            }
        }
        None
    }

    /// Marks each replica to be asked, if that is due.
    pub fn want_due(&mut self, now: Instant) {
        let is_early = match self.next {
            Some(next) => now < next,
            None => false,
        };
        if self.is_empty || is_early {
            return;
        }
        self.next = now.checked_add(self.every);
        self.want_all();
    }

    /// Marks each replica to be asked.
    pub fn want_all(&mut self) {
        for replica in self.replicas.iter_mut() {
            if let Some(replica) = replica {
                replica.want();
            }
        }
    }

    /// Returns the time until something is to be done.
    pub fn left(&self, now: Instant) -> Option<Duration> {
        if self.work.is_some() || self.answered_place().is_some() {
            return Some(Duration::ZERO);
        }
        Some(self.next?.saturating_duration_since(now))
    }

    /// Returns the place of the first replica whose answer waits.
    fn answered_place(&self) -> Option<usize> {
        self.replicas.iter().position(|replica| match replica {
            Some(replica) => replica.has_answer(),
            None => false,
        })
    }

    /// Adds what frames bring to the versions that wait for the replica at a place.
    pub fn bring(&mut self, place: usize, frames: &[Frame]) {
        if let Some(replica) = replica_at(&mut self.replicas, place) {
            for frame in frames {
                replica.bring(self.alloc, self.unknown, frame);
            }
        }
    }

    /// Returns what goes to a replica next, in a round, and to which replica.
    ///
    /// # Errors
    ///
    /// [`AllocError`] if memory runs out.
    pub fn question(
        &mut self,
        now: Moment,
        round: u64,
    ) -> Result<Option<(usize, Vec<u8>)>, AllocError> {
        for place in 0..self.replicas.len() {
            if let Some(replica) = replica_at(&mut self.replicas, place)
                && let Some(bytes) = replica.question(self.alloc, now, round)?
            {
                return Ok(Some((place, bytes)));
            }
        }
        Ok(None)
    }

    /// Takes the bytes that the replica at a place answered.
    pub fn answered(&mut self, place: usize, answer: Vec<u8>) {
        if let Some(replica) = replica_at(&mut self.replicas, place) {
            replica.answered(answer);
        }
    }

    /// Records that what was asked of the replica at a place, or told to it, is lost.
    pub fn lost(&mut self, place: usize) {
        if let Some(replica) = replica_at(&mut self.replicas, place) {
            replica.lost();
        }
    }

    /// Does another stretch of work, beside a member that holds these versions.
    pub fn resume(
        &mut self,
        silences: &Held<MeshSilence>,
        entries: &Held<MeshEntry>,
        now: Moment,
    ) -> Came {
        let Some((place, work)) = self.next_work() else {
            return Came::Nothing;
        };
        let Some(replica) = replica_at(&mut self.replicas, place) else {
            return Came::Nothing;
        };
        match work.resume(
            self.alloc,
            self.unknown,
            silences,
            entries,
            &mut replica.pending_versions,
            now,
        ) {
            Ok(stretch) => self.keep(place, stretch),
            Err(fault) => {
                self.end_look(place, false);
                Came::Fault(place, fault)
            }
        }
    }

    /// Returns the work to go on with: what was begun, or otherwise an answer that waits.
    fn next_work(&mut self) -> Option<(usize, AnswerWork)> {
        if let Some(begun) = self.work.take() {
            return Some(begun);
        }
        let place = self.answered_place()?;
        let answer = replica_at(&mut self.replicas, place)?.take_answer()?;
        Some((place, AnswerWork::new(self.alloc, answer)))
    }

    /// Records that the whole answer of the replica at a place was taken, or that it is at fault. Returns the number of versions
    /// that the replica lacked.
    fn end_look(&mut self, place: usize, is_taken: bool) -> u64 {
        match replica_at(&mut self.replicas, place) {
            Some(replica) => {
                replica.end_look(is_taken);
                replica.pending_versions.take_lacked()
            }
            None => 0,
        }
    }

    /// Keeps what is left of the work on an answer.
    fn keep(&mut self, place: usize, stretch: Stretch) -> Came {
        let Stretch { frame, left } = stretch;
        let Some(left) = left else {
            let lacked = self.end_look(place, true);
            return Came::Whole(place, frame, lacked);
        };
        self.work = Some((place, left));
        match frame {
            Some(frame) => Came::Frame(place, frame),
            None => Came::Stretch,
        }
    }
}
