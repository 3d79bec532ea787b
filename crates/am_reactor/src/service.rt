//! The services that a loop runs.

ghost use Rattle.std.specs.Prelude.{◌≡◌, ◌↔◌, ℕ, ◌<◌, ◌≤◌, Bool, false, List, [], Option, MatchOption, IfSome, IsTrue, length, take, drop};
ghost use Rattle.std.specs.Option.{option_map};
ghost use Rattle.std.specs.declared.time.Instant.{Instant};
ghost use Rattle.am_reactor.specs.declared.fault.LinkFault.{LinkFault};
ghost use Rattle.am_reactor.specs.Deeds.{Deed};
ghost use Rattle.am_reactor.specs.Deeds.Deed.{Fed, Ended, Sent, Resumed, Released, ReachedDeadline, AbandonedWait, BrokenOff};
ghost use Rattle.am_reactor.specs.Sending.{IsFirstPart};

use crate::entrance::Entrance;
use crate::fault::{Broken, LinkFault};
use std::io::ErrorKind;
use std::time::{Duration, Instant};

/// Bytes that go to a peer.
#[derive(Drop)]
pub struct PeerBytes {
    /// The peer's place among the addresses of the loop.
    pub peer: usize,
    pub bytes: Vec<u8>,
}

/// The answer of the timer.
#[derive(Clone, Copy)]
pub enum Wake {
    /// The loop goes on, and wakes the service after this time at the latest.
    GoOn(Option<Duration>),
    /// The loop accepts nothing more, sends what waits, and returns.
    Stop,
}

/// A service of a loop. It is told everything that comes, and asked for everything that goes out.
pub trait Service {
    /// The state of one connection.
    type Session: Drop;

    /// The bytes of a session that are still to be written.
    ghost pending: { Self.Session → List ℕ };

    /// States that nothing more is read for a session.
    ghost over: { Self.Session → Type 0 };

    /// States what [`Service::waits`] answers: whether something expensive waits to be done for a session.
    ghost waits: { Self.Session → Bool → Type 0 };

    /// States what [`Service::is_held_back`] answers: whether a reply of a session waits for the next commit.
    ghost is_held_back: { Self.Session → Bool → Type 0 };

    /// States what [`Service::due`] answers: the moment for which a reply of a session waits.
    ghost due: { Self.Session → Option Instant → Type 0 };

    /// True if something was done since the last commit that the service has to make sure of.
    ghost uncommitted: { Self → Bool };

    /// Relates the service to what it is once what waited for a peer is lost.
    ghost loses: { Self → ℕ → LinkFault → Self → Type 0 };

    /// Relates the service to what it is once a peer answered with these bytes.
    ghost answers: { Self → ℕ → List ℕ → Self → Type 0 };

    /// Relates the service to what it is once it was asked for more for a peer that had answered with the first bytes, and gave the
    /// others or none.
    ghost gives: { Self → ℕ → List ℕ → Option (List ℕ) → Self → Type 0 };

    /// Relates the service to what it is once it gave these bytes for a peer.
    ghost offers: { Self → ℕ → List ℕ → Self → Type 0 };

    /// Relates the service to what it is once it asked a peer with these bytes.
    ghost asks: { Self → ℕ → List ℕ → Self → Type 0 };

    /// Relates the service to what it is once a connection with this session was accepted.
    ghost begins: { Self → Self.Session → Self → Type 0 };

    /// Relates the service to what a call makes of it that is for no session and for no peer.
    ghost acts: { Self → Self → Type 0 };

    /// Relates the service and the session of one connection to what a call for that session makes of them.
    ghost does: { Self → Self.Session → Deed → Self → Self.Session → Type 0 };

    /// Begins the session of a connection that was accepted at an entrance.
    fn begin(&mut self, entrance: Entrance) -> Self::Session
        ensures { begins self.old result self.new };

    /// Takes bytes that came, at least one. It isn't called once the session is over.
    fn feed(&mut self, session: &mut Self::Session, piece: &[u8])
        requires open { ¬ over session.old }
        requires has_byte { 0 < length piece.now }
        ensures { does self.old session.old (Fed piece.now) self.new session.new };

    /// Takes the end of the input. It is called at most once, and not once the session is over.
    fn end(&mut self, session: &mut Self::Session)
        requires { ¬ over session.old }
        ensures { does self.old session.old Ended self.new session.new };

    /// Takes note that the connection failed or its time is over. This is the last call for the session.
    fn broken(&mut self, session: &mut Self::Session, broken: Broken)
        ensures { does self.old session.old (BrokenOff broken) self.new session.new };

    /// Returns whether something expensive waits to be done for the session.
    fn waits(&self, session: &Self::Session) -> bool
        ensures { waits session.now result };

    /// Returns whether what waits may be done now.
    fn may_resume(&self) -> bool;

    /// Does a stretch of what waits. It is called once in a turn of the loop, for the session that waits longest: that one stays
    /// first until it no longer waits.
    fn resume(&mut self, session: &mut Self::Session)
        ensures { does self.old session.old Resumed self.new session.new };

    /// Returns whether something was done since the last commit that the service has to make sure of.
    fn has_uncommitted(&self) -> bool
        ensures { result ≡ uncommitted self.now };

    /// Makes sure of all that was done so far. It is called once in a turn of the loop if there is something uncommitted.
    fn commit(&mut self)
        ensures acted { acts self.old self.new }
        ensures committed { uncommitted self.new ≡ false };

    /// Returns whether a reply of the session waits for the next commit.
    fn is_held_back(&self, session: &Self::Session) -> bool
        ensures { is_held_back session.now result };

    /// Releases the reply of the session after the commit for which it waited: it goes out from now on.
    fn release(&mut self, session: &mut Self::Session)
        // PROMISE: A reply that waits for a commit is released only after a commit, and before anything else is done that is to be committed.
        requires committed { uncommitted self.old ≡ false }
        ensures did { does self.old session.old Released self.new session.new }
        ensures committed { uncommitted self.new ≡ false };

    /// Returns the moment for which the reply of a session waits, if one does. It is asked in each turn, and the moment may be
    /// earlier than the last answer. If something expensive waits to be done for the session, too, a stretch of that is done
    /// whenever its turn comes, and at the moment it is given up.
    fn due(&self, session: &Self::Session) -> Option<Instant>
        ensures { due session.now result };

    /// Lets the session go on because the moment has come for which its reply waited, or the loop stops: the reply no longer waits
    /// for it. The time of the connection, which didn't count meanwhile, begins anew.
    fn reach_deadline(&mut self, session: &mut Self::Session)
        ensures { does self.old session.old ReachedDeadline self.new session.new };

    /// Does what waits at once, or gives it up: it may not be done now, and the time of the connection is over in a quarter of a
    /// second, or another connection is to get its place. The former is checked in each turn, so a service in which something waits
    /// for long should be woken often.
    fn abandon_wait(&mut self, session: &mut Self::Session)
        ensures { does self.old session.old AbandonedWait self.new session.new };

    /// Returns what is still to be written, or a first part of it that has at least one byte.
    fn output<'a>(&self, session: &'a Self::Session) -> &'a [u8]
        ensures first_part { IsFirstPart result.now (pending session.now) }
        ensures has_byte { result.now ≡ [] → pending session.now ≡ [] };

    /// Takes note that `count` bytes of the output went out.
    fn sent(&mut self, session: &mut Self::Session, count: usize)
        requires within { count ≤ length (pending session.old) }
        ensures rest { pending session.new ≡ drop count (pending session.old) }
        ensures did { does self.old session.old (Sent (take count (pending session.old))) self.new session.new };

    /// Returns whether nothing more is read. Once nothing waits and all is written, the connection is let go.
    fn is_over(&self, session: &Self::Session) -> bool
        ensures { IsTrue result ↔ over session.now };

    /// Returns the number of bytes that came and that the session keeps. It is asked after each turn of the connection.
    fn held(&self, session: &Self::Session) -> usize;

    /// Returns the number of bytes of a reply that the session keeps, be it that they went out. It is asked after each turn of the
    /// connection.
    fn unread(&self, session: &Self::Session) -> usize;

    /// Returns what goes to a peer next, once all that was done before is committed. It is asked after each call that may bring
    /// something, until there is nothing.
    fn outgoing(&mut self) -> Option<PeerBytes>
        // PROMISE: Bytes are given for a peer only once all that was done before is committed.
        ensures committed { IfSome result (λ it. uncommitted self.old ≡ false) }
        ensures offered { MatchOption result (acts self.old self.new) (λ it. offers self.old it.peer it.bytes.items self.new) };

    /// Returns what goes to a peer next over the link that is open to it, behind all that went out; the link's time begins anew
    /// then. It is asked once all bytes of a link went out and as many came back over it as are awaited, which are the `answer`, and
    /// all that was done before is committed. If there is nothing, the link is closed.
    fn more(&mut self, peer: usize, answer: &[u8]) -> Option<Vec<u8>>
        requires committed { uncommitted self.old ≡ false }
        ensures { gives self.old peer answer.now (option_map (λ bytes. bytes.items) result) self.new };

    /// Returns what a peer is asked next, once all that was done before is committed, over a connection of its own: after these
    /// bytes went out, the loop reads until the peer ends its stream. It is called in each turn of the loop, until there is nothing.
    /// A question to a peer that hasn't answered yet is lost.
    fn question(&mut self) -> Option<PeerBytes>
        ensures committed { IfSome result (λ it. uncommitted self.old ≡ false) }
        ensures asked { MatchOption result (acts self.old self.new) (λ it. asks self.old it.peer it.bytes.items self.new) };

    /// Takes the answer of a peer, which took all that it was asked, sent back these bytes, perhaps none, and ended its stream.
    fn answered(&mut self, peer: usize, answer: Vec<u8>)
        ensures { answers self.old peer answer.items self.new };

    /// Takes note that what waited for a peer, or what it was asked, is lost. It is told once of a link and of a question.
    fn lost(&mut self, peer: usize, fault: LinkFault)
        ensures { loses self.old peer fault self.new };

    /// Answers the timer. It is called in each turn, before the loop waits.
    fn wake(&mut self, now: Instant) -> Wake
        ensures { acts self.old self.new };

    /// Takes note that standard input ended. It is told once, and only if standard input is watched.
    fn input_ended(&mut self)
        ensures { acts self.old self.new };

    /// Takes note that no connection was accepted, for a reason that doesn't end the loop.
    fn accept_failed(&mut self, kind: ErrorKind)
        ensures { acts self.old self.new };
}
