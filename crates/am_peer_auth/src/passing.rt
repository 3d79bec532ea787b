//! The input of a connection at its authenticator: what passes to the session unchanged, and what is turned back.

ghost use Rattle.std.specs.Prelude.{◌≡◌, ◌+◌, ◌≤◌, drop, length};
ghost use Rattle.am_http.specs.Sessions.{nothing};
ghost use Rattle.am_peer_auth.specs.Authenticators.{IsTurnedBack, PassesOn, told, told_by, phase_of};

use crate::fault::AuthFault;
use crate::opening::Waiting;
use crate::sequence::Sequence;
use am_http::session::{Session, SessionOutput};
use std::alloc::Global;

/// The kinds of input that are heard at an entrance.
#[derive(Clone, Copy, PartialEq, Eq)]
pub enum AcceptedProtocols {
    Requests,
    Frames,
    Both,
}

/// The output for a piece of a connection.
#[derive(Drop)]
pub struct Heard {
    pub said: SessionOutput,
    /// The reason why nothing more is heard after that.
    pub fault: Option<AuthFault>,
}

/// The progress of a connection at its authenticator.
#[derive(Drop)]
pub enum AuthState {
    /// No byte came.
    Fresh,
    /// Everything goes to the session.
    Open,
    /// The bytes of a greeting so far, behind the first byte of a sealed connection.
    Greeting(Vec<u8>),
    /// A greeting came, and sealed frames follow it.
    Sealed(Sealing),
    /// Nothing more is heard.
    Closed,
}

/// The progress of a connection whose frames are sealed.
#[derive(Drop)]
pub struct Sealing {
    /// The place of the next frame, behind the challenge that this connection answers.
    pub place: Sequence,
    /// The number of bytes of the challenge that were sent.
    pub out: usize,
    /// The bytes of a frame that isn't whole.
    pub waiting: Waiting,
}

impl Sealing {
    /// Returns the bytes of the challenge that are still to be written.
    pub fn left(&self) -> &[u8]
        ensures { result.now ≡ drop self.now.out self.now.place.challenge }
    {
        let challenge = self.place.challenge.as_slice();
        if self.out < challenge.len() {
            &challenge[self.out..]
        } else {
            &[]
        }
    }

    /// Records that `count` more bytes of the challenge were sent.
    pub fn sent(&mut self, count: usize)
        requires within { count ≤ length (drop self.old.out self.old.place.challenge) }
        ensures { self.new ≡ record (self.old) { out = self.old.out + count } }
    {
        let challenge = self.place.challenge.as_slice();
        let end = challenge.len().max(self.out);
        self.out = end.min(self.out.saturating_add(count));
    }
}

/// Returns what the session says of a piece.
pub fn pass_on(session: &mut Session, piece: &[u8]) -> (Heard, AuthState)
    ensures { PassesOn session.old piece.now (told_by result.0) (phase_of result.1) session.new }
{
    let said = session.feed(piece);
    (Heard { said, fault: None }, AuthState::Open)
}

/// Stops the session for this reason: nothing more is heard.
pub fn turn_back(alloc: Global, session: &mut Session, fault: AuthFault) -> (Heard, AuthState)
    ensures { IsTurnedBack fault session.old (told_by result.0) (phase_of result.1) session.new }
{
    session.stop();
    let heard = Heard {
        said: SessionOutput::nothing(alloc),
        fault: Some(fault),
    };
    (heard, AuthState::Closed)
}

/// Returns that nothing was said, with this state.
pub fn wait(alloc: Global, state: AuthState) -> (Heard, AuthState)
    ensures said { told_by result.0 ≡ told nothing }
    ensures state { phase_of result.1 ≡ phase_of state }
{
    let heard = Heard {
        said: SessionOutput::nothing(alloc),
        fault: None,
    };
    (heard, state)
}
