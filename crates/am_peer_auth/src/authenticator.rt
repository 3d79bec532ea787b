//! The authenticator of one connection.

ghost use Rattle.std.specs.Prelude.{◌≡◌, ◌≤◌, length};
ghost use Rattle.am_http.specs.Sessions.{SaysEnd, name_of, over, spoken};
ghost use Rattle.am_peer_auth.specs.Authenticators.{Passes, before, challenge_left, challenge_sent, cut_at, told_by, waiting_at, phase_of};

use crate::fault::AuthFault;
use crate::opening::SEALED;
use crate::passing::{AcceptedProtocols, AuthState, Heard, pass_on, turn_back, wait};
use crate::seal::Lock;
use crate::sealed::{greet_on, unseal};
use crate::sequence::CHALLENGE;
use am_http::session::Session;
use std::alloc::Global;
use std::marker::Model;
use std::mem;

/// The smallest first byte of a request; that of a peer's connection is smaller.
const LEAST_OF_REQUESTS: u8 = 0x20;

/// The authenticator of one connection, through which everything passes that its session hears.
#[derive(Drop)]
pub struct Authenticator {
    alloc: Global,
    accepts: AcceptedProtocols,
    state: AuthState,
}

impl Model for Authenticator {
    ghost use Rattle.am_peer_auth.specs.Authenticators.{AtGate, phase_of};

    ghost Value = { AtGate };

    ghost view = { λ g. record { accepts = g.accepts; auth_phase = phase_of g.state } };
}

impl Authenticator {
    /// Returns the authenticator before the first byte of a connection of which this is accepted.
    pub fn new(alloc: Global, accepts: AcceptedProtocols) -> Authenticator
        ensures accepts { result.accepts ≡ accepts }
        ensures fresh { result.auth_phase ≡ before }
    {
        Authenticator {
            alloc,
            accepts,
            state: AuthState::Fresh,
        }
    }

    /// Takes the next piece, and returns what the session says of it. With a lock, only frames that were sealed for it are heard;
    /// without one, only frames that aren't sealed. If a sealed connection is greeted with this piece, its frames have to answer
    /// this challenge, which is then sent.
    pub fn feed(
        &mut self,
        session: &mut Session,
        lock: Option<Lock<'_>>,
        challenge: [u8; CHALLENGE],
        piece: &[u8],
    ) -> Heard
        // PROMISE: With a secret, frames reach a session only if they were sealed by their sender for this member and for the challenge of this connection, each once and in order.
        ensures passes { Passes self.old.accepts lock.entry challenge self.old.auth_phase session.old piece.now (told_by result) self.new.auth_phase session.new }
        ensures accepts { self.new.accepts ≡ self.old.accepts }
    {
        let state = mem::replace(&mut self.state, AuthState::Closed);
        let (heard, next) = self.next_of(state, session, lock, challenge, piece);
        self.state = next;
        heard
    }

    /// Returns what the next piece says in this state of the connection, and the next state.
    fn next_of(
        &self,
        state: AuthState,
        session: &mut Session,
        lock: Option<Lock<'_>>,
        challenge: [u8; CHALLENGE],
        piece: &[u8],
    ) -> (Heard, AuthState)
        ensures { Passes self.now.accepts lock.entry challenge (phase_of state) session.old piece.now (told_by result.0) (phase_of result.1) session.new }
    {
        match (state, lock) {
            (AuthState::Fresh, _) => self.begin(session, lock, challenge, piece),
            (AuthState::Open, _) => pass_on(session, piece),
            (AuthState::Greeting(bytes), Some(lock)) => {
                greet_on(self.alloc, session, lock, challenge, bytes, piece)
            }
            (AuthState::Sealed(sealing), Some(lock)) => {
                unseal(self.alloc, session, lock, sealing, piece)
            }
            _ => wait(self.alloc, AuthState::Closed),
        }
    }

    /// Returns what the first piece says, and the next state.
    fn begin(
        &self,
        session: &mut Session,
        lock: Option<Lock<'_>>,
        challenge: [u8; CHALLENGE],
        piece: &[u8],
    ) -> (Heard, AuthState)
        ensures { Passes self.now.accepts lock.entry challenge before session.old piece.now (told_by result.0) (phase_of result.1) session.new }
    {
        let alloc = self.alloc;
        match piece.split_first() {
            None => wait(alloc, AuthState::Fresh),
            Some((first, _)) if *first >= LEAST_OF_REQUESTS => match self.accepts {
                AcceptedProtocols::Frames => turn_back(alloc, session, AuthFault::Requests),
                _ => pass_on(session, piece),
            },
            Some((first, behind)) => match (self.accepts, lock) {
                (AcceptedProtocols::Requests, _) => turn_back(alloc, session, AuthFault::Frames),
                (_, None) => pass_on(session, piece),
                (_, Some(lock)) if *first == SEALED => {
                    greet_on(alloc, session, lock, challenge, Vec::new(alloc), behind)
                }
                _ => turn_back(alloc, session, AuthFault::Unsealed),
            },
        }
    }

    /// Ends the input.
    pub fn end(&mut self, session: &mut Session) -> Heard
        ensures said { SaysEnd session.old (spoken result.said) }
        ensures over { session.new ≡ over (name_of session.old) }
        ensures cut { result.fault ≡ cut_at (waiting_at self.old.auth_phase) }
        ensures unchanged { self.new ≡ self.old }
    {
        let fault = if self.waiting() > 0 {
            Some(AuthFault::Cut)
        } else {
            None
        };
        Heard {
            said: session.end(),
            fault,
        }
    }

    /// Returns the number of bytes that wait here for the rest of their greeting or frame.
    pub fn waiting(&self) -> usize
        ensures { result ≡ length (waiting_at self.now.auth_phase) }
    {
        match &self.state {
            AuthState::Fresh | AuthState::Open | AuthState::Closed => 0,
            AuthState::Greeting(bytes) => bytes.len(),
            AuthState::Sealed(sealing) => sealing.waiting.len(),
        }
    }

    /// Returns the bytes of the challenge that are still to be written.
    pub fn output(&self) -> &[u8]
        ensures { result.now ≡ challenge_left self.now.auth_phase }
    {
        match &self.state {
            AuthState::Sealed(sealing) => sealing.left(),
            AuthState::Fresh | AuthState::Open | AuthState::Greeting(_) | AuthState::Closed => &[],
        }
    }

    /// Records that `count` more bytes of the challenge were sent.
    pub fn sent(&mut self, count: usize)
        requires within { count ≤ length (challenge_left self.old.auth_phase) }
        ensures auth_phase { self.new.auth_phase ≡ challenge_sent count self.old.auth_phase }
        ensures accepts { self.new.accepts ≡ self.old.accepts }
    {
        if let AuthState::Sealed(sealing) = &mut self.state {
            sealing.sent(count);
        }
    }
}
