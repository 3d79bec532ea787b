//! A sealed connection: a greeting, the challenge that is sent back, and sealed frames that answer it.

ghost use Rattle.std.specs.Prelude.{◌≡◌, ◌++◌, IfSome};
ghost use Rattle.am_peer_auth.specs.Authenticators.{Greets, IsFailed, IsGreeted, IsKept, Unseals, greeting, told_by, phase_of};

use crate::fault::AuthFault;
use crate::opening::{Opened, Waiting, open_piece};
use crate::passing::{AuthState, Heard, Sealing, turn_back, wait};
use crate::seal::{Lock, Origin};
use crate::sequence::{CHALLENGE, Sequence};
use am_gossip::{FrameError, read_hello};
use am_http::session::{Session, SessionOutput};
use std::alloc::Global;

/// Returns the opened frames. If one behind them wasn't accepted, nothing more is heard; otherwise `waiting` waits, and `out`
/// bytes of the challenge were sent.
fn keep(session: &mut Session, opened: Opened, out: usize, waiting: Waiting) -> (Heard, AuthState)
    ensures { IsKept opened.frames.items opened.fault opened.next out waiting session.old (told_by result.0) (phase_of result.1) session.new }
{
    let Opened {
        frames,
        fault,
        next,
    } = opened;
    let said = SessionOutput::heard(frames, None);
    match fault {
        None => {
            let sealing = Sealing {
                place: next,
                out,
                waiting,
            };
            (Heard { said, fault: None }, AuthState::Sealed(sealing))
        }
        Some(error) => {
            session.stop();
            let fault = Some(AuthFault::Seal(error));
            (Heard { said, fault }, AuthState::Closed)
        }
    }
}

/// Returns the frames with right sums that end in a piece, from the peer that greeted.
pub fn unseal(
    alloc: Global,
    session: &mut Session,
    lock: Lock<'_>,
    sealing: Sealing,
    piece: &[u8],
) -> (Heard, AuthState)
    ensures { Unseals lock.entry sealing.place sealing.out session.old (sealing.waiting ++ piece.now) (told_by result.0) (phase_of result.1) session.new }
{
    let Sealing {
        place,
        out,
        waiting,
    } = sealing;
    let mut waiting = waiting;
    let Some(sender) = session.name() else {
        return turn_back(alloc, session, AuthFault::Unsealed);
    };
    let origin = Origin {
        lock,
        sender,
        place,
    };
    let opened = open_piece(alloc, origin, &mut waiting, piece);
    keep(session, opened, out, waiting)
}

/// Returns what a greeting says, and the sealed frames of this origin behind it.
fn greeted(
    alloc: Global,
    session: &mut Session,
    origin: Origin<'_>,
    greeting: &[u8],
    behind: &[u8],
) -> (Heard, AuthState)
    ensures { IsGreeted origin.entry.lock origin.entry.sender.now origin.entry.place session.old greeting.now behind.now (told_by result.0) (phase_of result.1) session.new }
{
    let said = session.feed(greeting);
    if said.fault.is_some() {
        return (Heard { said, fault: None }, AuthState::Closed);
    }
    let mut waiting = Waiting::new(alloc);
    let opened = open_piece(alloc, origin, &mut waiting, behind);
    keep(session, opened, 0, waiting)
}

/// Returns the state in which the bytes of a greeting that isn't whole wait.
fn wait_on(alloc: Global, bytes: &[u8]) -> Option<AuthState>
    ensures { IfSome result (λ state. phase_of state ≡ greeting bytes.now) }
{
    match bytes.to_vec(alloc) {
        Ok(bytes) => Some(AuthState::Greeting(bytes)),
        Err(_) => None,
    }
}

/// Returns what the bytes behind the first byte of a sealed connection so far say.
fn greet(
    alloc: Global,
    session: &mut Session,
    lock: Lock<'_>,
    challenge: [u8; CHALLENGE],
    bytes: &[u8],
) -> (Heard, AuthState)
    ensures { Greets lock.entry challenge session.old bytes.now (told_by result.0) (phase_of result.1) session.new }
{
    match read_hello(bytes) {
        Ok(Some((name, len))) => {
            let (greeting, behind) = bytes.split_at(len);
            let origin = Origin {
                lock,
                sender: name,
                place: Sequence::new(challenge),
            };
            greeted(alloc, session, origin, greeting, behind)
        }
        Ok(None) => match wait_on(alloc, bytes) {
            Some(state) => wait(alloc, state),
            None => fail(alloc, session, FrameError::Memory),
        },
        Err(error) => fail(alloc, session, error),
    }
}

/// Stops the session because its greeting is at fault.
fn fail(alloc: Global, session: &mut Session, error: FrameError) -> (Heard, AuthState)
    ensures { IsFailed error session.old (told_by result.0) (phase_of result.1) session.new }
{
    session.stop();
    let heard = Heard {
        said: SessionOutput::failed(alloc, error),
        fault: None,
    };
    (heard, AuthState::Closed)
}

/// Returns what a piece says that follows the bytes of a sealed greeting so far.
pub fn greet_on(
    alloc: Global,
    session: &mut Session,
    lock: Lock<'_>,
    challenge: [u8; CHALLENGE],
    bytes: Vec<u8>,
    piece: &[u8],
) -> (Heard, AuthState)
    ensures { Greets lock.entry challenge session.old (bytes.items ++ piece.now) (told_by result.0) (phase_of result.1) session.new }
{
    let mut bytes = bytes;
    match bytes.extend_from_slice(piece) {
        Ok(()) => greet(alloc, session, lock, challenge, &bytes),
        Err(_) => fail(alloc, session, FrameError::Memory),
    }
}
