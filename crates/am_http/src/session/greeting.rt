//! The greeting at the beginning of a connection of frames.

ghost use Rattle.std.specs.Prelude.{◌≡◌, ◌⊎◌, ◌++◌, [], None, Ok};
ghost use Rattle.am_gossip.specs.Hellos.{hello_of};
ghost use Rattle.am_http.specs.Sessions.{Greets, Hears, LacksToGreet, spoken};
ghost use Rattle.am_http.specs.States.{IsSound, phase_in};

use crate::session::hearing::hear;
use crate::session::output::SessionOutput;
use crate::session::state::{Hearing, SessionState};
use am_gossip::{Feeder, FrameError, read_hello};
use std::alloc::Global;

/// Returns the output if there is no memory for a greeting.
fn unheard(alloc: Global) -> (SessionOutput, SessionState)
    ensures says { LacksToGreet (spoken result.0) (phase_in result.1) }
    ensures sound { IsSound result.1 }
{
    (
        SessionOutput::failed(alloc, FrameError::Memory),
        SessionState::Over(None),
    )
}

/// Returns what the bytes behind a greeting with this name and length say.
fn greeted(alloc: Global, name: &str, len: usize, piece: &[u8]) -> (SessionOutput, SessionState)
    ensures says { Hears name.now len [] piece.now (spoken result.0) (phase_in result.1)
        ⊎ LacksToGreet (spoken result.0) (phase_in result.1) }
    ensures sound { IsSound result.1 }
{
    let Ok(name) = String::from_str(alloc, name) else {
        return unheard(alloc);
    };
    let hearing = Hearing {
        name,
        count: len,
        feeder: Feeder::new(alloc),
    };
    hear(alloc, hearing, piece)
}

/// Keeps the bytes of a greeting that isn't whole.
fn wait(alloc: Global, bytes: &[u8]) -> (SessionOutput, SessionState)
    requires { hello_of bytes.now ≡ Ok None }
    ensures says { Greets bytes.now (spoken result.0) (phase_in result.1)
        ⊎ LacksToGreet (spoken result.0) (phase_in result.1) }
    ensures sound { IsSound result.1 }
{
    match bytes.to_vec(alloc) {
        Ok(bytes) => (SessionOutput::nothing(alloc), SessionState::Greeting(bytes)),
        Err(_) => unheard(alloc),
    }
}

/// Returns what all the bytes of a connection of frames so far say.
fn greet(alloc: Global, bytes: &[u8]) -> (SessionOutput, SessionState)
    ensures says { Greets bytes.now (spoken result.0) (phase_in result.1)
        ⊎ LacksToGreet (spoken result.0) (phase_in result.1) }
    ensures sound { IsSound result.1 }
{
    match read_hello(bytes) {
        Ok(Some((name, len))) => {
            let (_, behind) = bytes.split_at(len);
            greeted(alloc, name, len, behind)
        }
        Ok(None) => wait(alloc, bytes),
        Err(e) => (SessionOutput::failed(alloc, e), SessionState::Over(None)),
    }
}

/// Returns what a piece says that follows the bytes of a greeting so far. The piece is copied only if the greeting was cut.
pub fn greet_on(alloc: Global, bytes: Vec<u8>, piece: &[u8]) -> (SessionOutput, SessionState)
    ensures says { Greets (bytes.items ++ piece.now) (spoken result.0) (phase_in result.1)
        ⊎ LacksToGreet (spoken result.0) (phase_in result.1) }
    ensures sound { IsSound result.1 }
{
    if bytes.is_empty() {
        return greet(alloc, piece);
    }
    let mut bytes = bytes;
    match bytes.extend_from_slice(piece) {
        Ok(()) => greet(alloc, &bytes),
        Err(_) => unheard(alloc),
    }
}
