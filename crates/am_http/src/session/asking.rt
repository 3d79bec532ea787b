//! The bytes of a request.

ghost use Rattle.std.specs.Prelude.{◌≡◌, ◌⊎◌, ◌<◌, ◌++◌, length};
ghost use Rattle.am_http.specs.Requests.{IsUnfinished};
ghost use Rattle.am_http.specs.Sessions.{Asks, IsCutShort, LacksToAsk, spoken};
ghost use Rattle.am_http.specs.States.{IsSound, phase_in};

use crate::cause::Cause;
use crate::request::{Read, read_request};
use crate::session::output::SessionOutput;
use crate::session::state::SessionState;
use std::alloc::Global;

/// Returns what the bytes of a request so far say.
fn ask(alloc: Global, bytes: Vec<u8>) -> (SessionOutput, SessionState)
    requires { 0 < length bytes.items }
    ensures says { Asks bytes.items (spoken result.0) (phase_in result.1) }
    ensures sound { IsSound result.1 }
{
    match read_request(alloc, &bytes, false) {
        Read::More => (SessionOutput::nothing(alloc), SessionState::Asking(bytes)),
        read => (SessionOutput::asked(alloc, read), SessionState::Over(None)),
    }
}

/// Returns what a piece says that follows the bytes of a request so far.
pub fn ask_on(alloc: Global, bytes: Vec<u8>, piece: &[u8]) -> (SessionOutput, SessionState)
    requires { 0 < length (bytes.items ++ piece.now) }
    ensures says { Asks (bytes.items ++ piece.now) (spoken result.0) (phase_in result.1)
        ⊎ LacksToAsk (spoken result.0) (phase_in result.1) }
    ensures sound { IsSound result.1 }
{
    let mut bytes = bytes;
    match bytes.extend_from_slice(piece) {
        Ok(()) => ask(alloc, bytes),
        Err(_) => (SessionOutput::turned_away(alloc), SessionState::Over(None)),
    }
}

/// Returns the refusal of a request whose input ended after these bytes.
pub fn cut_short(alloc: Global, bytes: &[u8]) -> SessionOutput
    requires some { 0 < length bytes.now }
    requires open { IsUnfinished bytes.now }
    ensures { IsCutShort bytes.now (spoken result) }
{
    SessionOutput::asked(alloc, Read::Refused(Cause::EndedEarly.refusal()))
}
