//! One connection, from a person, a tool or a peer: what its bytes say as they come, piece by piece, without an instance, a clock
//! or a socket.

ghost use Rattle.std.specs.Prelude.{◌≡◌, ◌↔◌, IfOk, IsTrue, length};
ghost use Rattle.std.specs.Option.{option_copied};
ghost use Rattle.am_http.specs.Hosts.{texts};
ghost use Rattle.am_http.specs.Sessions.{Feeds, SaysEnd, Screens, fresh, name_of, over, spoken, waiting_in};

mod asking;
mod fault;
mod feeding;
mod greeting;
mod hearing;
pub mod laws;
mod output;
mod screening;
mod state;

use crate::hosts::Screened;
pub use fault::SessionFault;
use feeding::{end_of, next_of};
pub use output::SessionOutput;
use screening::screened;
use state::SessionState;
use std::alloc::{AllocError, Global};
use std::marker::Model;
use std::mem;

/// One connection, whose bytes come in pieces.
///
/// A connection whose first byte is below 0x20 begins with a peer's greeting, followed by frames; it has at most 134,217,728
/// bytes. Any other is a request. Contracts see how far it has come.
#[derive(Drop)]
pub struct Session {
    alloc: Global,
    state: SessionState,
}

impl Model for Session {
    ghost use Rattle.am_http.specs.Sessions.{SessionPhase};
    ghost use Rattle.am_http.specs.States.{IsSound, phase_in};

    ghost Value = { SessionPhase };

    ghost view = { λ s. phase_in s.state };

    ghost invariant = { λ s. IsSound s.state };
}

impl Session {
    /// Returns a session before its first byte. It takes no memory.
    pub fn new(alloc: Global) -> Self
        ensures { result ≡ fresh }
    {
        Session {
            alloc,
            state: SessionState::Fresh,
        }
    }

    /// Takes the next piece, and returns what it says.
    ///
    /// It makes no difference where the pieces are cut. If memory runs out, the output says so, and nothing more is heard.
    pub fn feed(&mut self, piece: &[u8]) -> SessionOutput
        // PROMISE: A piece of a connection says the frames or the request that end in it.
        ensures { Feeds self.old piece.now (spoken result) self.new }
    {
        let state = mem::replace(&mut self.state, SessionState::Over(None));
        let (said, next) = next_of(self.alloc, state, piece);
        self.state = next;
        said
    }

    /// Returns what is known, with the next piece, about where a request comes from, for a server that has these names too. A
    /// peer's greeting names no host.
    ///
    /// # Errors
    ///
    /// [`AllocError`] if memory runs out; a piece that has the whole head takes none.
    pub fn screen(&self, piece: &[u8], names: &[&str]) -> Result<Screened, AllocError>
        ensures { IfOk result (Screens self.now piece.now (texts names.now)) }
    {
        screened(self.alloc, &self.state, piece, names)
    }

    /// Returns the number of bytes that wait for the rest of their request, greeting or frame. It takes no memory.
    pub fn waiting(&self) -> usize
        ensures { result ≡ length (waiting_in self.now) }
    {
        self.state.waiting()
    }

    /// Ends the input: a request that isn't whole is refused, and nothing more is heard. It takes no memory.
    pub fn end(&mut self) -> SessionOutput
        ensures said { SaysEnd self.old (spoken result) }
        ensures over { self.new ≡ over (name_of self.old) }
    {
        let said = end_of(self.alloc, &self.state);
        self.stop();
        said
    }

    /// Stops the session: nothing more is heard.
    pub fn stop(&mut self)
        ensures { self.new ≡ over (name_of self.old) }
    {
        let state = mem::replace(&mut self.state, SessionState::Over(None));
        self.state = SessionState::Over(state.into_name());
    }

    /// Returns whether nothing more is heard.
    pub fn is_over(&self) -> bool
        ensures { IsTrue result ↔ (self.now ≡ over (name_of self.now)) }
    {
        matches!(self.state, SessionState::Over(_))
    }

    /// Returns the name in the greeting, if one came.
    pub fn name(&self) -> Option<&str>
        ensures { option_copied result ≡ name_of self.now }
    {
        self.state.name()
    }
}
