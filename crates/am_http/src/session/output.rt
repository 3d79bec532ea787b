//! The output for a piece of a connection.

ghost use Rattle.std.specs.Prelude.{◌≡◌, [], None, Some};
ghost use Rattle.am_http.specs.Sessions.{IsTurnedAway, asked, heard, nothing, spoken};
ghost use Rattle.am_http.specs.declared.session.fault.SessionFault.TheVariants.{Frame as InFrame};

use crate::cause::Cause;
use crate::request::Read;
use crate::session::fault::SessionFault;
use am_gossip::{Frame, FrameError};
use std::alloc::Global;

/// The output for a piece of a connection.
#[derive(Drop)]
pub struct SessionOutput {
    /// The frames that end in the piece, in order.
    pub frames: Vec<Frame>,
    /// The request that ends in the piece, or its refusal; never [`Read::More`].
    pub request: Option<Read>,
    /// The reason why no frame is heard after these.
    pub fault: Option<SessionFault>,
}

impl SessionOutput {
    /// Returns an output that says nothing. It takes no memory.
    pub fn nothing(alloc: Global) -> SessionOutput
        ensures { spoken result ≡ nothing }
    {
        SessionOutput::heard(Vec::new(alloc), None)
    }

    /// Returns these frames, with the reason why there are no more.
    pub fn heard(frames: Vec<Frame>, fault: Option<SessionFault>) -> SessionOutput
        ensures { spoken result ≡ heard frames.items fault }
    {
        SessionOutput {
            frames,
            request: None,
            fault,
        }
    }

    /// Returns an output without frames, for this fault. It takes no memory.
    pub fn failed(alloc: Global, fault: FrameError) -> SessionOutput
        ensures { spoken result ≡ heard [] (Some (InFrame fault)) }
    {
        SessionOutput::heard(Vec::new(alloc), Some(SessionFault::Frame(fault)))
    }

    /// Returns what was read of a request. It takes no memory.
    pub fn asked(alloc: Global, read: Read) -> SessionOutput
        ensures { spoken result ≡ asked read }
    {
        SessionOutput {
            frames: Vec::new(alloc),
            request: Some(read),
            fault: None,
        }
    }

    /// Returns the refusal of a request for which memory ran out. It takes no memory.
    pub fn turned_away(alloc: Global) -> SessionOutput
        ensures { IsTurnedAway (spoken result) }
    {
        SessionOutput::asked(alloc, Read::Refused(Cause::Memory.refusal()))
    }
}
