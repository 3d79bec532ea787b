//! Standard error, for which nobody waits.

use mio::unix::SourceFd;
use mio::{Events, Interest, Poll, Token};
use std::alloc::{AllocError, Global};
use std::net::Net;
use std::time::Duration;

/// The descriptor of standard error.
const DESCRIPTOR: i32 = 2;

/// The token of standard error, the only source.
const TOKEN: Token = Token(0);

/// Standard error, for lines that find room there at once.
#[derive(Drop)]
pub struct StandardError {
    /// The poll of a pipe, a socket or a terminal. The system tells nothing of a file, for which nobody waits either.
    poll: Option<Poll>,
    events: Events,
}

/// Returns the poll of standard error, if the system has one for it.
fn watched<R: Net>(rt: &R) -> Option<Poll> {
    let poll = Poll::new(rt).ok()?;
    let mut source = SourceFd(&DESCRIPTOR);
    let registered = poll
        .registry()
        .register(&mut source, TOKEN, Interest::WRITABLE);
    if registered.is_ok() { Some(poll) } else { None }
}

impl StandardError {
    /// Begins to watch standard error.
    ///
    /// # Errors
    ///
    /// [`AllocError`] if memory runs out.
    pub fn new<R: Net>(alloc: Global, rt: &R) -> Result<StandardError, AllocError> {
        Ok(StandardError {
            poll: watched(rt),
            events: Events::with_capacity(alloc, 1)?,
        })
    }

    /// Returns whether a line of at most 4,096 bytes finds room now, so that writing it waits for nobody. A reader that is gone
    /// makes room, too.
    pub fn has_room(&mut self) -> bool {
        let Some(poll) = &mut self.poll else {
            return true;
        };
        let mut source = SourceFd(&DESCRIPTOR);
        // (the system tells again what it told before)
        if poll
            .registry()
            .reregister(&mut source, TOKEN, Interest::WRITABLE)
            .is_err()
        {
            return true;
        }
        match poll.poll(&mut self.events, Some(Duration::ZERO)) {
            Ok(()) => !self.events.is_empty(),
            Err(_) => true,
        }
    }
}
