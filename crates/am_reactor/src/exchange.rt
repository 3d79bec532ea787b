//! A connection over which a peer is asked and answers.

ghost use Rattle.std.specs.Prelude.{◌≡◌, ◌<◌, ◌≤◌, [], length, Ok, IfOk, OnErr, OnOk};
ghost use Rattle.am_reactor.specs.Exchanges.{Fails, GoesOn, IsBegun};
ghost use Rattle.am_reactor.specs.Streams.{HasEnded, arrived_over, gone_over};

use crate::connection::Readiness;
use crate::fault::LinkFault;
use crate::inbox::hear_on;
use crate::link::stands;
use crate::noted_stream::NotedStream;
use crate::send_buffer::{Progress, SendBuffer};
use crate::stream::Stream;
use mio::net::TcpStream;
use std::alloc::Global;
use std::net::{Net, SocketAddr};
use std::time::Instant;

/// A connection to a peer, the question that goes over it, and the bytes that came back.
pub struct Exchange<C> {
    pub stream: C,
    buffer: SendBuffer,
    answer: Vec<u8>,
    /// The end of the exchange's time.
    pub end: Instant,
    is_connected: bool,
}

// (so that its owners cite one drop, and don't prove those of all that is inside)
impl<C: Drop> Drop for Exchange<C> {
    fn drop(self) {
        let Exchange {
            stream: _,
            buffer: _,
            answer: _,
            end: _,
            is_connected: _,
        } = self;
    }
}

impl Exchange<NotedStream> {
    /// Begins to connect to an address, to send it a question.
    ///
    /// # Errors
    ///
    /// [`LinkFault::Memory`] and [`LinkFault::Connect`].
    pub fn open<R: Net>(
        alloc: Global,
        rt: &R,
        address: SocketAddr,
        request: &[u8],
        end: Instant,
    ) -> Result<Exchange<NotedStream>, LinkFault>
        ensures { IfOk result (λ exchange. IsBegun arrived_over gone_over exchange request.now) }
    {
        let buffer = SendBuffer::new(alloc, &[], request)?;
        match TcpStream::connect(rt, address) {
            Ok(socket) => Ok(Exchange {
                stream: NotedStream::new(socket),
                buffer,
                answer: Vec::new(alloc),
                end,
                is_connected: false,
            }),
            Err(error) => Err(LinkFault::Connect(error.kind())),
        }
    }
}

impl<C: Stream + Drop> Exchange<C> {
    /// Returns whether the connection stands.
    ///
    /// # Errors
    ///
    /// [`LinkFault::Connect`] if it was refused.
    fn connected(&mut self) -> Result<bool, LinkFault>
        ensures buffer { self.new.buffer ≡ self.old.buffer }
        ensures answer { self.new.answer ≡ self.old.answer }
        ensures stream { self.new.stream ≡ self.old.stream }
    {
        self.is_connected = stands(&self.stream, self.is_connected)?;
        Ok(self.is_connected)
    }

    /// Writes the rest of the question; once all of it is written, reads what comes back, which has at most `most` bytes. The
    /// exchange is done once the peer has ended its stream.
    ///
    /// # Errors
    ///
    /// [`LinkFault::Connect`], [`LinkFault::Write`], [`LinkFault::Read`], [`LinkFault::TooLong`] and [`LinkFault::Memory`].
    pub fn advance(&mut self, piece: &mut [u8], most: usize) -> Result<Progress, LinkFault>
        ensures went { OnOk result (GoesOn C.arrived C.gone self.old self.new) }
        ensures failed { OnErr result (Fails C.arrived C.gone self.old self.new) }
        ensures done { result ≡ Ok Progress.Done → self.new.buffer.waiting ≡ [] }
        ensures ended { result ≡ Ok Progress.Done → 0 < length piece.old → HasEnded (C.arrived self.new.stream) }
        ensures within { length self.old.answer.items ≤ most → length self.new.answer.items ≤ most }
    {
        if !self.connected()? {
            return Ok(Progress::Going(Readiness::Idle));
        }
        match self.buffer.send_on(&mut self.stream)? {
            Progress::Done => hear_on(&mut self.answer, &mut self.stream, piece, most),
            going => Ok(going),
        }
    }

    /// Returns the number of bytes that went out.
    pub fn written(&self) -> u64
        ensures { result ≡ length self.now.buffer.gone }
    {
        self.buffer.written() as u64
    }

    /// Returns the bytes that came back.
    pub fn into_answer(self) -> Vec<u8>
        ensures { result ≡ self.answer }
    {
        let Exchange {
            stream: _,
            buffer: _,
            answer,
            end: _,
            is_connected: _,
        } = self;
        answer
    }
}
