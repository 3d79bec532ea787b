//! The exchanges with the peers.

ghost use Rattle.std.specs.Prelude.{◌≡◌, [], ℕ, List, None, false, length, IfOk, IfSome, IsTrue, Ok, OnErr, OnOk};
ghost use Rattle.std.specs.Option.{IsSome};
ghost use Rattle.am_reactor.specs.Exchanges.{Fails, Goes, GoesOn, HasNoExchange, IsAsked, IsAskedOf, IsBegun, IsDriven, IsEnded, IsTimedOut, KeepsExchanges, OneByOne, exchange_with};
ghost use Rattle.am_reactor.specs.Streams.{arrived_over, gone_over};

use crate::connection::Readiness;
use crate::exchange::Exchange;
use crate::fault::LinkFault;
use crate::noted_stream::NotedStream;
use crate::peers::{address_of, vacant};
use crate::queues::PeerQueues;
use crate::send_buffer::Progress;
use crate::service::{PeerBytes, Service};
use crate::source::EventSource;
use crate::stream::Stream;
use mio::{Interest, Registry};
use std::alloc::{AllocError, Global};
use std::mem;
use std::net::{Net, SocketAddr};
use std::time::Instant;

/// The exchanges with the peers, one at a time with each.
pub struct Exchanges<C> {
    alloc: Global,
    /// The address at which each peer is asked, if there is one.
    addresses: Vec<Option<SocketAddr>>,
    open: Vec<Option<Exchange<C>>>,
    /// The maximum number of bytes that come back over one exchange.
    most: usize,
    /// The peers with which an exchange is open.
    queues: PeerQueues,
}

// (so that a loop cites one drop, and doesn't prove those of all that is inside)
impl<C: Drop> Drop for Exchanges<C> {
    fn drop(self) {
        let Exchanges {
            alloc: _,
            addresses: _,
            open: _,
            most: _,
            queues: _,
        } = self;
    }
}

impl<C: Stream + Drop> Exchanges<C> {
    /// Returns a table without exchanges, for peers at these addresses.
    pub fn new(
        alloc: Global,
        addresses: &[Option<SocketAddr>],
        most: usize,
    ) -> Result<Exchanges<C>, AllocError>
        ensures addresses { IfOk result (λ exchanges. exchanges.addresses.items ≡ addresses.now) }
        ensures most { IfOk result (λ exchanges. exchanges.most ≡ most) }
        ensures none { IfOk result HasNoExchange }
    {
        let Ok(count) = u16::try_from(addresses.len()) else {
            return Err(AllocError);
        };
        Ok(Exchanges {
            alloc,
            addresses: Vec::from_slice(alloc, addresses)?,
            open: vacant(alloc, addresses.len())?,
            most,
            queues: PeerQueues::new(alloc, count)?,
        })
    }

    /// Returns whether no exchange is under way.
    pub fn is_empty(&self) -> bool {
        self.queues.by_end.is_empty()
    }

    /// Returns whether there is more to do at once.
    pub fn is_busy(&self) -> bool {
        !self.queues.busy.is_empty()
    }

    /// Returns when the time of the next exchange is over.
    pub fn next_end(&self) -> Option<Instant> {
        let peer = self.queues.by_end.first()?;
        match self.open.get(peer) {
            Some(Some(exchange)) => Some(exchange.end),
            _ => None,
        }
    }

    /// Returns a peer whose exchange's time is over by now.
    fn overdue(&self, now: Instant) -> Option<usize> {
        match self.next_end() {
            Some(end) if end <= now => self.queues.by_end.first(),
            _ => None,
        }
    }

    /// Returns whether an exchange with a peer is under way.
    fn is_open(&self, peer: usize) -> bool
        ensures open { IsTrue result → IsSome (exchange_with self.now peer) }
        ensures none { result ≡ false → exchange_with self.now peer ≡ None }
    {
        match self.open.get(peer) {
            Some(Some(_)) => true,
            _ => false,
        }
    }

    /// Advances the exchange with a peer as far as it can go now.
    ///
    /// # Errors
    ///
    /// The fault with which the exchange ends.
    fn advance(&mut self, peer: usize, piece: &mut [u8]) -> Result<Progress, LinkFault>
        requires { IsSome (exchange_with self.old peer) }
        ensures open { IsSome (exchange_with self.new peer) }
        ensures went { OnOk result (Goes (GoesOn C.arrived C.gone) self.old self.new peer) }
        ensures failed { OnErr result (Goes (Fails C.arrived C.gone) self.old self.new peer) }
        ensures done { result ≡ Ok Progress.Done → IsAsked self.new peer }
        ensures ended { result ≡ Ok Progress.Done → IsEnded C.arrived (length piece.old) self.new peer }
        ensures others { KeepsExchanges peer self.old self.new }
    {
        let most = self.most;
        match &mut self.open[peer] {
            Some(exchange) => exchange.advance(piece, most),
            None => Ok(Progress::Going(Readiness::Idle)),
        }
    }

    /// Closes the exchange with a peer, and returns it.
    fn close(&mut self, peer: usize) -> Option<Exchange<C>>
        ensures given { result ≡ exchange_with self.old peer }
        ensures closed { exchange_with self.new peer ≡ None }
        ensures others { KeepsExchanges peer self.old self.new }
    {
        self.queues.remove_everywhere(peer);
        match self.open.get_mut(peer) {
            Some(open) => mem::replace(open, None),
            None => None,
        }
    }
}

impl Exchanges<NotedStream> {
    /// Begins an exchange with a peer, whose time is over at `end`.
    ///
    /// # Errors
    ///
    /// [`LinkFault::Full`] if an exchange with it is under way, which goes on; [`LinkFault::NoPeer`]; and the reason if the
    /// connection can't be made.
    fn begin<R: Net>(
        &mut self,
        rt: &R,
        registry: &Registry,
        asked: &PeerBytes,
        end: Instant,
    ) -> Result<(), LinkFault>
        ensures none { OnOk result (exchange_with self.old asked.now.peer ≡ None) }
        ensures open { OnOk result (IsSome (exchange_with self.new asked.now.peer)) }
        ensures begun { OnOk result (IfSome (exchange_with self.new asked.now.peer) (λ exchange. IsBegun arrived_over gone_over exchange asked.now.bytes.items)) }
        ensures kept { OnErr result (exchange_with self.new asked.now.peer ≡ exchange_with self.old asked.now.peer) }
        ensures others { KeepsExchanges asked.now.peer self.old self.new }
    {
        let peer = asked.peer;
        if self.is_open(peer) {
            return Err(LinkFault::Full);
        }
        let exchange = self.connect(rt, registry, peer, asked.bytes.as_slice(), end)?;
        let Some(open) = self.open.get_mut(peer) else {
            return Err(LinkFault::NoPeer);
        };
        *open = Some(exchange);
        self.queues.by_end.push(peer);
        self.queues.busy.push(peer);
        Ok(())
    }

    /// Begins to connect to a peer.
    fn connect<R: Net>(
        &self,
        rt: &R,
        registry: &Registry,
        peer: usize,
        request: &[u8],
        end: Instant,
    ) -> Result<Exchange<NotedStream>, LinkFault>
        ensures { IfOk result (λ exchange. IsBegun arrived_over gone_over exchange request.now) }
    {
        let Some((address, place)) = address_of(&self.addresses, peer) else {
            return Err(LinkFault::NoPeer);
        };
        let token = EventSource::Exchange(place).token();
        let mut exchange = Exchange::open(self.alloc, rt, address, request, end)?;
        match registry.register(
            &mut exchange.stream,
            token,
            Interest::READABLE | Interest::WRITABLE,
        ) {
            Ok(()) => Ok(exchange),
            Err(error) => Err(LinkFault::Connect(error.kind())),
        }
    }
}

/// Asks a peer, until its time is over at `end`, or tells the service why the question is lost.
pub fn ask<S: Service, R: Net>(
    exchanges: &mut Exchanges<NotedStream>,
    service: &mut S,
    rt: &R,
    registry: &Registry,
    asked: &PeerBytes,
    end: Instant,
)
    ensures others { KeepsExchanges asked.now.peer exchanges.old exchanges.new }
    ensures asked { IsAskedOf arrived_over gone_over S.loses asked.now.peer asked.now.bytes.items service.old exchanges.old service.new exchanges.new }
{
    if let Err(fault) = exchanges.begin(rt, registry, asked, end) {
        service.lost(asked.peer, fault);
    }
}

/// Tells the service of all that came back from a peer, and closes the exchange with it.
fn deliver_answer<S: Service, C: Stream + Drop>(
    exchanges: &mut Exchanges<C>,
    service: &mut S,
    peer: usize,
)
    requires open { IsSome (exchange_with exchanges.old peer) }
    requires asked { IsAsked exchanges.old peer }
    ensures told { IfSome (exchange_with exchanges.old peer) (λ exchange. S.answers service.old peer exchange.answer.items service.new) }
    ensures closed { exchange_with exchanges.new peer ≡ None }
    ensures others { KeepsExchanges peer exchanges.old exchanges.new }
{
    if let Some(exchange) = exchanges.close(peer) {
        service.answered(peer, exchange.into_answer());
    }
}

/// Closes the exchange with a peer, and tells the service why it is lost.
fn lose<S: Service, C: Stream + Drop>(
    exchanges: &mut Exchanges<C>,
    service: &mut S,
    peer: usize,
    fault: LinkFault,
)
    ensures closed { exchange_with exchanges.new peer ≡ None }
    ensures others { KeepsExchanges peer exchanges.old exchanges.new }
    ensures lost { S.loses service.old peer fault service.new }
{
    let _ = exchanges.close(peer);
    service.lost(peer, fault);
}

/// Advances the exchange with a peer as far as it can go now. Tells the service what came back, once all of it has, or why the
/// exchange is lost, if it fails.
pub fn drive_exchange<S: Service, C: Stream + Drop>(
    exchanges: &mut Exchanges<C>,
    service: &mut S,
    peer: usize,
    piece: &mut [u8],
)
    ensures others { KeepsExchanges peer exchanges.old exchanges.new }
    // PROMISE: What a peer answered is told once, whole, once all was asked of it; or it is told that it is lost.
    ensures heard { IsDriven C.arrived C.gone S.answers S.loses (length piece.old) peer service.old exchanges.old service.new exchanges.new }
{
    if !exchanges.is_open(peer) {
        return;
    }
    match exchanges.advance(peer, piece) {
        Ok(Progress::Going(Readiness::Idle)) => {}
        Ok(Progress::Going(Readiness::Busy)) => exchanges.queues.busy.push(peer),
        Ok(Progress::Done) => deliver_answer(exchanges, service, peer),
        Err(fault) => lose(exchanges, service, peer, fault),
    }
}

/// Advances the exchanges for which there is more to do at once.
pub fn hear_all<S: Service, C: Stream + Drop>(
    exchanges: &mut Exchanges<C>,
    service: &mut S,
    piece: &mut [u8],
)
    ensures { (peers : List ℕ) × OneByOne (IsDriven C.arrived C.gone S.answers S.loses (length piece.old)) peers
        service.old exchanges.old service.new exchanges.new }
{
    for _ in 0..exchanges.queues.busy.len() {
        match exchanges.queues.busy.pop() {
            Some(peer) => drive_exchange(exchanges, service, peer, piece),
            None => break,
        }
    }
}

/// Closes the exchange with a peer whose time is over.
fn time_out_exchange<S: Service, C: Stream + Drop>(
    exchanges: &mut Exchanges<C>,
    service: &mut S,
    peer: usize,
)
    ensures others { KeepsExchanges peer exchanges.old exchanges.new }
    ensures told { IsTimedOut S.loses peer service.old exchanges.old service.new exchanges.new }
{
    if let Some(exchange) = exchanges.close(peer) {
        let written = exchange.written();
        service.lost(peer, LinkFault::Time { written });
    }
}

/// Closes the exchanges whose time is over by now.
pub fn expire<S: Service, C: Stream + Drop>(
    exchanges: &mut Exchanges<C>,
    service: &mut S,
    now: Instant,
)
    ensures { (peers : List ℕ) × OneByOne (IsTimedOut S.loses) peers service.old exchanges.old service.new exchanges.new }
{
    for _ in 0..u16::MAX {
        match exchanges.overdue(now) {
            Some(peer) => time_out_exchange(exchanges, service, peer),
            None => break,
        }
    }
}

/// Closes every exchange.
pub fn give_up_all<S: Service, C: Stream + Drop>(exchanges: &mut Exchanges<C>, service: &mut S)
    ensures { (peers : List ℕ) × OneByOne (IsTimedOut S.loses) peers service.old exchanges.old service.new exchanges.new }
{
    for _ in 0..u16::MAX {
        match exchanges.queues.by_end.first() {
            Some(peer) => time_out_exchange(exchanges, service, peer),
            None => break,
        }
    }
}
