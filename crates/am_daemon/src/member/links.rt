//! The addresses at which peers listen, and the state that a member hands to them: part by part, each made after the one before
//! it went out.

ghost use Rattle.std.specs.Prelude.{◌≡◌, ◌∷◌, IfSome, MatchOption, None, Some, [], true, slice_get, slice_index_or};
ghost use Rattle.std.specs.Option.{option_map};
ghost use Rattle.am_gossip.specs.declared.frame.Frame.{Frame};
ghost use Rattle.am_daemon.specs.Offers.{AreGiven, AreKeptBack, AreLost, AreNext, GivesPart, IsGiven, IsNextPart, IsPutBy, OpensLink, for_peers, nothing_put_by, put_by_for, with_put_by};

use super::pending_frames::Dropped;
use super::server_state::ServerState;
use am_backend::Backend;
use am_diagnostics::Fault;
use am_gossip::Frame;
use am_instance::{Config, HandedPart, Instance, Place};
use am_reactor::{LinkFault, PeerBytes};
use am_server::{StateTransfer, TransferKind};
use std::alloc::Global;
use std::net::SocketAddr;

/// The maximum number of bytes of a part, unless a single version has more.
const MOST_OF_PART: usize = 1_048_576;

/// Returns the address at a place.
pub fn address_of(addresses: &[Option<SocketAddr>], place: usize) -> Option<SocketAddr>
    ensures { result ≡ slice_index_or addresses.now place None }
{
    addresses.get(place).copied()?
}

/// Plans a transfer of all that is held to a peer.
pub fn plan_transfer(transfers: &mut [StateTransfer], peer: usize, kind: TransferKind) {
    if let Some(transfer) = transfers.get_mut(peer) {
        transfer.want(kind);
    }
}

/// Plans to ask each peer that has an address for all that it has, and to hand it all that is held here.
pub fn plan_exchanges(transfers: &mut [StateTransfer], addresses: &[Option<SocketAddr>]) {
    for peer in 0..addresses.len() {
        if address_of(addresses, peer).is_some() {
            plan_transfer(transfers, peer, TransferKind::Exchange);
        }
    }
}

/// Plans to hand a peer nothing more.
pub fn hand_nothing(transfers: &mut [StateTransfer], peer: usize) {
    if let Some(transfer) = transfers.get_mut(peer) {
        *transfer = StateTransfer::none();
    }
}

/// Returns a link to a peer, over which nothing but the greeting goes out yet.
pub fn link_to(alloc: Global, peer: usize) -> PeerBytes
    ensures peer { result.peer ≡ peer }
    ensures bytes { result.bytes.items ≡ [] }
{
    let bytes = Vec::new(alloc);
    PeerBytes { peer, bytes }
}

/// Returns the next part for a peer, as a frame.
fn part_for<U: Backend>(
    backend: &mut U,
    transfer: &mut StateTransfer,
    instance: &Instance,
    peer: usize,
) -> Option<Frame>
    ensures part { IfSome result (λ frame. IsNextPart instance.now (Some transfer.old) frame (Some transfer.new)) }
    ensures outbound { U.outbound backend.new ≡ U.outbound backend.old }
    ensures lock { U.sealed_by backend.new ≡ U.sealed_by backend.old }
{
    let left = transfer.take_left()?;
    match instance.hand_out(left, MOST_OF_PART) {
        Ok(part) => {
            let HandedPart { state, next } = part;
            Some(transfer.frame_of(state, next))
        }
        Err(_) => {
            let place = Some(peer as Place);
            backend.tell_of(instance.config(), place, Fault::UnsentMemory(1));
            None
        }
    }
}

impl<U: Backend> ServerState<'_, U> {
    /// Opens a link to the first peer that is to be handed all that is held, now that no frames wait.
    pub(super) fn open_link(&mut self) -> Option<PeerBytes>
        requires { (U.outbound self.old.backend).frames ≡ [] }
        ensures { let was = for_peers U.outbound U.sealed_by self.old in let is = for_peers U.outbound U.sealed_by self.new in
            MatchOption result (is ≡ was) (λ it. OpensLink it.peer it.bytes.items was is) }
    {
        let peer = self.transfers.iter().position(|transfer| transfer.waits())?;
        self.transfers.get_mut(peer)?.open();
        self.note_link(peer);
        Some(link_to(self.alloc, peer))
    }

    /// Notes that a link to a peer is asked for.
    fn note_link(&mut self, peer: usize)
        ensures { let was = for_peers U.outbound U.sealed_by self.old in
            for_peers U.outbound U.sealed_by self.new ≡ with_put_by peer (record (put_by_for was peer) { is_open = true }) was }
    {
        if let Some(pending) = self.pending_frames.get_mut(peer) {
            pending.open();
        }
    }

    /// Returns what is given for the frames of a peer: their bytes, or a link for which they are put by, if anything is.
    pub(super) fn give(
        &mut self,
        config: &Config,
        place: Place,
        frames: Vec<Frame>,
    ) -> Option<PeerBytes>
        ensures { MatchOption result (AreKeptBack (U.sealed_by self.old.backend) place frames.items (for_peers U.outbound U.sealed_by self.old) (for_peers U.outbound U.sealed_by self.new))
            (λ it. (it.peer ≡ place) × AreGiven (U.sealed_by self.old.backend) place frames.items it.bytes.items (for_peers U.outbound U.sealed_by self.old) (for_peers U.outbound U.sealed_by self.new)) }
    {
        let peer = place as usize;
        if self.backend.is_sealed() {
            if self.put_by(config, peer, frames) {
                return Some(link_to(self.alloc, peer));
            }
            return None;
        }
        let bytes = self.backend.encoding_of(config, place, None, &frames)?;
        Some(PeerBytes { peer, bytes })
    }

    /// Keeps frames for a peer until they are sealed, or reports why they are dropped. Returns whether a link is to be opened.
    fn put_by(&mut self, config: &Config, peer: usize, frames: Vec<Frame>) -> bool
        ensures { IsPutBy peer frames.items result (for_peers U.outbound U.sealed_by self.old) (for_peers U.outbound U.sealed_by self.new) }
    {
        let count = frames.len();
        let Some(pending) = self.pending_frames.get_mut(peer) else {
            return false;
        };
        match pending.add(frames) {
            Ok(opens) => opens,
            Err(dropped) => {
                self.drop_frames(config, peer, count, dropped);
                false
            }
        }
    }

    /// Counts frames for a peer that are dropped, as those of a lost link, and reports that, unless it was reported before.
    fn drop_frames(&mut self, config: &Config, peer: usize, count: usize, dropped: Dropped)
        ensures { for_peers U.outbound U.sealed_by self.new ≡ for_peers U.outbound U.sealed_by self.old }
    {
        let fault = match dropped {
            Dropped::Again | Dropped::Full => LinkFault::Full,
            Dropped::Memory => LinkFault::Memory,
        };
        self.backend.drop_frames(peer, count, fault);
        if dropped != Dropped::Again {
            let lost = Fault::Lost(fault, address_of(&self.addresses, peer));
            self.backend.tell_of(config, Some(peer as Place), lost);
        }
    }

    /// Returns the next part of all that is held, as the one frame that goes to a peer.
    fn next_part(&mut self, instance: &Instance, peer: usize) -> Option<Vec<Frame>>
        ensures part { IfSome result (λ frames. (part : Frame) × (frames.items ≡ part ∷ [])
            × IsNextPart instance.now (slice_get self.old.transfers.items peer) part (slice_get self.new.transfers.items peer)) }
        ensures same { for_peers U.outbound U.sealed_by self.new ≡ for_peers U.outbound U.sealed_by self.old }
    {
        let transfer = self.transfers.get_mut(peer)?;
        let part = part_for(&mut self.backend, transfer, instance, peer)?;
        let mut frames = Vec::new(self.alloc);
        if frames.push(part).is_err() {
            let place = Some(peer as Place);
            self.backend
                .tell_of(instance.config(), place, Fault::UnsentMemory(1));
            return None;
        }
        Some(frames)
    }

    /// Returns the frames that go to a peer next: these, which were put by, or, if there are none, a part of all that is held.
    fn or_part(
        &mut self,
        instance: &Instance,
        peer: usize,
        put_by: Vec<Frame>,
    ) -> Option<Vec<Frame>>
        ensures next { MatchOption result (put_by.items ≡ []) (λ frames. AreNext put_by.items frames.items) }
        ensures part { put_by.items ≡ [] → IfSome result (λ frames. (part : Frame) × (frames.items ≡ part ∷ [])
            × IsNextPart instance.now (slice_get self.old.transfers.items peer) part (slice_get self.new.transfers.items peer)) }
        ensures same { for_peers U.outbound U.sealed_by self.new ≡ for_peers U.outbound U.sealed_by self.old }
    {
        if put_by.is_empty() {
            self.next_part(instance, peer)
        } else {
            Some(put_by)
        }
    }

    /// Returns the bytes that go to a peer next over its link, which answered with `answer`: those of the frames that are put
    /// by, or of the next part of all that is held.
    fn encoding_behind(
        &mut self,
        instance: &Instance,
        peer: usize,
        answer: &[u8],
    ) -> Option<Vec<u8>>
        ensures given { let was = for_peers U.outbound U.sealed_by self.old in let is = for_peers U.outbound U.sealed_by self.new in
            MatchOption result ((is ≡ record (with_put_by peer (put_by_for is peer) was) { queue = is.queue }) × AreLost (put_by_for was peer).frames was.queue is.queue)
            (λ bytes. IsGiven instance.now.config peer answer.now (Some bytes.items) was is) }
        ensures part { GivesPart instance.now peer answer.now (option_map (λ bytes. bytes.items) result) (for_peers U.outbound U.sealed_by self.old)
            (slice_get self.old.transfers.items peer) (slice_get self.new.transfers.items peer) }
    {
        let pending = self.pending_frames.get_mut(peer)?;
        let from = pending.place(answer);
        let put_by = pending.take();
        let Some(frames) = self.or_part(instance, peer, put_by) else {
            return None;
        };
        self.backend
            .encoding_of(instance.config(), peer as Place, from, &frames)
    }

    /// Returns the bytes that go to a peer next over its link, which answered with `answer`. If there are none, the link is
    /// closed, and nothing more is handed to the peer.
    pub(super) fn next_encoding(
        &mut self,
        instance: &Instance,
        peer: usize,
        answer: &[u8],
    ) -> Option<Vec<u8>>
        ensures given { IsGiven instance.now.config peer answer.now (option_map (λ bytes. bytes.items) result) (for_peers U.outbound U.sealed_by self.old) (for_peers U.outbound U.sealed_by self.new) }
        ensures part { GivesPart instance.now peer answer.now (option_map (λ bytes. bytes.items) result) (for_peers U.outbound U.sealed_by self.old)
            (slice_get self.old.transfers.items peer) (slice_get self.new.transfers.items peer) }
    {
        match self.encoding_behind(instance, peer, answer) {
            Some(text) => Some(text),
            None => {
                hand_nothing(&mut self.transfers, peer);
                self.close_link(peer);
                None
            }
        }
    }

    /// Notes that the link to a peer is closed, drops the frames that are put by for it, and returns how many they were.
    pub(super) fn close_link(&mut self, peer: usize) -> usize
        ensures { for_peers U.outbound U.sealed_by self.new ≡ with_put_by peer nothing_put_by (for_peers U.outbound U.sealed_by self.old) }
    {
        match self.pending_frames.get_mut(peer) {
            Some(pending) => pending.close(),
            None => 0,
        }
    }
}
