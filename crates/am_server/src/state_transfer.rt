//! The transfer of everything held to a peer.

ghost use Rattle.std.specs.Prelude.{◌≡◌};
ghost use Rattle.am_server.specs.Transfers.{behind_part, left_in, no_transfer, part_frame, wants_link, with_all_left, with_none_left, with_wanted};

use am_gossip::{Frame, FullState};
use am_instance::Handout;
use std::mem;

/// The progress of handing a peer everything that is held.
#[derive(Drop)]
enum TransferStage {
    /// Nothing is to be handed to the peer.
    Nothing,
    /// Everything is to be handed to the peer, over a link that hasn't been asked for yet.
    Waiting,
    /// This handout is left, for the link to the peer once everything else went out.
    Open(Handout),
}

/// The direction in which state goes between a member and a peer.
#[derive(Clone, Copy)]
pub enum TransferKind {
    /// The peer is handed everything that is held.
    Send,
    /// The peer is handed everything that is held, and asked for as much.
    Exchange,
}

/// The transfer to a peer: everything that is held once, however often that is wanted meanwhile.
#[derive(Drop)]
pub struct StateTransfer {
    stage: TransferStage,
    /// True if the peer is asked for as much: then the last part is a Push.
    asks: bool,
}

impl StateTransfer {
    /// Returns a transfer with nothing to hand out.
    pub fn none() -> StateTransfer
        ensures { result ≡ no_transfer }
    {
        StateTransfer {
            stage: TransferStage::Nothing,
            asks: false,
        }
    }

    /// Has everything that is held handed out.
    pub fn want(&mut self, kind: TransferKind)
        ensures { self.new ≡ with_wanted kind self.old }
    {
        self.asks |= matches!(kind, TransferKind::Exchange);
        if matches!(self.stage, TransferStage::Nothing) {
            self.stage = TransferStage::Waiting;
        }
    }

    /// Returns whether a link is to be asked for.
    pub fn waits(&self) -> bool
        ensures { result ≡ wants_link self.now }
    {
        matches!(self.stage, TransferStage::Waiting)
    }

    /// Notes that a link to the peer is asked for: everything is left.
    pub fn open(&mut self)
        ensures { self.new ≡ with_all_left self.old }
    {
        self.stage = TransferStage::Open(Handout::new());
    }

    /// Takes out what is left, which the caller hands out.
    pub fn take_left(&mut self) -> Option<Handout>
        ensures left { result ≡ left_in self.old }
        ensures taken { self.new ≡ with_none_left self.old }
    {
        match mem::replace(&mut self.stage, TransferStage::Nothing) {
            TransferStage::Open(left) => Some(left),
            TransferStage::Nothing | TransferStage::Waiting => None,
        }
    }

    /// Returns the frame of a part, after which `left` remains.
    pub fn frame_of(&mut self, part: FullState, left: Option<Handout>) -> Frame
        // PROMISE: Of all that a peer is handed, only the last part asks it for as much, and only if that is wanted.
        ensures frame { result ≡ part_frame self.old part left }
        ensures goes_on { self.new ≡ behind_part self.old left }
    {
        if let Some(left) = left {
            self.stage = TransferStage::Open(left);
            return Frame::Pull(part);
        }
        if mem::replace(&mut self.asks, false) {
            Frame::Push(part)
        } else {
            Frame::Pull(part)
        }
    }
}
