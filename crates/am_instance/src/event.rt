//! The events of an instance.

use am_gossip::{Frame, Place};
use am_matcher::{Filter, Labels};
use am_nflog::{Hashes, Receiver};
use am_silence::Posted;
use am_version_order::Interval;
use am_wire::{Bytes, Text};

/// A request of a person or a tool about the silences.
#[derive(Drop)]
pub enum Request {
    /// A list of the silences in view that pass all filters.
    List { filters: Vec<Filter> },
    /// The silence with an identifier.
    Get { id: Text },
    /// A silence to create or update. A new one gets its identifier from the random bits.
    Post { posted: Posted, bits: u128 },
    /// A silence to end.
    Delete { id: Text },
}

/// An event, which is answered by one step.
#[derive(Drop)]
pub enum Event {
    Request(Request),
    /// A frame that came from a peer.
    Frame {
        sender: Place,
        frame: Frame,
    },
    /// A notification of a group: its key, the receiver, the hashes of its alerts, and the time after which it is to be
    /// repeated, in nanoseconds.
    Notified {
        group_key: Bytes,
        receiver: Receiver,
        firing: Hashes,
        resolved: Hashes,
        repeat: Interval,
    },
    /// A question about whether a group is to be notified.
    Decide {
        group_key: Bytes,
        receiver: Receiver,
        firing: Hashes,
        resolved: Hashes,
        repeat: Interval,
        send_resolved: bool,
    },
    /// A question about which silences mute an alert with these labels.
    Mutes {
        labels: Labels,
    },
    /// A request for both views.
    Show,
    /// A collection of what isn't live in both states.
    Tick,
    /// A request to send both states to a peer, which answers with its own.
    PullFrom(Place),
}
