//! Frames to be sent, and the steps that make them.

ghost use Rattle.std.specs.Prelude.{◌≡◌, ◌≤◌, [], ◌∷◌, filter, length, Some, true, IfSome, IfOk, OnOk};
ghost use Rattle.std.specs.Option.{option_copied};
ghost use Rattle.am_wire.specs.Limits.{most};
ghost use Rattle.am_wire.specs.Writing.{delimited};
ghost use Rattle.am_silence.specs.Mesh.{mesh_version};
ghost use Rattle.am_nflog.specs.Mesh.{mesh_version as entry_version};
ghost use Rattle.am_snapshot.specs.Encodings.{row_encoding};
ghost use Rattle.am_gossip.specs.Frames.{fits, states};
ghost use Rattle.am_gossip.specs.declared.frame.Frame.TheVariants as frames;
ghost use Rattle.am_instance.specs.Configs.{is_other, places_but};
ghost use Rattle.am_instance.specs.Sendings.{Gathers, IsSent, Sends, addressed, delta, no_memory, states_frame};
ghost use Rattle.am_instance.specs.Sendings.{nothing_sent, over_limit, whole_state};

use crate::reply::Unsent;
use am_gossip::{Frame, FullState, Part, Place, StateKey, delta_fits, states_fit};
use am_merge::Held;
use am_nflog::MeshEntry;
use am_silence::MeshSilence;
use am_snapshot::{row_bytes, row_length};
use am_version_order::Version;
use am_wire::Bytes;
use am_wire::writing::{delimited_bytes, delimited_length};
use std::alloc::{AllocError, Global};
use std::marker::Model;

/// The members to which the Deltas of a step go: all but this one and the one that sent the versions.
#[derive(Clone, Copy)]
pub struct Route {
    pub members: u64,
    pub own: Place,
    pub origin: Place,
}

/// The reason why both states are sent.
#[derive(Clone, Copy)]
pub enum ExchangeRole {
    /// The peer is asked for its own states.
    Ask,
    /// The peer asked for the states of this member.
    Answer,
}

/// Frames to be sent, each with the place of its peer, and the numbers of frames left out. Contracts see the list and the
/// numbers.
#[derive(Drop)]
pub struct FrameSender {
    pub frames: Vec<(Place, Frame)>,
    pub unsent: Unsent,
}

impl Model for FrameSender {
    ghost use Rattle.am_instance.specs.Sendings.{Sent};

    ghost Value = { Sent };

    ghost view = { λ o. record { frames = o.frames.items; memory = o.unsent.memory; limit = o.unsent.limit } };
}

impl FrameSender {
    /// Returns a sender without frames. Nothing is allocated.
    pub fn new(alloc: Global) -> FrameSender
        ensures { result ≡ nothing_sent }
    {
        FrameSender {
            frames: Vec::new(alloc),
            unsent: Unsent {
                memory: 0,
                limit: 0,
            },
        }
    }

    /// Appends the frames of another sender, and adds its numbers. Frames for which there is no memory are counted.
    pub fn add(&mut self, more: FrameSender)
        ensures { Gathers more self.old self.new }
    {
        let FrameSender { mut frames, unsent } = more;
        self.unsent.memory = self.unsent.memory.saturating_add(unsent.memory);
        self.unsent.limit = self.unsent.limit.saturating_add(unsent.limit);
        if self.frames.append(&mut frames).is_err() {
            self.unsent.memory = self.unsent.memory.saturating_add(frames.len());
        }
    }

    fn count_memory(&mut self)
        ensures { self.new ≡ no_memory self.old }
    {
        self.unsent.memory = self.unsent.memory.saturating_add(1);
    }

    fn count_limit(&mut self)
        ensures { self.new ≡ over_limit self.old }
    {
        self.unsent.limit = self.unsent.limit.saturating_add(1);
    }

    /// Appends a frame that keeps the limit of its kind.
    fn hand_out(&mut self, place: Place, frame: Frame)
        requires { fits frame ≡ true }
        ensures { IsSent (place, frame) self.old self.new }
    {
        if self.frames.push((place, frame)).is_err() {
            self.count_memory();
        }
    }

    /// Sends a version, given by its canonical encoding, to each place of the route.
    pub(crate) fn send_version(&mut self, route: Route, key: StateKey, content: &[u8])
        ensures { Sends (addressed (places_but route.members route.own route.origin) (delta key content.now)) self.old self.new }
    {
        let row = delta_row(*self.frames.allocator(), key, content);
        for place in 0..route.members {
            self.send_along(route, place, key, content, row.as_ref());
        }
    }

    /// Sends a version to one place if it is on the route.
    fn send_along(
        &mut self,
        route: Route,
        place: Place,
        key: StateKey,
        content: &[u8],
        row: Option<&Bytes>,
    )
        requires { IfSome (option_copied row) (λ bytes. bytes ≡ delimited content.now) }
        ensures { Sends (addressed (filter (is_other route.own route.origin) (place ∷ [])) (delta key content.now)) self.old self.new }
    {
        if place != route.own && place != route.origin {
            self.send_delta(place, key, content, row);
        }
    }

    /// Sends a version to one place. `row` is the version as it is written, or `None` if there was no memory for it.
    fn send_delta(&mut self, place: Place, key: StateKey, content: &[u8], row: Option<&Bytes>)
        requires { IfSome (option_copied row) (λ bytes. bytes ≡ delimited content.now) }
        ensures { IsSent (place, delta key content.now) self.old self.new }
    {
        if !delta_fits(key, delimited_length(content)) {
            self.count_limit();
            return;
        }
        match copy_of(*self.frames.allocator(), row) {
            Some(bytes) => self.hand_out(place, Frame::Delta(Part { key, bytes })),
            None => self.count_memory(),
        }
    }

    /// Sends both whole states to a peer.
    pub(crate) fn send_states(
        &mut self,
        place: Place,
        silences: &Held<MeshSilence>,
        log: &Held<MeshEntry>,
        exchange: ExchangeRole,
    )
        ensures { IsSent (place, states_frame exchange (whole_state silences.now log.now)) self.old self.new }
    {
        if !keep_limit(silences, log) {
            self.count_limit();
            return;
        }
        match whole_state(*self.frames.allocator(), silences, log) {
            Ok(state) => self.hand_out(place, states_frame(exchange, state)),
            Err(_) => self.count_memory(),
        }
    }
}

/// Returns the frame that carries both states.
fn states_frame(exchange: ExchangeRole, state: FullState) -> Frame
    ensures { result ≡ states_frame exchange state }
{
    match exchange {
        ExchangeRole::Ask => Frame::Push(state),
        ExchangeRole::Answer => Frame::Pull(state),
    }
}

/// Returns a copy of a row, or `None` if there is no row or no memory for the copy.
fn copy_of(alloc: Global, written: Option<&Bytes>) -> Option<Bytes>
    ensures { IfSome result (λ copy. option_copied written.entry ≡ Some copy) }
{
    written?.try_clone(alloc).ok()
}

/// Returns the row of a version, or `None` if it is over the limit of a Delta or there is no memory for it.
fn delta_row(alloc: Global, key: StateKey, content: &[u8]) -> Option<Bytes>
    ensures { IfSome result (λ bytes. bytes ≡ delimited content.now) }
{
    if !delta_fits(key, delimited_length(content)) {
        return None;
    }
    delimited_bytes(alloc, content).ok()
}

/// Returns whether both states keep the limit of a frame. Nothing is allocated.
fn keep_limit(silences: &Held<MeshSilence>, log: &Held<MeshEntry>) -> bool
    ensures { result ≡ fits (frames.Push (whole_state silences.now log.now)) }
{
    let Some(of_silences) = row_length(silences) else {
        return false;
    };
    let Some(of_log) = row_length(log) else {
        return false;
    };
    states_fit(of_silences, of_log)
}

/// Returns the row of a map. The result is [`AllocError`] also if it has more than 67,108,864 bytes.
fn row_of<V: Version>(alloc: Global, held: &Held<V>) -> Result<Bytes, AllocError>
    ensures row { IfOk result (λ bytes. bytes ≡ row_encoding V.seen held.now) }
    ensures short { OnOk result (length (row_encoding V.seen held.now) ≤ most) }
{
    let Some(length) = row_length(held) else {
        return Err(AllocError);
    };
    row_bytes(alloc, held, length)
}

/// Returns both whole maps, including versions that aren't live. The result is [`AllocError`] also if the row of one of
/// them has more than 67,108,864 bytes.
pub fn whole_state(
    alloc: Global,
    silences: &Held<MeshSilence>,
    log: &Held<MeshEntry>,
) -> Result<FullState, AllocError>
    ensures state { IfOk result (λ state. state ≡ whole_state silences.now log.now) }
    ensures silences_fit { OnOk result (length (row_encoding mesh_version silences.now) ≤ most) }
    ensures log_fit { OnOk result (length (row_encoding entry_version log.now) ≤ most) }
{
    let silences = row_of(alloc, silences)?;
    let log = row_of(alloc, log)?;
    both_parts(alloc, silences, log)
}

/// Returns the parts of both states, from their rows.
pub(crate) fn both_parts(
    alloc: Global,
    silences: Bytes,
    log: Bytes,
) -> Result<FullState, AllocError>
    ensures { IfOk result (λ state. state ≡ states silences log) }
{
    let mut parts = Vec::with_capacity(alloc, 2)?;
    parts.push(Part {
        key: StateKey::Sil,
        bytes: silences,
    })?;
    parts.push(Part {
        key: StateKey::Nfl,
        bytes: log,
    })?;
    Ok(FullState::new(parts))
}
