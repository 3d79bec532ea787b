//! Instances, their events, and the answers of their steps.

use crate::matcher::labels;
use crate::samples::{
    at, config, group_key, hashes, held, holds, instance, peers, posted, receiver, second, text,
};
use am_dedup::Decision;
use am_gossip::{Frame, FrameError};
use am_instance::{
    Config, ConfigError, Event, Instance, Made, Outcome, Place, Reply, Request, StepError, Unsent,
};
use am_matcher::{Filter, Labels, Mutes};
use am_merge::Held;
use am_nflog::{Hashes, MeshEntry, Receiver};
use am_silence::{MeshSilence, Posted, SilenceError, State};
use am_version_order::{Interval, Moment};
use am_wire::{Bytes, Text};
use std::alloc::{AllocError, Global};

/// Calls everything public of am_instance.
pub fn calls(alloc: Global) -> Option<()> {
    configs(alloc)?;
    starts(alloc)?;
    steps(alloc)?;
    events(alloc)?;
    requests(alloc)?;
    holds(is_first(ConfigError::EmptyName))?;
    holds(number_of(StepError::Frame(FrameError::Kind)) == 3)
}

fn configs(alloc: Global) -> Option<()> {
    let name: Text = text(alloc, "a")?;
    let peers: Vec<Text> = peers(alloc)?;
    let config: Result<Config, ConfigError> = Config::new(alloc, name, peers, second()?, second()?);
    let copy: Result<Config, AllocError> = config.ok()?.try_clone();
    holds(copy.is_ok())
}

fn is_first(error: ConfigError) -> bool {
    match error {
        ConfigError::EmptyName => true,
        ConfigError::LongName | ConfigError::SameName | ConfigError::Memory => false,
    }
}

fn starts(alloc: Global) -> Option<()> {
    let (config, silences) = (config(alloc)?, held(alloc)?);
    let instance: Instance = Instance::start(config, silences, Held::new(alloc), at(10));
    let silences: &Held<MeshSilence> = instance.silences();
    let log: &Held<MeshEntry> = instance.log();
    let last: Moment = instance.last();
    let due: Option<Moment> = instance.due_from(at(10));
    holds(silences.len() == 1 && log.len() == 0 && last == at(10) && due == Some(at(10)))
}

fn steps(alloc: Global) -> Option<()> {
    let mut instance = instance(alloc)?;
    let outcome: Result<Outcome, StepError> = instance.step(Event::Show, at(10));
    let Outcome {
        reply,
        frames,
        unsent,
        made,
    } = outcome.ok()?;
    let frames: Vec<(Place, Frame)> = frames;
    let Unsent { memory, limit } = unsent;
    let unsent: (usize, usize) = (memory, limit);
    holds(count_in(&reply) == 1 && frames.is_empty() && unsent == (0, 0) && count_of(&made) == 0)
}

/// Counts the versions that an event made.
fn count_of(made: &Made) -> usize {
    let silences: &Vec<MeshSilence> = &made.silences;
    let log: &Option<MeshEntry> = &made.log;
    if log.is_some() { 1 } else { silences.len() }
}

/// Counts the silences of a reply.
fn count_in(reply: &Reply) -> usize {
    match reply {
        Reply::Silences(rows) => count(rows),
        Reply::Silence(version, state) => count_one(version, *state),
        Reply::Posted(id) => id_count(id),
        Reply::Muted(muted) => muted_count(muted),
        Reply::Shown { silences, log: _ } => count(silences),
        Reply::Refused(error) => refused_count(*error),
        Reply::Logged(changed) => logged_count(*changed),
        Reply::Decided(decision) => decided_count(*decision),
        Reply::Deleted | Reply::Nothing => 0,
    }
}

fn count(rows: &Vec<(MeshSilence, State)>) -> usize {
    rows.len()
}

fn count_one(_version: &MeshSilence, _state: State) -> usize {
    1
}

fn id_count(_id: &Text) -> usize {
    1
}

fn muted_count(muted: &Mutes) -> usize {
    muted.ids.as_slice().len()
}

fn refused_count(_error: SilenceError) -> usize {
    0
}

fn logged_count(_changed: bool) -> usize {
    0
}

fn decided_count(_decision: Decision) -> usize {
    0
}

fn number_of(error: StepError) -> usize {
    match error {
        StepError::MomentBack { last: _ } => 1,
        StepError::UnknownPeer => 2,
        StepError::Frame(_) => 3,
        StepError::Memory { taken } => taken,
    }
}

fn events(alloc: Global) -> Option<()> {
    holds(decides(alloc)?)?;
    holds(comes())?;
    holds(mutes(alloc)?)
}

fn decides(alloc: Global) -> Option<bool> {
    let (group, receiver) = (group_key(alloc)?, receiver(alloc)?);
    let event = decided(group, receiver, hashes(alloc)?, hashes(alloc)?, second()?);
    Some(event_number(&event) == 4)
}

fn comes() -> bool {
    event_number(&came(1, Frame::Tick)) == 2
}

fn mutes(alloc: Global) -> Option<bool> {
    let event = muting(labels(alloc)?);
    Some(event_number(&event) == 5)
}

fn decided(
    group_key: Bytes,
    receiver: Receiver,
    firing: Hashes,
    resolved: Hashes,
    repeat: Interval,
) -> Event {
    Event::Decide {
        group_key,
        receiver,
        firing,
        resolved,
        repeat,
        send_resolved: true,
    }
}

fn came(sender: Place, frame: Frame) -> Event {
    Event::Frame { sender, frame }
}

fn muting(labels: Labels) -> Event {
    Event::Mutes { labels }
}

fn event_number(event: &Event) -> usize {
    match event {
        Event::Request(_) => 1,
        Event::Frame {
            sender: _,
            frame: _,
        } => 2,
        Event::Notified {
            group_key: _,
            receiver: _,
            firing: _,
            resolved: _,
            repeat: _,
        } => 3,
        Event::Decide {
            group_key: _,
            receiver: _,
            firing: _,
            resolved: _,
            repeat: _,
            send_resolved: _,
        } => 4,
        Event::Mutes { labels: _ } => 5,
        Event::Show => 6,
        Event::Tick => 7,
        Event::PullFrom(_) => 8,
    }
}

fn requests(alloc: Global) -> Option<()> {
    holds(request_number(&listing(Vec::new(alloc))) == 1)?;
    holds(gets(alloc)?)?;
    holds(posts(alloc)?)?;
    holds(deletes(alloc)?)
}

fn gets(alloc: Global) -> Option<bool> {
    let request = getting(text(alloc, "a")?);
    Some(request_number(&request) == 2)
}

fn posts(alloc: Global) -> Option<bool> {
    let request = posting(posted(alloc)?, 0);
    Some(request_number(&request) == 3)
}

fn deletes(alloc: Global) -> Option<bool> {
    let request = deleting(text(alloc, "a")?);
    Some(request_number(&request) == 4)
}

fn listing(filters: Vec<Filter>) -> Request {
    Request::List { filters }
}

fn getting(id: Text) -> Request {
    Request::Get { id }
}

fn posting(posted: Posted, bits: u128) -> Request {
    Request::Post { posted, bits }
}

fn deleting(id: Text) -> Request {
    Request::Delete { id }
}

fn request_number(request: &Request) -> usize {
    match request {
        Request::List { filters: _ } => 1,
        Request::Get { id: _ } => 2,
        Request::Post { posted: _, bits: _ } => 3,
        Request::Delete { id: _ } => 4,
    }
}
