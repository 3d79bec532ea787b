//! The values that are passed to the calls.

use am_instance::{Config, Instance};
use am_merge::Held;
use am_nflog::{Entry, Hashes, LogKey, MeshEntry, Receiver};
use am_silence::{Matcher, MatcherKind, Matchers, MeshSilence, Posted, Silence};
use am_version_order::{Interval, Moment};
use am_wire::{Bytes, Text};
use std::alloc::Global;

/// A row of one version: the silence `a` of job="x", from 10 until 100, updated at 10 and kept until 200.
pub const ROW: [u8; 33] = [
    0x20, 0x0A, 0x19, 0x0A, 0x01, 0x61, 0x12, 0x08, 0x12, 0x03, 0x6A, 0x6F, 0x62, 0x1A, 0x01, 0x78,
    0x1A, 0x02, 0x08, 0x0A, 0x22, 0x02, 0x08, 0x64, 0x2A, 0x02, 0x08, 0x0A, 0x12, 0x03, 0x08, 0xC8,
    0x01,
];

/// Returns `Some(())` if a test holds.
pub fn holds(test: bool) -> Option<()> {
    test.then_some(())
}

/// Makes the moment that is `seconds` seconds after 1970.
pub fn at(seconds: u32) -> Moment {
    Moment::from_parts(i64::from(seconds), 0).unwrap_or(Moment::LEAST)
}

/// Makes an interval of one second.
pub fn second() -> Option<Interval> {
    Interval::from_nanos(1_000_000_000)
}

/// Makes an owned text.
pub fn text(alloc: Global, text: &str) -> Option<Text> {
    Text::copied(alloc, text).ok()
}

/// Makes the matcher job="x".
pub fn matcher(alloc: Global) -> Option<Matcher> {
    let name = text(alloc, "job")?;
    let pattern = text(alloc, "x")?;
    Some(Matcher {
        kind: MatcherKind::Equal,
        name,
        pattern,
    })
}

/// Makes a list of that matcher.
pub fn matcher_list(alloc: Global) -> Option<Vec<Matcher>> {
    let mut list = Vec::new(alloc);
    list.push(matcher(alloc)?).ok()?;
    Some(list)
}

/// Makes that matcher in the form in which a silence keeps its matchers.
pub fn matchers(alloc: Global) -> Option<Matchers> {
    let list = matcher_list(alloc)?;
    Matchers::new(alloc, &list).ok()
}

/// Makes the silence of [`ROW`].
pub fn silence(alloc: Global) -> Option<Silence> {
    let id = text(alloc, "a")?;
    let matchers = matchers(alloc)?;
    let created_by = text(alloc, "")?;
    let comment = text(alloc, "")?;
    Some(Silence {
        id,
        matchers,
        starts_at: at(10),
        ends_at: at(100),
        updated_at: at(10),
        created_by,
        comment,
    })
}

/// Makes the version of [`ROW`].
pub fn version(alloc: Global) -> Option<MeshSilence> {
    let silence = silence(alloc)?;
    MeshSilence::new(alloc, silence, at(200)).ok()
}

/// Makes the same silence as it is posted, under no identifier.
pub fn posted(alloc: Global) -> Option<Posted> {
    let matchers = matchers(alloc)?;
    let created_by = text(alloc, "")?;
    let comment = text(alloc, "")?;
    Some(Posted {
        id: None,
        matchers,
        starts_at: at(10),
        ends_at: at(100),
        created_by,
        comment,
    })
}

/// Makes the map with that version.
pub fn held(alloc: Global) -> Option<Held<MeshSilence>> {
    let mut held = Held::new(alloc);
    held.take(version(alloc)?, at(10)).ok()?;
    Some(held)
}

/// Makes the key of a group.
pub fn group_key(alloc: Global) -> Option<Bytes> {
    Bytes::copied(alloc, b"g").ok()
}

/// Makes a receiver.
pub fn receiver(alloc: Global) -> Option<Receiver> {
    let group_name = text(alloc, "r")?;
    let integration = text(alloc, "w")?;
    Some(Receiver {
        group_name,
        integration,
        idx: 0,
    })
}

/// Makes the hashes 1 and 2.
pub fn hashes(alloc: Global) -> Option<Hashes> {
    let mut hashes = Vec::new(alloc);
    hashes.push(1).ok()?;
    hashes.push(2).ok()?;
    Some(Hashes::new(hashes))
}

/// Makes an entry of the log, made at 10.
pub fn entry(alloc: Global) -> Option<Entry> {
    let key = LogKey::new(alloc, b"g", &receiver(alloc)?).ok()?;
    let firing_alerts = hashes(alloc)?;
    Some(Entry {
        key,
        group_hash: Bytes::new(Vec::new(alloc)),
        resolved: false,
        timestamp: at(10),
        firing_alerts,
        resolved_alerts: Hashes::new(Vec::new(alloc)),
    })
}

/// Makes the version of that entry, kept until 200.
pub fn logged(alloc: Global) -> Option<MeshEntry> {
    let entry = entry(alloc)?;
    MeshEntry::new(alloc, entry, at(200)).ok()
}

/// Makes the names of the peers of `a`, which are only `b`.
pub fn peers(alloc: Global) -> Option<Vec<Text>> {
    let mut peers = Vec::new(alloc);
    peers.push(text(alloc, "b")?).ok()?;
    Some(peers)
}

/// Makes the configuration of the member `a`.
pub fn config(alloc: Global) -> Option<Config> {
    let name = text(alloc, "a")?;
    let peers = peers(alloc)?;
    Config::new(alloc, name, peers, second()?, second()?).ok()
}

/// Makes the member `a`, which holds the version of [`ROW`].
pub fn instance(alloc: Global) -> Option<Instance> {
    let config = config(alloc)?;
    let silences = held(alloc)?;
    Some(Instance::start(config, silences, Held::new(alloc), at(10)))
}
