//! Versions and rows of at most 67,108,864 bytes: some with exactly as many, and some with one more.

use crate::members::config;
use am_instance::{Event, Instance, Reply, Request};
use am_merge::Held;
use am_nflog::{Bytes, Entry, Hashes, LogKey, MeshEntry};
use am_silence::{
    MatcherKind, MatcherRef, Matchers, MeshSilence, Plan, Posted, Silence, SilenceError, Verdict,
    plan_expire, plan_post,
};
use am_snapshot::{SnapshotError, load, save};
use am_version_order::{Interval, Moment, Version};
use am_wire::{Message, Text, WireError};
use std::alloc::{AllocError, Global};
use std::io::{self, Read};

const MOST: usize = 67_108_864;

/// A thing that is made from a text of some length.
#[derive(Clone, Copy)]
enum Made {
    /// The bytes of a silence that has the text as its comment.
    Silence,
    /// A version of that silence, which is active from 10 s to 100 s.
    Held,
    /// A row of only that version.
    Row,
    /// The version of a new silence, by a post that has the text as its comment.
    Posted,
    /// Another version of the silence, by such a post.
    Updated,
    /// The version that ends the silence 1 ns after 20 s, because a post replaces it. Its three moments then have nanoseconds,
    /// so that a silence which is held may be too large to be ended.
    Replaced,
    /// The version that ends the silence without a post.
    Ended,
    /// A version of a log entry that has the text as its group key.
    Entry,
}

/// The number of bytes in all, or the reason that there are none.
type Length = Result<usize, SilenceError>;

fn length(alloc: Global, made: Made, len: usize) -> Length {
    match made {
        Made::Silence => length_written(alloc, len),
        Made::Held => Ok(held(alloc, len)?.canonical().len()),
        Made::Row => length_saved(alloc, len),
        Made::Posted => length_posted(alloc, made, (0, 11, len), at(20, 0)),
        Made::Updated => length_posted(alloc, made, (0, 10, len), at(20, 0)),
        Made::Replaced => length_posted(alloc, made, (len, 11, 0), at(20, 1)),
        Made::Ended => length_ended(alloc, len, at(20, 1)),
        Made::Entry => length_of_entry(alloc, len).map_err(of_wire),
    }
}

// Returns whether exactly the maximum is made with `beside` bytes besides the text, and nothing if the text has one more.
fn is_limit(alloc: Global, made: Made, beside: usize) -> bool {
    let len = MOST.saturating_sub(beside);
    length(alloc, made, len) == Ok(MOST)
        && length(alloc, made, len.saturating_add(1)) == Err(SilenceError::TooLarge)
}

/// Returns whether versions and rows are made of exactly the maximum, and of no byte more.
pub fn bound_versions_and_rows(alloc: Global) -> bool {
    for (made, beside) in [
        (Made::Silence, 30),
        (Made::Held, 40),
        (Made::Row, 44),
        (Made::Entry, 31),
    ] {
        if !is_limit(alloc, made, beside) {
            return false;
        }
    }
    true
}

/// Returns whether posts and ends make versions of exactly the maximum, and of no byte more.
pub fn bound_posts_and_ends(alloc: Global) -> bool {
    for (made, beside) in [
        (Made::Posted, 75),
        (Made::Updated, 40),
        (Made::Replaced, 45),
        (Made::Ended, 45),
    ] {
        if !is_limit(alloc, made, beside) {
            return false;
        }
    }
    true
}

fn of_wire(error: WireError) -> SilenceError {
    match error {
        WireError::TooLarge => SilenceError::TooLarge,
        _ => SilenceError::Memory,
    }
}

fn at(seconds: i64, nanos: u32) -> Moment {
    Moment::from_parts(seconds, nanos).unwrap_or(Moment::LEAST)
}

fn retention() -> Interval {
    Interval::from_nanos(100_000_000_000).unwrap()
}

// Returns a text of `len` letters `x`.
fn text_of(alloc: Global, len: usize) -> Result<Text, AllocError> {
    let mut string = "xxxxxxxxxxxxxxxxxxxxxxxxxxxxxxxx".repeat(alloc, len / 32)?;
    for _ in 0..len % 32 {
        string.push('x')?;
    }
    Ok(Text::new(string))
}

// Returns the matcher that asks for the job `x`.
fn job_is_x(alloc: Global) -> Result<Matchers, AllocError> {
    let mut matchers = Matchers::none(alloc);
    matchers.push(alloc, &MatcherRef::new(MatcherKind::Equal, "job", "x"))?;
    Ok(matchers)
}

// Returns the silence `a` with a comment of `len` bytes.
fn silence(alloc: Global, starts_at: i64, len: usize) -> Result<Silence, AllocError> {
    let comment = text_of(alloc, len)?;
    let matchers = job_is_x(alloc)?;
    Ok(Silence {
        id: Text::copied(alloc, "a")?,
        matchers,
        starts_at: at(starts_at, 0),
        ends_at: at(100, 0),
        updated_at: at(10, 0),
        created_by: Text::new(String::new(alloc)),
        comment,
    })
}

fn length_written(alloc: Global, len: usize) -> Length {
    let silence = silence(alloc, 10, len)?;
    let mut text = Vec::new(alloc);
    silence.encode(&mut text).map_err(of_wire)?;
    Ok(text.len())
}

fn held(alloc: Global, len: usize) -> Result<MeshSilence, SilenceError> {
    let silence = silence(alloc, 10, len)?;
    MeshSilence::new(alloc, silence, at(200, 0)).map_err(of_wire)
}

// Returns a map of only that version.
fn map(alloc: Global, len: usize) -> Result<Held<MeshSilence>, SilenceError> {
    let version = held(alloc, len)?;
    let mut map = Held::new(alloc);
    map.take(version, Moment::LEAST)?;
    Ok(map)
}

// (if the row is refused, nothing of it is written)
fn length_saved(alloc: Global, len: usize) -> Length {
    let map = map(alloc, len)?;
    let mut out = Vec::new(alloc);
    match save(alloc, &map, &mut out) {
        Err(SnapshotError::TooLarge) if out.is_empty() => Err(SilenceError::TooLarge),
        _ => Ok(out.len()),
    }
}

// Returns the post of a silence under its identifier: its matchers, its moments and its words.
fn posted(alloc: Global, starts_at: i64, len: usize) -> Result<Posted, AllocError> {
    let silence = silence(alloc, starts_at, len)?;
    Ok(Posted {
        id: Some(silence.id),
        matchers: silence.matchers,
        starts_at: silence.starts_at,
        ends_at: silence.ends_at,
        created_by: silence.created_by,
        comment: silence.comment,
    })
}

// Returns the length of what a post makes over a held silence, from the length of the comment that is held, the start of the
// post, and the length of its comment.
fn length_posted(
    alloc: Global,
    made: Made,
    (held_len, starts_at, len): (usize, i64, usize),
    now: Moment,
) -> Length {
    let prev = held(alloc, held_len)?;
    length_over(alloc, made, &prev, posted(alloc, starts_at, len)?, now)
}

fn length_over(
    alloc: Global,
    made: Made,
    prev: &MeshSilence,
    posted: Posted,
    now: Moment,
) -> Length {
    let keep = retention();
    let plan = plan_post(
        alloc,
        Some(prev),
        posted,
        Verdict::Fine,
        now,
        0,
        false,
        keep,
    )?;
    match (&plan, made) {
        (Plan::Update(version), Made::Updated) => Ok(version.canonical().len()),
        (Plan::Replace { new, .. }, Made::Posted) => Ok(new.canonical().len()),
        (Plan::Replace { old, .. }, Made::Replaced) => Ok(old.canonical().len()),
        _ => Ok(0),
    }
}

fn length_ended(alloc: Global, len: usize, now: Moment) -> Length {
    let prev = held(alloc, len)?;
    let ended = plan_expire(alloc, Some(&prev), now, retention())?;
    Ok(ended.canonical().len())
}

/// The refusal of a silence as too large, the number of frames to be sent, and the number of those over their limit.
type Answered = (bool, usize, usize);

// Returns the answer of a member that is to end the silence 1 ns after 20 s.
fn answered(alloc: Global, member: &mut Instance) -> Option<Answered> {
    let id = Text::copied(alloc, "a").ok()?;
    let event = Event::Request(Request::Delete { id });
    let outcome = member.step(event, at(20, 1)).ok()?;
    let is_refused = matches!(&outcome.reply, Reply::Refused(SilenceError::TooLarge));
    Some((is_refused, outcome.frames.len(), outcome.unsent.limit))
}

// Returns the answer of a member that holds only that version.
fn answered_by(alloc: Global, len: usize) -> Option<Answered> {
    let map = map(alloc, len).ok()?;
    let mut member = Instance::start(config(alloc)?, map, Held::new(alloc), at(10, 0));
    answered(alloc, &mut member)
}

/// Returns whether a member makes a version of the maximum size, which is too large for a Delta to either peer, and none with
/// one byte more.
pub fn bound_members(alloc: Global) -> Option<bool> {
    for (len, wanted) in [(MOST - 45, (false, 0, 2)), (MOST - 44, (true, 0, 0))] {
        if answered_by(alloc, len)? != wanted {
            return Some(false);
        }
    }
    Some(true)
}

// Returns the entry of a group key of `len` letters `g` and the receiver `r`, `w`, 0, at 10 s, with 1 and 2 firing.
fn entry(alloc: Global, len: usize) -> Result<Entry, AllocError> {
    let group_key = vec![in alloc; b'g'; len]?;
    let key = LogKey::of_parts(alloc, group_key.as_slice(), "r", "w", 0)?;
    let firing = vec![in alloc; 1, 2]?;
    Ok(Entry {
        key,
        group_hash: Bytes::new(Vec::new(alloc)),
        resolved: false,
        timestamp: at(10, 0),
        firing_alerts: Hashes::new(firing),
        resolved_alerts: Hashes::new(Vec::new(alloc)),
    })
}

fn length_of_entry(alloc: Global, len: usize) -> Result<usize, WireError> {
    let entry = entry(alloc, len)?;
    let version = MeshEntry::new(alloc, entry, at(200, 0))?;
    Ok(version.canonical().len())
}

/// The length of a row of 67,108,866 bytes, of which an input has the maximum that it may have, or one more.
const TOO_LONG: [u8; 4] = [0xFE, 0xFF, 0xFF, 0x1F];

/// Returns whether an input that ends within its row is too large at one byte past the maximum, and not before.
pub fn bound_inputs(alloc: Global) -> bool {
    let cut = SnapshotError::Wire(WireError::Truncated { at: 0 });
    for (bytes, fault) in [(67_108_864, cut), (67_108_865, SnapshotError::TooLarge)] {
        let mut reader = TOO_LONG.as_slice().chain(io::repeat(b'a')).take(bytes);
        let answer = load::<MeshSilence, _>(alloc, &mut reader).err();
        if answer != Some(fault) {
            return false;
        }
    }
    true
}
