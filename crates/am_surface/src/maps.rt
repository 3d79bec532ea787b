//! Maps of notes compared with plain lists of them, over random runs.

use crate::notes::{Note, at, mixed};
use am_merge::Held;
use am_version_order::{Moment, Version};
use std::alloc::{AllocError, Global};

/// The buckets that notes are in, and one that no note is in.
const BUCKETS: [&[u8]; 5] = [b"", b"x", b"y", b"z", b"none"];

/// The moment at which notes are taken, in seconds.
const NOW: u32 = 30;

/// Notes in a map, and the same notes in a plain list in the order of their letters.
#[derive(Drop)]
struct Twins {
    held: Held<Note>,
    plain: Vec<Note>,
}

impl Twins {
    fn new(alloc: Global) -> Self {
        Twins {
            held: Held::new(alloc),
            plain: Vec::new(alloc),
        }
    }

    // Takes the note that follows from a number.
    fn take(&mut self, mixed: u64) -> Result<(), AllocError> {
        put(&mut self.plain, note(mixed))?;
        self.held.take(note(mixed), at(NOW))?;
        Ok(())
    }

    fn take_pair(&mut self, first: u64, second: u64) -> Result<(), AllocError> {
        put(&mut self.plain, note(first))?;
        put(&mut self.plain, note(second))?;
        self.held.take_pair(note(first), note(second), at(NOW))?;
        Ok(())
    }

    // Takes all notes of another map, and returns whether the note of equally many letters changed in both.
    fn merge(&mut self, other: &Twins) -> Result<bool, AllocError> {
        let mut changed: usize = 0;
        for &note in &other.plain {
            changed = changed.saturating_add(usize::from(put(&mut self.plain, note)?));
        }
        let merged = self.held.merge(&other.held, Moment::LEAST);
        Ok(merged.ok() == Some(changed))
    }

    // Drops what isn't live at a second.
    fn sweep(&mut self, second: u32) {
        let now = at(second);
        self.plain.retain(|note| now < note.expires);
        self.held.sweep(now);
    }

    // Returns whether map and list have the same notes, whichever way the map is read.
    fn agree(&self) -> bool {
        self.held.len() == self.plain.len()
            && self.held.next_expiry() == least_expiry(&self.plain)
            && self.walks_agree()
            && BUCKETS.iter().all(|bucket| self.bucket_agrees(bucket))
    }

    fn walks_agree(&self) -> bool {
        let mut rest = self.held.iter();
        for plain in &self.plain {
            if rest.next() != Some(plain) {
                return false;
            }
        }
        rest.next().is_none()
    }

    fn bucket_agrees(&self, bucket: &[u8]) -> bool {
        let mut rest = self.held.in_bucket(bucket);
        for plain in &self.plain {
            if plain.bucket() == bucket && rest.next() != Some(plain) {
                return false;
            }
        }
        rest.next().is_none()
    }
}

// Puts a note in if it is greater than the one of its letter, and returns whether it did.
fn put(plain: &mut Vec<Note>, note: Note) -> Result<bool, AllocError> {
    match plain.binary_search_by(|held| held.id.cmp(&note.id)) {
        Ok(place) => {
            let greater = is_greater(note, plain[place]);
            if greater {
                plain[place] = note;
            }
            Ok(greater)
        }
        Err(place) => {
            plain.insert(place, note)?;
            Ok(true)
        }
    }
}

fn is_greater(note: Note, held: Note) -> bool {
    if note.updated != held.updated {
        return held.updated < note.updated;
    }
    if note.expires != held.expires {
        return held.expires < note.expires;
    }
    held.content < note.content
}

fn least_expiry(plain: &[Note]) -> Option<Moment> {
    let mut least = None;
    for note in plain {
        least = match least {
            Some(before) if before <= note.expires => Some(before),
            _ => Some(note.expires),
        };
    }
    least
}

// Returns the note that follows from a number. The moments tie often, and the buckets are few.
fn note(mixed: u64) -> Note {
    Note {
        id: (mixed % 256) as u8,
        updated: at((mixed / 256 % 50) as u32),
        expires: at((mixed / 65_536 % 60) as u32),
        content: [
            [0, b'x', b'y', b'z'][(mixed >> 24) as usize % 4],
            (mixed / 1_073_741_824 % 4) as u8,
        ],
    }
}

// Returns a map of `count` notes that follow from a seed.
fn many(alloc: Global, seed: u64, count: u64) -> Result<Twins, AllocError> {
    let mut twins = Twins::new(alloc);
    for number in 0..count {
        twins.take(mixed(seed, number))?;
    }
    Ok(twins)
}

fn merge_many(twins: &mut Twins, seed: u64, count: u64) -> Result<bool, AllocError> {
    let other = many(twins.held.allocator(), seed, count)?;
    twins.merge(&other)
}

// Returns whether two maps with this many notes merge as lists do.
fn merge_as_lists(alloc: Global, count: u64, others: u64) -> Result<bool, AllocError> {
    let mut twins = many(alloc, 1, count)?;
    Ok(merge_many(&mut twins, 2, others)? && twins.agree())
}

/// Returns whether large maps merge as lists do.
pub fn all_merge_as_lists(alloc: Global) -> Option<bool> {
    for (count, others) in [(0, 300), (80, 600), (600, 600), (600, 80), (600, 1)] {
        if !merge_as_lists(alloc, count, others).ok()? {
            return Some(false);
        }
    }
    Some(true)
}

// Makes the event that a number decides. Returns `false` if map and list answer differently.
fn step(twins: &mut Twins, number: u64) -> Result<bool, AllocError> {
    let (first, second) = (mixed(1, number), mixed(2, number));
    match mixed(3, number) % 32 {
        0 => return merge_many(twins, number, 2),
        1 => twins.sweep((first % 60) as u32),
        2 => twins.held = twins.held.try_clone()?,
        3..8 => twins.take_pair(first, second)?,
        _ => twins.take(first)?,
    }
    Ok(true)
}

/// Returns whether a map and a list agree after each of 400 events.
pub fn agree_with_a_plain_list(alloc: Global) -> Option<bool> {
    let mut twins = Twins::new(alloc);
    for number in 0..400 {
        let is_answered_alike = step(&mut twins, number).ok()?;
        if !is_answered_alike || !twins.agree() {
            return Some(false);
        }
    }
    Some(true)
}
