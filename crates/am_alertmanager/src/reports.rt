//! Reports of silences that aren't sent because of their hazards, with each version reported once.

ghost use Rattle.std.specs.Prelude.{◌≡◌, ◌≤◌, [], length, IsTrue};

use crate::tally::Withheld;
use am_matcher::Hazard;
use am_version_order::Moment;
use am_wire::Text;
use std::alloc::Global;

/// The maximum number of versions that are remembered as reported. Beyond them, the oldest is forgotten, and reported again.
const MOST_TOLD: usize = 4_096;

/// A silence that isn't sent to a replica.
#[derive(Drop)]
pub struct WithheldSilence {
    /// The place of the replica.
    pub place: usize,
    pub id: Text,
    pub hazard: Hazard,
    /// True if this version wasn't reported before.
    pub is_first: bool,
}

/// The versions that were reported.
#[derive(Drop)]
pub struct Reports {
    /// The marks of the reported versions; the oldest ones are from `oldest` on.
    told: Vec<u64>,
    oldest: usize,
}

/// Returns a number that two versions of silences hardly ever share: FNV-1a of the identifier followed by the time of the update.
fn mark_of(id: &[u8], updated: Moment) -> u64 {
    let mut mark: u64 = 0xCBF2_9CE4_8422_2325;
    for byte in id {
        mark = (mark ^ u64::from(*byte)).wrapping_mul(0x0000_0100_0000_01B3);
    }
    let (seconds, nanos) = updated.parts();
    let moment = seconds.cast_unsigned().wrapping_mul(1_000_000_007) ^ u64::from(nanos);
    (mark ^ moment).wrapping_mul(0x0000_0100_0000_01B3)
}

impl Reports {
    /// Returns the reports before any version was told.
    pub fn new(alloc: Global) -> Reports
        ensures { result.told.items ≡ [] }
    {
        Reports {
            told: Vec::new(alloc),
            oldest: 0,
        }
    }

    /// Returns the report of a silence that is withheld from the replica at a place.
    pub fn report(&mut self, place: usize, withheld: Withheld<Text>) -> WithheldSilence
        ensures place { result.place ≡ place }
        ensures id { result.id ≡ withheld.key }
        ensures hazard { result.hazard ≡ withheld.hazard }
        ensures told { ¬ IsTrue result.is_first → self.new ≡ self.old }
        // PROMISE: Of the silences that aren't sent, at most 4,096 versions are kept in mind as told.
        ensures bounded { length self.old.told.items ≤ MOST_TOLD → length self.new.told.items ≤ MOST_TOLD }
    {
        let Withheld {
            key,
            updated,
            hazard,
        } = withheld;
        let mark = mark_of(key.as_str().as_bytes(), updated);
        let is_first = !self.told.iter().any(|other| *other == mark);
        if is_first {
            self.keep(mark);
        }
        WithheldSilence {
            place,
            id: key,
            hazard,
            is_first,
        }
    }

    /// Remembers a mark, in place of the oldest one if there are enough. If memory runs out, the version is reported again.
    fn keep(&mut self, mark: u64)
        ensures { length self.old.told.items ≤ MOST_TOLD → length self.new.told.items ≤ MOST_TOLD }
    {
        if self.told.len() < MOST_TOLD {
            let _ = self.told.push(mark);
        } else if let Some(oldest) = self.told.get_mut(self.oldest) {
            *oldest = mark;
            self.oldest = (self.oldest + 1) % MOST_TOLD;
        }
    }
}
