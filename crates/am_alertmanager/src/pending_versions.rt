//! The versions that wait for a replica.

ghost use Rattle.std.specs.Prelude.{◌≡◌, ◌≤◌, ◌+◌, ◌^◌, ◌<◌, ◌∷◌, ◌++◌, [], ◌↔◌, false, IfNone, IfSome, IsTrue, OnErr, OnOk};
ghost use Rattle.am_alertmanager.specs.PendingVersions.{HasNothingNew, IsSilent, MayGive};

use crate::candidate::Candidate;
use crate::sifting::sift;
use crate::tally::{FilterTally, Withheld};
use crate::version_filter::VersionFilter;
use am_gossip::{Part, StateKey};
use am_memberlist::{part_encoding, told_encoding};
use am_merge::Held;
use am_nflog::MeshEntry;
use am_silence::MeshSilence;
use am_snapshot::{RowPiece, take_row};
use am_version_order::{Moment, Version};
use am_wire::{Message, Text, Unknown};
use std::alloc::{AllocError, Global};
use std::mem;

/// The maximum number of bytes of new versions that wait for a replica.
const MOST_WAITING: usize = 16_777_216;

/// The versions that wait for a replica: the rows that it is given, followed by the versions that have come since.
#[derive(Drop)]
pub struct PendingVersions {
    /// The rows that the replica is given, each of one state.
    given: Vec<(StateKey, Vec<u8>)>,
    silences: Held<MeshSilence>,
    entries: Held<MeshEntry>,
    /// The number of bytes of versions that came since they last went out.
    waiting: usize,
    /// The number of versions that the replica lacked: those in the rows that it is given, since they were last counted.
    lacked: u64,
    /// The silences that were withheld from the replica, and aren't reported yet.
    withheld: Vec<Withheld<Text>>,
    /// The number of matchers, receivers and moments of the replica that lost fields, since they were last counted.
    dropped: u64,
}

/// Returns the message that tells the live versions of a map, except those of the future and those that are withheld, or `None`
/// if there is no such version.
fn message_of<V: Candidate>(
    alloc: Global,
    key: StateKey,
    held: &Held<V>,
    now: Moment,
    tally: &mut FilterTally<V::Key>,
) -> Result<Option<Vec<u8>>, AllocError>
where
    V::Key: Drop,
{
    let nothing = Held::new(alloc);
    let filter = VersionFilter::Given(&nothing, now);
    let RowPiece { row, next: _ } = sift(
        alloc,
        &filter,
        held.iter(),
        usize::MAX,
        usize::MAX,
        tally,
    )?;
    if row.as_slice().is_empty() {
        return Ok(None);
    }
    Ok(Some(message_with(alloc, key, row.as_slice())?))
}

/// Returns the message that tells a row.
fn message_with(alloc: Global, key: StateKey, row: &[u8]) -> Result<Vec<u8>, AllocError> {
    let part = part_encoding(alloc, key, row)?;
    told_encoding(alloc, &part)
}

/// Takes the versions of a row, if it can be read by the policy for unknown fields.
fn take_all<V: Version + Message>(
    alloc: Global,
    unknown: Unknown,
    held: &mut Held<V>,
    row: &[u8],
) -> Result<(), AllocError> {
    let mut reader = row;
    let Ok(more) = take_row(alloc, unknown, &mut reader) else {
        return Err(AllocError);
    };
    match held.merge(&more, Moment::LEAST) {
        Ok(_) => Ok(()),
        Err(_) => Err(AllocError),
    }
}

impl PendingVersions {
    /// Creates an empty set of pending versions.
    pub fn new(alloc: Global) -> PendingVersions
        ensures nothing { IsSilent result }
        ensures lacked { result.lacked ≡ 0 }
        ensures withheld { result.withheld.items ≡ [] }
        ensures dropped { result.dropped ≡ 0 }
    {
        PendingVersions {
            given: Vec::new(alloc),
            silences: Held::new(alloc),
            entries: Held::new(alloc),
            waiting: 0,
            lacked: 0,
            withheld: Vec::new(alloc),
            dropped: 0,
        }
    }

    /// Counts `count` more versions that the replica lacked.
    pub(crate) fn lack(&mut self, count: u64)
        ensures counted { self.old.lacked + count < 2 ^ 64 → self.new ≡ record (self.old) { lacked = self.old.lacked + count } }
        ensures withheld { self.new.withheld ≡ self.old.withheld }
    {
        self.lacked = self.lacked.saturating_add(count);
    }

    /// Counts what the replica lacked of the silences, and keeps what is withheld from it until that is reported.
    pub(crate) fn count(&mut self, tally: FilterTally<Text>) -> Result<(), AllocError>
        ensures counted { self.old.lacked + tally.passed < 2 ^ 64 → self.new.lacked ≡ self.old.lacked + tally.passed }
        ensures kept { OnOk result (self.new.withheld.items ≡ self.old.withheld.items ++ tally.withheld.items) }
        ensures unkept { OnErr result (self.new.withheld.items ≡ self.old.withheld.items) }
    {
        let FilterTally { passed, withheld } = tally;
        self.lack(passed);
        self.withhold(withheld)
    }

    /// Keeps what is withheld from the replica until that is reported.
    fn withhold(&mut self, withheld: Vec<Withheld<Text>>) -> Result<(), AllocError>
        ensures kept { OnOk result (self.new.withheld.items ≡ self.old.withheld.items ++ withheld.items) }
        ensures unkept { OnErr result (self.new.withheld.items ≡ self.old.withheld.items) }
        ensures lacked { self.new.lacked ≡ self.old.lacked }
    {
        let mut more = withheld;
        self.withheld.append(&mut more)
    }

    /// Returns the number of versions that the replica lacked since this was last called.
    pub fn take_lacked(&mut self) -> u64
        ensures taken { result ≡ self.old.lacked }
        ensures anew { self.new ≡ record (self.old) { lacked = 0 } }
    {
        mem::replace(&mut self.lacked, 0)
    }

    /// Counts `count` more matchers, receivers and moments of the replica that lost fields.
    pub(crate) fn count_dropped(&mut self, count: u64)
        ensures { self.old.dropped + count < 2 ^ 64 → self.new ≡ record (self.old) { dropped = self.old.dropped + count } }
    {
        self.dropped = self.dropped.saturating_add(count);
    }

    /// Returns the number of matchers, receivers and moments of the replica that lost fields since this was last called.
    pub fn take_dropped(&mut self) -> u64
        ensures taken { result ≡ self.old.dropped }
        ensures anew { self.new ≡ record (self.old) { dropped = 0 } }
    {
        mem::replace(&mut self.dropped, 0)
    }

    /// Returns the next silence that was withheld from the replica, and isn't reported yet.
    pub fn next_withheld(&mut self) -> Option<Withheld<Text>>
        ensures next { IfSome result (λ one. self.old.withheld.items ≡ self.new.withheld.items ++ one ∷ []) }
        ensures none { IfNone result (self.old.withheld.items ≡ []) }
    {
        self.withheld.pop()
    }

    /// Returns whether there is nothing to tell.
    pub fn is_empty(&self) -> bool
        ensures { IsTrue result ↔ IsSilent self.now }
    {
        self.given.is_empty() && self.silences.is_empty() && self.entries.is_empty()
    }

    /// Adds a row that the replica is given, if it has a version.
    pub(crate) fn give(&mut self, key: StateKey, row: Vec<u8>) -> Result<(), AllocError>
        ensures given { OnOk result (MayGive row.items (key, row) self.old.given.items self.new.given.items) }
        ensures ungiven { OnErr result (self.new.given.items ≡ self.old.given.items) }
    {
        if !row.is_empty() {
            self.given.push((key, row))?;
        }
        Ok(())
    }

    /// Adds new versions, read by the policy for unknown fields. Returns whether there was room and memory for them; if not,
    /// all versions that came are forgotten.
    pub fn add(&mut self, alloc: Global, unknown: Unknown, part: &Part) -> bool
        // PROMISE: At most 16 MiB of new versions wait for an Alertmanager; if more come, all that came is forgotten.
        ensures bounded { self.new.waiting ≤ MOST_WAITING }
        ensures forgotten { result ≡ false → HasNothingNew self.new }
    {
        let row = part.bytes.as_slice();
        self.waiting = self.waiting.saturating_add(row.len());
        let is_added = self.waiting <= MOST_WAITING
            && self.take(alloc, unknown, part.key, row).is_ok();
        if !is_added {
            self.forget(alloc);
        }
        is_added
    }

    /// Takes the versions of a row of a state.
    fn take(
        &mut self,
        alloc: Global,
        unknown: Unknown,
        key: StateKey,
        row: &[u8],
    ) -> Result<(), AllocError>
        ensures { self.new.waiting ≡ self.old.waiting }
    {
        match key {
            StateKey::Sil => take_all(alloc, unknown, &mut self.silences, row),
            StateKey::Nfl => take_all(alloc, unknown, &mut self.entries, row),
        }
    }

    /// Forgets the versions that came.
    fn forget(&mut self, alloc: Global)
        ensures nothing { HasNothingNew self.new }
        ensures waiting { self.new.waiting ≡ 0 }
    {
        self.silences = Held::new(alloc);
        self.entries = Held::new(alloc);
        self.waiting = 0;
    }

    /// Returns the next message, whose content isn't told again, or `None` if nothing is left to tell.
    ///
    /// # Errors
    ///
    /// [`AllocError`] if memory runs out; the content of the message is forgotten.
    pub fn next_message(
        &mut self,
        alloc: Global,
        now: Moment,
    ) -> Result<Option<Vec<u8>>, AllocError> {
        if let Some((key, row)) = self.given.pop() {
            return Ok(Some(message_with(alloc, key, &row)?));
        }
        let silences = mem::replace(&mut self.silences, Held::new(alloc));
        let mut tally = FilterTally::new(alloc);
        let message = message_of(alloc, StateKey::Sil, &silences, now, &mut tally)?;
        self.withhold(tally.withheld)?;
        if message.is_some() {
            return Ok(message);
        }
        let entries = mem::replace(&mut self.entries, Held::new(alloc));
        self.waiting = 0;
        let mut tally = FilterTally::new(alloc);
        message_of(alloc, StateKey::Nfl, &entries, now, &mut tally)
    }
}
