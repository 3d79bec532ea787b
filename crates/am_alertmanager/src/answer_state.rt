//! One state of an answer: it is read, what the member lacks of it comes in, and what the replica is given is gathered, all in
//! stretches.

use crate::candidate::Candidate;
use crate::reading::{begin_row, read_some};
use crate::sifting::sift;
use crate::tally::FilterTally;
use crate::version_filter::VersionFilter;
use am_gossip::{Part, StateKey};
use am_memberlist::AnswerError;
use am_merge::{Held, Iter};
use am_report::{Losses, MessageKind};
use am_snapshot::RowPiece;
use am_version_order::{Moment, Version};
use am_wire::{Message, RowFault, RowReader, Unknown};
use std::alloc::{AllocError, Global};
use std::mem;

/// The maximum number of versions that are compared with what the member holds in a stretch.
const COUNT: usize = 1_000;

/// The number of versions that are read between two looks at how many bytes they have.
const COUNT_OF_GROUP: usize = 8;

/// The maximum number of such groups in a stretch.
const MOST_GROUPS: usize = 125;

/// The maximum number of versions judged in a stretch for what the replica is given: patterns of those that it lacks are
/// compiled.
const MOST_JUDGED: usize = 100;

/// The number of bytes of rows that ends a stretch.
const MOST_OF_STRETCH: usize = 1_048_576;

/// The progress of a state.
#[derive(Drop)]
enum AnswerStage<K> {
    Reading,
    /// The versions that the member lacks come in, from this key on, or from the first if there is none.
    Taking(Option<K>),
    /// The versions that the replica is given are gathered, likewise.
    Giving(Option<K>),
    Done,
}

/// One state of an answer.
#[derive(Drop)]
pub struct AnswerState<V: Candidate + Message>
where
    V::Key: Drop,
{
    key: StateKey,
    rows: RowReader<V>,
    /// The number of bytes of the row that were read.
    read: usize,
    /// The versions of the replica that have been read.
    held: Held<V>,
    stage: AnswerStage<V::Key>,
    given: Vec<u8>,
    /// The tally of the versions that the replica would be given, since it was last taken.
    tally: FilterTally<V::Key>,
    /// The number of smaller messages that lost fields, since it was last taken.
    dropped: u64,
}

/// The member's own state beside one of an answer: the versions that it holds, its policy for unknown fields, and the moment.
#[derive(Drop)]
pub struct OwnState<'a, V: Version> {
    pub held: &'a Held<V>,
    pub unknown: Unknown,
    pub now: Moment,
}

/// Returns the number of matchers, receivers and moments in the versions of a row that have fields which aren't known.
fn count_dropped(alloc: Global, key: StateKey, row: &[u8]) -> Result<u64, AllocError> {
    let kind = match key {
        StateKey::Sil => MessageKind::Silence,
        StateKey::Nfl => MessageKind::Entry,
    };
    let mut losses = Losses::none(alloc);
    losses.add_row(kind, row)?;
    Ok(losses.parts.messages())
}

/// Returns the versions of a map that are left, from a key on if there is one.
fn left_of<'a, V: Version>(held: &'a Held<V>, from: Option<&V::Key>) -> Iter<'a, V> {
    match from {
        Some(key) => held.iter_from(key),
        None => held.iter(),
    }
}

impl<V: Candidate + Message> AnswerState<V>
where
    V::Key: Drop,
{
    /// Returns a state of which nothing is read yet.
    pub fn new(alloc: Global, key: StateKey) -> AnswerState<V> {
        let (rows, held) = begin_row(alloc);
        AnswerState {
            key,
            rows,
            read: 0,
            held,
            stage: AnswerStage::Reading,
            given: Vec::new(alloc),
            tally: FilterTally::new(alloc),
            dropped: 0,
        }
    }

    /// Returns the tally of the versions that the replica would be given, since it was last taken.
    pub fn take_tally(&mut self, alloc: Global) -> FilterTally<V::Key> {
        mem::replace(&mut self.tally, FilterTally::new(alloc))
    }

    /// Returns the number of smaller messages that lost fields since this was last called.
    pub fn take_dropped(&mut self) -> u64 {
        mem::replace(&mut self.dropped, 0)
    }

    /// Returns whether nothing is left to do.
    pub fn is_done(&self) -> bool {
        matches!(self.stage, AnswerStage::Done)
    }

    /// Takes the row of what the replica is given, which is then gathered anew.
    pub fn take_given(&mut self, alloc: Global) -> (StateKey, Vec<u8>) {
        (self.key, mem::replace(&mut self.given, Vec::new(alloc)))
    }

    /// Does another stretch of the state with this row, beside the member's own, and returns what comes in.
    ///
    /// # Errors
    ///
    /// [`AnswerError::Row`] and [`AnswerError::Memory`]; nothing is left then.
    pub fn resume(
        &mut self,
        alloc: Global,
        row: &[u8],
        own: &OwnState<'_, V>,
    ) -> Result<Option<Part>, AnswerError> {
        match mem::replace(&mut self.stage, AnswerStage::Done) {
            AnswerStage::Reading => {
                self.read_on(alloc, own.unknown, row)?;
                Ok(None)
            }
            AnswerStage::Taking(from) => Ok(self.take_on(alloc, own.held, from)?),
            AnswerStage::Giving(from) => {
                self.give_on(alloc, own, from)?;
                Ok(None)
            }
            AnswerStage::Done => Ok(None),
        }
    }

    /// Reads a stretch of the row.
    fn read_on(&mut self, alloc: Global, unknown: Unknown, row: &[u8]) -> Result<(), AnswerError> {
        let begun = self.read;
        self.stage = AnswerStage::Reading;
        for _ in 0..MOST_GROUPS {
            if self.read_group(alloc, unknown, row)? {
                self.stage = AnswerStage::Taking(None);
                break;
            }
            if self.read.saturating_sub(begun) >= MOST_OF_STRETCH {
                break;
            }
        }
        Ok(())
    }

    /// Reads the next versions of the row, and returns whether it has ended.
    fn read_group(
        &mut self,
        alloc: Global,
        unknown: Unknown,
        row: &[u8],
    ) -> Result<bool, AnswerError> {
        let all = row.get(self.read..).unwrap_or(&[]);
        let mut left = all;
        let has_ended = match read_some(
            unknown,
            &mut self.rows,
            &mut left,
            &mut self.held,
            COUNT_OF_GROUP,
        ) {
            Ok(has_ended) => has_ended,
            Err(RowFault::Memory) => return Err(AnswerError::Memory),
            Err(fault) => return Err(AnswerError::Row(fault)),
        };
        self.read = row.len().saturating_sub(left.len());
        if unknown == Unknown::Keep
            && let Some(read) = all.get(..all.len().saturating_sub(left.len()))
        {
            let count = count_dropped(alloc, self.key, read)?;
            self.dropped = self.dropped.saturating_add(count);
        }
        Ok(has_ended)
    }

    /// Looks for what the member lacks.
    fn take_on(
        &mut self,
        alloc: Global,
        own: &Held<V>,
        from: Option<V::Key>,
    ) -> Result<Option<Part>, AllocError> {
        let left = left_of(&self.held, from.as_ref());
        let mut lacked = FilterTally::new(alloc);
        let RowPiece { row, next } = sift(
            alloc,
            &VersionFilter::Lacked(own),
            left,
            COUNT,
            MOST_OF_STRETCH,
            &mut lacked,
        )?;
        self.stage = match next {
            Some(key) => AnswerStage::Taking(Some(key)),
            None => AnswerStage::Giving(None),
        };
        if row.as_slice().is_empty() {
            return Ok(None);
        }
        Ok(Some(Part {
            key: self.key,
            bytes: row,
        }))
    }

    /// Looks for what the replica is given.
    fn give_on(
        &mut self,
        alloc: Global,
        own: &OwnState<'_, V>,
        from: Option<V::Key>,
    ) -> Result<(), AllocError> {
        let left = left_of(own.held, from.as_ref());
        let filter = VersionFilter::Given(&self.held, own.now);
        let tally = &mut self.tally;
        let RowPiece { row, next } = sift(
            alloc,
            &filter,
            left,
            MOST_JUDGED,
            MOST_OF_STRETCH,
            tally,
        )?;
        self.given.extend_from_slice(row.as_slice())?;
        self.stage = match next {
            Some(key) => AnswerStage::Giving(Some(key)),
            None => AnswerStage::Done,
        };
        Ok(())
    }
}
