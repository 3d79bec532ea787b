//! The search for the row of a state in a replica's full state, in stretches.

ghost use Rattle.std.specs.Prelude.{◌≡◌, ◌≢◌, ◌+◌, ◌<◌, ◌^◌, ℕ, List, Err, drop, length, IfOk, IfErr};
ghost use Rattle.am_wire.specs.Fields.{field_of};
ghost use Rattle.am_memberlist.specs.Answers.{GivesUnlessMemory};
ghost use Rattle.am_memberlist.specs.Rows.{row_in, with_part};
ghost use Rattle.am_memberlist.specs.Searches.{row_after, row_from};
ghost use Rattle.am_memberlist.specs.Seen.{owned_seen, row_owned};
ghost use Rattle.am_memberlist.specs.declared.error.AnswerError.TheVariants.{Memory};

use crate::error::AnswerError;
use crate::rows::{PartFields, part_row};
use am_gossip::StateKey;
use am_wire::reading::Scan;
use am_wire::{Field, Value};
use std::alloc::Global;

/// A search for the row of a state in a full state.
#[derive(Drop)]
pub struct RowSearch {
    key: StateKey,
    /// The offset of the first field that hasn't been looked at.
    at: usize,
    /// The row, if a field before that offset has it.
    found: Option<Vec<u8>>,
}

/// The result of a stretch.
#[derive(Drop)]
pub enum SearchStretch {
    /// The row, or `None` if there is no such state. All fields have been looked at.
    Found(Option<Vec<u8>>),
    /// The search goes on from here.
    Left(RowSearch),
}

/// Returns the bytes from an offset on.
fn bytes_from(bytes: &[u8], at: usize) -> &[u8]
    ensures value { result.now ≡ drop at bytes.now }
    ensures within { at + length result.now < 2 ^ 64 }
{
    if at < bytes.len() { &bytes[at..] } else { &[] }
}

/// Returns the row found before, or else that of the part in a field.
fn with_row(
    alloc: Global,
    found: Option<Vec<u8>>,
    field: Field<'_>,
    key: StateKey,
) -> Result<Option<Vec<u8>>, AnswerError>
    ensures { GivesUnlessMemory (owned_seen result) (with_part key (row_owned found) (field_of field.entry)) }
{
    let (1, Value::Bytes(bytes)) = (field.number, field.value) else {
        return Ok(found);
    };
    match (found, part_row(alloc, bytes, field.inside, key)?) {
        (Some(_), Some(_)) => Err(AnswerError::Twice),
        (None, Some(row)) => Ok(Some(row.to_vec(alloc)?)),
        (found, None) => Ok(found),
    }
}

impl RowSearch {
    /// Returns a search for the row of a state, before the first field.
    #[tactic(auto, unfolding(crate::specs::Searches::row_from, crate::specs::Rows::row_in))]
    pub fn new(key: StateKey) -> RowSearch
        ensures { (states : List ℕ) → row_from states result ≡ row_in key states }
    {
        RowSearch {
            key,
            at: 0,
            found: None,
        }
    }

    /// Looks at the fields of the full state that begin in its next `most` bytes. However it is cut into stretches, the search
    /// finds what [`crate::row_in`] finds.
    ///
    /// # Errors
    ///
    /// Returns the errors of [`crate::row_in`].
    pub fn resume(
        self,
        alloc: Global,
        states: &[u8],
        most: usize,
    ) -> Result<SearchStretch, AnswerError>
        // PROMISE: Stretches find the row of a state as one call does.
        ensures found { IfOk result (λ stretch. row_after states.now stretch ≡ row_from states.now self) }
        ensures fault { IfErr result (λ e. e ≢ Memory → row_from states.now self ≡ Err e) }
    {
        let RowSearch { key, at, found } = self;
        let mut found = found;
        let end = at.saturating_add(most);
        for field in Scan::<PartFields>::within(bytes_from(states, at), at) {
            let field = field?;
            if end <= field.at {
                let at = field.at;
                return Ok(SearchStretch::Left(RowSearch { key, at, found }));
            }
            found = with_row(alloc, found, field, key)?;
        }
        Ok(SearchStretch::Found(found))
    }
}
