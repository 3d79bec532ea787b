//! Versions that pass a filter, looked for in stretches.

ghost use Rattle.std.specs.Prelude.{◌≡◌, IfOk, OnErr};
ghost use Rattle.am_alertmanager.specs.VersionFilters.{IsSifted, IsTallied, Passes, Withholds};

use crate::candidate::Candidate;
use crate::tally::FilterTally;
use crate::version_filter::VersionFilter;
use am_merge::Iter;
use am_snapshot::RowPiece;
use am_wire::Bytes;
use am_wire::writing::append_delimited;
use std::alloc::{AllocError, Global};

/// Returns the row of the first versions that pass, and the key of the first one that wasn't looked at. It looks at no more than
/// `count` versions, and at none once the row has `most` bytes. The tally counts the versions that pass, and records those that
/// are withheld.
///
/// # Errors
///
/// [`AllocError`] if memory runs out; the tally is that of the versions that were looked at.
#[tactic(auto, using(crate::proofs::Sifted::sifting_begins, crate::proofs::Sifted::tallied_so_far))]
pub fn sift<V: Candidate>(
    alloc: Global,
    filter: &VersionFilter<'_, V>,
    versions: Iter<'_, V>,
    count: usize,
    most: usize,
    tally: &mut FilterTally<V::Key>,
) -> Result<RowPiece<V::Key>, AllocError>
where
    V::Key: Drop,
    // PROMISE: Just the versions that pass go to the other side, in the order of their keys, each once.
    ensures sifted { IfOk result (IsSifted V.seen (Passes V.seen V.Key.cmp V.is_hazard filter.now)
        (Withholds V.seen V.Key.cmp V.is_hazard filter.now) versions.entry tally.old tally.new) }
    // PROMISE: The tally counts just the versions that pass, and notes those that are withheld, be it up to where memory runs out.
    ensures tallied { OnErr result (IsTallied (Passes V.seen V.Key.cmp V.is_hazard filter.now)
        (Withholds V.seen V.Key.cmp V.is_hazard filter.now) versions.entry tally.old tally.new) }
{
    let mut row = Vec::new(alloc);
    let mut room = count;
    for version in versions {
        if room == 0 || row.len() >= most {
            let next = version.try_key(alloc)?;
            return Ok(RowPiece {
                row: Bytes::new(row),
                next: Some(next),
            });
        }
        room -= 1;
        let passes = filter.passes(alloc, version, tally)?;
        if passes {
            tally.passed = tally.passed.saturating_add(1);
            append_delimited(&mut row, version.canonical())?;
        }
    }
    Ok(RowPiece {
        row: Bytes::new(row),
        next: None,
    })
}
