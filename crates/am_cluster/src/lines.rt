//! Lines that write versions of a state.

ghost use Rattle.std.specs.Prelude.{◌≡◌, ◌++◌, ℕ, map, IfOk, OnOk};
ghost use Rattle.am_wire.specs.Inputs.{AreMessages};
ghost use Rattle.am_wire.specs.Writing.{delimited};
ghost use Rattle.am_wire.specs.declared.unknown.Unknown.{Unknown};
ghost use Rattle.am_snapshot.specs.Encodings.{row_encoding};
ghost use Rattle.am_cluster.specs.Versions.{IsReadAgain, least};

use am_schedule::Shared;
use am_version_order::Moment;
use am_wire::writing::append_delimited;
use am_wire::{Bytes, Record};
use std::alloc::{AllocError, Global};

/// A line of a schedule that writes a version of a state.
pub(crate) trait VersionLine<V: Record>: Drop {
    /// The version that the line writes.
    ghost version_of: { Self → V };

    /// The update moment of that version.
    ghost updated_of: { Self → ℕ };

    fn updated(&self) -> Moment
        ensures { result ≡ updated_of self.now };

    /// Returns the version that the line writes.
    ///
    /// # Errors
    ///
    /// [`AllocError`] if memory runs out.
    fn version(&self, alloc: Global) -> Result<V, AllocError>
        ensures version { IfOk result (λ version. version ≡ version_of self.now) }
        ensures again { OnOk result (IsReadAgain V.seen V.reads (version_of self.now)) };
}

/// Returns the least update moment of the versions of lines.
#[tactic(auto, using(crate::proofs::Least::least_low))]
pub(crate) fn first_updated<V: Record, L: VersionLine<V>>(lines: &[Shared<L>]) -> Moment
    ensures { result ≡ least (map L.updated_of lines.now) }
{
    let mut first = Moment::GREATEST;
    for line in lines {
        first = first.min(line.get().updated());
    }
    first
}

/// Appends the version of a line to a row.
fn append<V: Record, L: VersionLine<V>>(
    alloc: Global,
    row: &mut Vec<u8>,
    line: &L,
) -> Result<(), AllocError>
    ensures row { OnOk result (row.new.items ≡ row.old.items ++ delimited (V.seen (L.version_of line.now)).content) }
    ensures again { OnOk result (IsReadAgain V.seen V.reads (L.version_of line.now)) }
{
    let version = line.version(alloc)?;
    append_delimited(row, version.canonical())
}

/// Returns the row of the versions of lines.
pub(crate) fn row<V: Record, L: VersionLine<V>>(
    alloc: Global,
    lines: &[Shared<L>],
) -> Result<Bytes, AllocError>
    ensures row { IfOk result (λ row. row ≡ row_encoding V.seen (map L.version_of lines.now)) }
    ensures read { IfOk result (λ row. (unknown : Unknown) → AreMessages (V.reads unknown) row (map L.version_of lines.now)) }
{
    let mut row = Vec::new(alloc);
    for line in lines {
        append::<V, L>(alloc, &mut row, line.get())?;
    }
    Ok(Bytes::new(row))
}
