//! A row in pieces: each piece has the versions that fit, and says where the next one begins.

ghost use Rattle.std.specs.Prelude.{◌≡◌, ◌<◌, ◌+◌, ◌≤◌, ◌⊎◌, [], true, false, length, IfOk};
ghost use Rattle.am_wire.specs.Writing.{delimited};
ghost use Rattle.am_snapshot.specs.Pieces.{IsPiece};

use am_merge::Iter;
use am_version_order::Version;
use am_wire::Bytes;
use am_wire::writing::{append_delimited, delimited_length};
use std::alloc::{AllocError, Global};

/// A piece of a row.
#[derive(Drop)]
pub struct RowPiece<K> {
    pub row: Bytes,
    /// The key of the first version after the piece, if there is one.
    pub next: Option<K>,
}

/// Returns whether a piece that already has a message has no room for one more.
fn is_full(row: &[u8], content: &[u8], most: usize) -> bool
    ensures full { result ≡ true → (0 < length row.now) × (most < length row.now + length (delimited content.now)) }
    ensures room { result ≡ false → (row.now ≡ []) ⊎ (length row.now + length (delimited content.now) ≤ most) }
{
    !row.is_empty() && delimited_length(content) > (most as u64).saturating_sub(row.len() as u64)
}

/// Returns the row of as many of the first versions as fit in `most` bytes, but of at least one, however long that is. The
/// work is that of the piece, and of one more version.
///
/// # Errors
///
/// Returns [`AllocError`] if memory runs out.
pub fn row_piece<V: Version>(
    alloc: Global,
    versions: Iter<'_, V>,
    most: usize,
) -> Result<RowPiece<V::Key>, AllocError>
    ensures { IfOk result (IsPiece V.seen most versions.entry) }
{
    let mut bytes = Vec::new(alloc);
    for version in versions {
        let content = version.canonical();
        if is_full(bytes.as_slice(), content, most) {
            let next = version.try_key(alloc)?;
            return Ok(RowPiece {
                row: Bytes::new(bytes),
                next: Some(next),
            });
        }
        append_delimited(&mut bytes, content)?;
    }
    Ok(RowPiece {
        row: Bytes::new(bytes),
        next: None,
    })
}
