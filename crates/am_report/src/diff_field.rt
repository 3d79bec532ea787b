//! The parts of the order of versions.

/// The part of the order, of three, by which one version is less than another.
#[derive(Clone, Copy)]
pub enum DiffField {
    /// The update moment.
    Update,
    /// The expiry; the update moments are equal.
    Expiry,
    /// The canonical bytes; both moments are equal.
    Bytes,
}
