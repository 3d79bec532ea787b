//! The two ways to compare sources.

/// The part of what sources hold that is compared.
#[derive(Clone, Copy)]
pub enum Compared {
    /// The versions that are live at the moment, which the sources show.
    Shown,
    /// All versions that the sources hold.
    Held,
}
