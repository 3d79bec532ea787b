//! The format of lines that tell differences.

use am_version_order::Moment;

/// The format in which the lines of differences tell versions.
#[derive(Clone, Copy)]
pub struct LineFormat {
    /// The moment of the states that are shown.
    pub moment: Moment,
    /// True if the sources say when a version may be forgotten, which is then `gone`. API v2 doesn't: whatever has ended is
    /// `expired`.
    pub has_expiries: bool,
    /// True if details follow below the line of a version.
    pub is_long: bool,
}
