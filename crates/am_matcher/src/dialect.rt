//! The dialects of patterns.

/// The kind of regular expressions that patterns are.
#[derive(Clone, Copy, Debug, PartialEq, Eq)]
pub enum Dialect {
    /// The regular expressions of `regex`.
    Regex,
    /// The regular expressions of RE2 (Go's `regexp`), which Alertmanager reads. A part of them is taken, by
    /// [`re2_of`](crate::re2_of).
    Re2,
}
