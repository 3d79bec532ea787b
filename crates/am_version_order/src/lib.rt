//! Moments, and the order in which the versions of one key replace each other.
#![tactic(auto)]

mod heads;
pub mod laws;
mod moment;
mod values;
mod version;

pub use heads::head_of_text;
pub use moment::{Interval, Moment};
pub use values::versions_are_values;
pub use version::Version;
