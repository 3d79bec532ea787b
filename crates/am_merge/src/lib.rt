//! A map of the greatest version of each key, and the lists in blocks on which its indexes are built.
#![tactic(auto)]

pub mod blocks;
mod builder;
mod bulk;
mod changes;
mod entry;
mod held;
mod iter;
pub mod laws;
mod orders;
mod store;

pub use builder::HeldBuilder;
pub use held::{FromVersionsError, Held, MergeError, Taken};
pub use iter::{InBucket, Iter};
