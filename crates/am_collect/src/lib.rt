//! Keepers of versions, which drop those that aren't live, and the laws of calm events, after which a map shows the same as if it
//! had dropped nothing.
#![tactic(auto)]

mod keeper;
pub mod laws;

pub use keeper::{Keeper, KeeperError, Step, Stepped};
