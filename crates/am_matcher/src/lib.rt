//! Matchers, verdicts on them, filters and mutes, with the regular expressions of `regex`.
#![tactic(auto)]

mod cache;
mod compiled;
mod counting;
mod dialect;
mod entries;
mod filter;
mod filter_text;
mod gathering;
mod hazard;
mod judged;
mod kept;
mod label_names;
mod labels;
pub mod laws;
mod muted;
mod muting;
mod pieces;
mod re2;
mod search;
mod whole;

pub use cache::{PatternCache, Prepared};
pub use compiled::{BuildError, Compiled};
pub use dialect::Dialect;
pub use filter::{Filter, FilterError};
pub use hazard::{Hazard, hazard_of};
pub use judged::verdict;
pub use labels::{Label, Labels};
pub use muted::{Ids, Mutes};
pub use muting::mutes;
pub use re2::{Re2Error, re2_of};
