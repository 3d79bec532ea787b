//! Deduplication: whether a group of alerts is notified, and when an instance is due to do so.
#![tactic(auto)]

mod decision;
pub mod laws;
mod wait;

pub use decision::{Decision, Reason, decide, decide_over};
pub use wait::due;
