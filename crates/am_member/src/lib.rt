//! A member of a cluster, which answers what its connections say.
#![tactic(auto)]

mod ahead;
mod answering;
mod deferring;
mod keeping;
pub mod laws;
mod pattern_compilation;
mod pattern_set;
mod sender;
mod session_answer;
mod steps;
mod unkept;

pub use ahead::PatternsAhead;
pub use answering::{apply_session_output, is_list_request};
pub use deferring::{Deferred, defer_requests};
pub use pattern_compilation::{Judged, PatternCompilation};
pub use session_answer::{SessionAnswer, StepEffects};
