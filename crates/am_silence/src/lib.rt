//! Silences: reading, writing and comparing them, and the versions that posting and ending one makes.
#![tactic(auto)]

mod bucket;
mod canonical;
mod checks;
mod comment;
mod encoded_silence;
mod error;
mod ids;
mod iter;
mod matcher;
mod matchers;
mod mesh;
mod offsets;
mod plan;
mod record;
mod silence;
mod sizes;
mod state;
mod update;
mod versions;

pub use checks::refused_unread;
pub use encoded_silence::EncodedSilence;
pub use error::SilenceError;
pub use ids::{IdText, fresh_id};
pub use iter::MatcherIter;
pub use matcher::{Matcher, MatcherDraft, MatcherKind, MatcherRef};
pub use matchers::Matchers;
pub use mesh::{KNOWN_FIELDS, MeshSilence};
pub use plan::{Plan, Posted, Verdict, plan_expire, plan_post};
pub use silence::Silence;
pub use state::{State, state_at};
