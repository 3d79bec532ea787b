//! Cases of everything below an instance. Each function `answer` passes the verbs that aren't its own on to the next one.

mod figures;
mod frames;
mod gossip;
mod json;
mod maps;
mod matchers;
mod messages;
mod patterns;
mod requests;
mod seals;
mod snapshots;
mod versions;
mod wire;

pub use crate::parts::frames::print_frame;
pub use crate::parts::wire::answer;
