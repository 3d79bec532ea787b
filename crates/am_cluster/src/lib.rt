//! A cluster of instances: their steps, the frames between them, the journal of the run so far, and the questions that the
//! cluster answers.
#![tactic(auto)]

pub mod carried;
mod cluster;
mod durable;
mod error;
mod events;
mod flight;
mod groups;
pub mod journal;
pub mod laws;
mod line_events;
pub mod line_laws;
mod lines;
mod lives;
mod log;
mod member;
mod recording;
mod refusals;
mod resolved_event;
mod sending;
mod sent;
mod settle;
mod silences;
pub mod step_laws;
mod steps;
mod texts;
mod writing;
mod written;

pub use cluster::Cluster;
pub use error::{ClusterError, SettleError};
pub use flight::Flight;
pub use journal::CalmReport;
pub use line_events::to_event;
pub use resolved_event::ResolvedEvent;
