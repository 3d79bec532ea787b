//! An instance: silences and the notification log, and one step for each event.
#![tactic(auto)]

mod config;
mod event;
mod frame_sender;
mod frames;
mod handing;
mod instance;
pub mod laws;
mod notices;
mod reply;
mod requests;
mod rows;
mod views;

pub use am_gossip::{ConfigError, Place, StepError};
pub use config::Config;
pub use event::{Event, Request};
pub use frame_sender::{FrameSender, whole_state};
pub use handing::{HandedPart, Handout, names_both};
pub use instance::Instance;
pub use reply::{Made, Outcome, Reply, Unsent};
