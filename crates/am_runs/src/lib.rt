//! Runs of a cluster of replicas: the effect of each step on the versions of one type, and answers to whether a member is calm
//! and whether the run keeps a spread and a flight time.
#![tactic(auto)]

mod calm;
pub mod laws;
mod member_index;
pub mod plain;
mod run;
mod running;
mod spans;
mod step;
mod timely;

pub use run::Run;
pub use step::{DeliverySource, RunStep};
