//! A running member of a cluster: what it answers, and what it does by itself.

mod compilation;
mod counting;
mod deciding;
mod gossiping;
mod guarding;
mod hearing;
mod links;
mod pending_frames;
mod resuming;
pub(crate) mod server;
mod server_state;
mod serving;
mod start;
mod telling;

pub use start::run;
