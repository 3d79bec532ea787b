//! A connection of a person, a tool or a peer over any reader and writer, and the bytes that go out to a peer.
#![tactic(auto)]

mod conversing;
mod ended;
mod sending;
mod turning;

pub use conversing::connection;
pub use ended::Ended;
pub use sending::{SendError, send};
pub use turning::turn;
