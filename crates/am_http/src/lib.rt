//! HTTP/1.1 for the calls on silences: requests in the bytes that have come, the calls that they make, and the bytes of replies,
//! read from any reader.
#![tactic(auto)]

mod cause;
mod fields;
mod filters;
mod head;
mod hosts;
pub mod laws;
mod progress;
mod refusal;
mod replies;
mod request;
mod routes;
pub mod session;

pub use cause::{Cause, Resource};
pub use filters::filter_texts;
pub use hosts::{Foreign, Screened, screen};
pub use refusal::Refusal;
pub use replies::{bare_reply, out_of_memory, reply};
pub use request::{Read, Request, read_request};
pub use routes::{Call, call_of};
