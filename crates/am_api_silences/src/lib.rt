//! The silences of API v2, from the bytes of a request to the bytes of its reply: the event that a request means, one step of an
//! instance, and the answer.
#![tactic(auto)]

mod answering;
mod events;
mod filters;
mod list_filter;
mod patterns;
mod replies;
mod reply_builder;
mod serving;
mod table;

pub use am_http::{Read, Refusal, Request, read_request};
pub use answering::{Answered, PendingAnswer, answer, begin_answer, refuse};
pub use events::to_event;
pub use patterns::patterns_of;
pub use replies::{ResponseBytes, to_bytes};
pub use reply_builder::ReplyBuilder;
pub use serving::{ServeFault, Served, serve};
