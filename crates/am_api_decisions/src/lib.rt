//! Decisions on groups of alerts, from the bytes of a request to the bytes of its reply: the questions of requests, the steps of
//! an instance that are made for them, and the answers.
#![tactic(auto)]

mod alert;
mod alerts;
mod answer;
mod bodies;
mod cause;
mod deciding;
mod entries;
mod error;
mod find;
mod group;
mod hashes;
mod key;
mod labels;
pub mod laws;
mod message;
mod messages;
mod notice;
mod noticing;
mod parsed_call;
mod recent;
mod repeat;
mod replies;
mod reply_bytes;
mod routes;
mod settling;
mod table;
mod tally;
mod terms;
mod timing;
mod words;
mod writing;
mod xxhash;

pub use alert::alert_hash;
pub use answer::{DecisionReply, Muted, ReasonedReply, Why};
pub use cause::{DecisionCause, DecisionResource, QueryWord};
pub use deciding::Deciding;
pub use entries::{LogWriting, begin_log};
pub use error::MessageError;
pub use hashes::HashText;
pub use key::MessageKey;
pub use message::{Alert, WebhookMessage, read_message};
pub use notice::{Notice, read_notice};
pub use noticing::log_notice;
pub use parsed_call::{ParsedCall, Question, parse_call};
pub use recent::RecentAlerts;
pub use repeat::Repeat;
pub use reply_bytes::{write_answer, write_logged};
pub use routes::{DecisionCall, call_of, is_for_decisions};
pub use terms::{Terms, terms_in};
pub use timing::Timing;
pub use writing::add_labels;
pub use xxhash::xxh64;
