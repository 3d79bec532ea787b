//! The calls by which tools and people ask a member about itself, and the bytes of its replies.
#![tactic(auto)]

mod page;
mod replies;
mod routes;
mod status;

pub use replies::{metrics_reply, not_ready, page_reply, receivers_reply, well_reply};
pub use routes::{StatusCall, StatusResource, call_of, resource_of};
pub use status::{ClusterPeer, MemberStatus, Neighbor, status_reply};
