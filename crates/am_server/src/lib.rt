//! The state of each connection of a member between two turns of the loop, and the proof that the history of the loop is a life of
//! the member.
#![tactic(auto)]

mod connection_state;
mod counting;
mod member_service;
mod refusals;
mod room;
mod state_transfer;
mod timers;
mod turns;

pub use connection_state::{
    CallProgress, ConnectionState, ConnectionWork, PendingDecision, ends_pull, is_nothing,
    may_change,
};
pub use counting::{RequestRecord, StateCount, asked_of_itself, request_of};
pub use member_service::{MemberService, run};
pub use refusals::{out_of_memory, patterns_too_large, state_too_large, too_many_patterns};
pub use room::{frame_bytes, log_said, post_bytes, request_bytes, silences_said};
pub use state_transfer::{StateTransfer, TransferKind};
pub use timers::{Intervals, Timers};
pub use turns::{Due, Turn, TurnStage, Turns, Wait, is_call, is_long};
