//! The backend of a member: the member's own steps, its files and logs, the lines that it prints, what it counts, and the
//! frames that wait for peers.
#![tactic(auto)]

mod backend;
mod commit_state;
mod compaction;
mod counting;
mod host;
mod loading;
mod logging;
mod room;
mod saving;
mod sending;
mod system_backend;

pub use backend::{Backend, Incoming};
pub use commit_state::{CommitState, DISK};
pub use counting::Counted;
pub use host::MemberRuntime;
pub use loading::{config_of, secret_of};
pub use room::FileRoom;
pub use sending::lock_of;
pub use system_backend::{SystemBackend, place_of, sooner};
