//! The commands over snapshots and rows: one is shown, many are folded or compared, and a running replica's
//! state is read, or mended.
#![tactic(auto)]

mod diff;
mod fault;
mod figures;
mod fold;
mod host;
mod live;
mod losses;
mod mend;
mod mending;
mod moment;
mod opened;
mod pull;
mod push;
mod replica;
mod show;
mod source;

pub use diff::run_diff;
pub use fold::run_fold;
pub use host::{CommandRuntime, Streams};
pub use mend::run_mend;
pub use pull::run_pull;
pub use push::run_push;
pub use show::run_show;
