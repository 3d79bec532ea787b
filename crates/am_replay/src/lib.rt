//! Schedules that are played on a cluster. Output is exact to the byte: the output of each line, and at the end the reports
//! on the calm of members.
#![tactic(auto)]

mod error;
mod flights;
mod input;
pub mod laws;
mod line;
mod names;
mod observer;
mod output;
mod player;
mod refusal;
mod replay;
mod replies;
mod reports;

pub use am_cluster::{CalmReport, Cluster, ClusterError, Flight, SettleError};
pub use am_report::write_view;
pub use error::ReplayError;
pub use input::read_input;
pub use line::{OutputLine, append_line};
pub use names::{decision_name, kind_name, refusal_name, yes_or_no};
pub use observer::{LineAnswer, Observer};
pub use player::play;
pub use refusal::LineRefusal;
pub use replay::{run, run_shown};
