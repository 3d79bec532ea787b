//! Schedules: texts that say, line by line, what happens in a cluster and when.
#![tactic(auto)]

mod cluster;
mod error;
mod events;
mod form;
mod hash_list;
mod items;
pub mod laws;
mod line;
mod lists;
mod numbers;
mod reader;
mod schedule;
mod shared;
mod step;
mod table;
mod text;
mod times;
mod versions;
mod word;

pub use error::{FaultKind, ScheduleError};
pub use hash_list::HashList;
pub use items::Items;
pub use schedule::{Schedule, parse};
pub use shared::Shared;
pub use step::{
    Action, GroupLine, Line, LineEvent, LogLine, Pair, PostLine, SilenceLine, Step, VersionLine,
    Versions,
};
pub use word::Word;
