//! The files of a state: its snapshot, its two logs and its lock; saving it as calls of a file system, and rewriting it while it
//! changes.
#![tactic(auto)]

mod batches;
mod beside;
mod compaction;
mod device;
mod disk;
mod disk_calls;
mod file_fault;
mod journal;
pub mod laws;
mod lock;
mod log;
mod log_calls;
mod log_error;
mod log_file;
mod logs;
mod memory;
mod opening;
mod paths;
mod reading;
mod recovering;
mod rewriting;
mod saving;
mod spent;
mod stages;
mod state;
mod steps;
mod system;
mod whole_file;

pub use batches::Batches;
pub use compaction::{Compaction, compact};
pub use device::Device;
pub use disk::Disk;
pub use file_fault::FileFault;
pub use journal::{Journal, repair};
pub use log_error::LogError;
pub use log_file::{Found, LogFile, Start, open_file, settle};
pub use logs::{LogFault, Logs};
pub use memory::Memory;
pub use opening::{is_own_file_there, is_there};
pub use paths::{are_one_file, target_of};
pub use reading::{FoundLogs, LogEnd, join_batches};
pub use recovering::{Recovered, load_state, recover};
pub use saving::{directory_of, save_file};
pub use state::{OpenedState, StateFile, open_state};
pub use system::{SystemDisk, SystemFile};
pub use whole_file::WholeFile;
