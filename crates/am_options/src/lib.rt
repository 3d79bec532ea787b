//! The command line: the jobs and options that it names, a member's options as text; the version.
#![tactic(auto)]

mod job;
mod options;
mod options_list;
mod process;
mod source;
mod started;
mod times;
mod words;

pub use job::{
    DiffForm, DiffJob, FoldJob, Job, MendJob, PullJob, PushJob, ShowJob, StateName, ViewForm,
};
pub use options::Options;
pub use options_list::{options_text, seconds_in};
pub use process::Process;
pub use source::{STANDARD_INPUT, SourceWord, are_live, is_file};
pub use started::Started;
pub use times::report;
pub use words::{WordsError, job_of, words_of};

/// The version of the program.
pub const VERSION: &str = "0.2.0";
