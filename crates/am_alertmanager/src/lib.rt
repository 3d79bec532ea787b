//! The Alertmanagers beside a member: when each is asked, its answers as frames, which versions it lacks and takes, and why it
//! refused one.
#![tactic(auto)]

mod answer_state;
mod candidate;
mod given;
pub mod laws;
mod mending;
mod pending_versions;
mod reading;
mod refused;
mod replica;
mod replicas;
mod reports;
mod rounds;
mod sifting;
mod tally;
mod told;
mod version_filter;
mod work;

pub use candidate::Candidate;
pub use given::{is_given, takes};
pub use mending::{is_lacked, lacked};
pub use pending_versions::PendingVersions;
pub use reading::{begin_row, read_some};
pub use refused::{Refused, why_refused};
pub use replicas::{Came, Replicas};
pub use reports::WithheldSilence;
pub use sifting::sift;
pub use tally::{FilterTally, Withheld};
pub use told::{Telling, ToldRows};
pub use version_filter::VersionFilter;
