//! Silences in JSON: writing and reading them as API v2 shows them and as they are posted, and the texts of their moments.
#![tactic(auto)]

mod cut;
mod error;
mod gettable;
mod key;
pub mod laws;
mod list_error;
mod listing;
mod matchers;
pub mod moments;
mod post;
mod replies;
mod shown;
pub mod tokens;

pub use cut::cut_to_shown;
pub use error::BodyError;
pub use gettable::add_silence;
pub use key::{JsonKey, ShownKey};
pub use list_error::ListError;
pub use listing::Listing;
pub use post::read_post;
pub use replies::{write_error, write_posted, write_silence, write_silences};
pub use shown::read_silences;
