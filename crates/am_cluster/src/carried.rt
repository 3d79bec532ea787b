//! The versions that a frame carries: how they are read and split by their state, and that a frame that was written of versions
//! carries just these.

pub mod laws;
mod reading;
mod split_versions;
mod version;

pub use reading::versions_in_frame;
pub use split_versions::SplitVersions;
pub use version::AnyVersion;
