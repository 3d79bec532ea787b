//! Texts of moments: date-times of RFC 3339.

mod clock;
mod digits;
mod fraction;
pub mod laws;
mod read;
mod write;
mod zone;

pub use read::read_moment;
pub use write::{MomentText, write_moment};
