//! Held versions as a row of messages: its length, the row in memory, and how it is written and read again.
#![tactic(auto)]

mod counting_writer;
mod error;
mod folding;
mod in_memory;
pub mod laws;
mod loading;
mod pieces;
mod reading;
mod saving;
mod sorting;

pub use error::{FoldError, SnapshotError};
pub use folding::fold;
pub use in_memory::{row_bytes, row_length, row_length_within};
pub use loading::{load, load_bytes, load_within};
pub use pieces::{RowPiece, row_piece};
pub use reading::{take_row, take_row_within};
pub use saving::{save, save_within};
pub use sorting::sort_row;
