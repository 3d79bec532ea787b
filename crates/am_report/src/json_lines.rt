//! Reports on silences and on entries of the log in JSON: the view of a map, and the differences of several.

mod difference;
mod entry;
mod groups;
pub mod laws;
mod shown;
mod sources;
mod tokens;
mod values;
mod view;
mod writing;

pub use values::InJson;
pub use view::write_view_json;
pub use writing::write_differences_json;
