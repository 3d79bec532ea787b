//! The wire format: varints, fields, messages and rows.
#![tactic(auto)]

mod ascii;
mod bytes;
mod canonical;
mod delimited;
mod encoded_version;
mod error;
mod expiring;
mod field;
mod fields;
mod input;
pub mod laws;
mod lists;
mod message;
mod message_reader;
mod messages;
mod offset;
mod output;
mod parts;
mod reader;
pub mod reading;
mod record;
mod rows;
mod size;
mod text;
mod timestamp;
mod unknown;
mod value;
mod varint;
pub mod writing;

pub use bytes::Bytes;
pub use encoded_version::{EncodedVersion, FromEncoding};
pub use error::WireError;
pub use fields::Fields;
pub use input::{Stop, fill, read_some};
pub use message::Message;
pub use messages::Messages;
pub use output::{WriteFault, send};
pub use reader::{RowFault, RowPosition, RowReader};
pub use record::Record;
pub use rows::{MOST_MESSAGE_BYTES, Rows};
pub use text::Text;
pub use unknown::{Unknown, UnknownFields};
pub use value::{Field, Value, WireType};
pub use varint::{VarintBytes, read_varint, write_varint};
