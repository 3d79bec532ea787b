//! The items that a message is read with: its table of fields, its draft and the parts of drafts.

pub use crate::canonical::CanonicalReader;
pub use crate::encoded_version::version_from;
pub use crate::expiring::{Expiring, ExpiringDraft};
pub use crate::field::{AnyField, Schema};
pub use crate::fields::Scan;
pub use crate::lists::{LastBytes, take_numbers};
pub use crate::message_reader::{MessageReader, read_message, take_fields};
pub use crate::offset::{Offset, split_part};
pub use crate::parts::{LastNumber, LastText, Submessage, take_item};
pub use crate::timestamp::{TimestampDraft, moment_in};
