//! Push/pull messages of hashicorp/memberlist, protocol version 2, by which running Alertmanagers tell one another all that
//! they hold: writing requests, reading answers, and writing messages that tell of one state. Answers are compressed with LZW:
//! codes of 9 to 12 bits, the lowest bit of a byte first, as Go's `compress/lzw` writes it and GIF specifies it (GIF89a,
//! appendix F).
#![tactic(auto)]

mod answer;
mod codes;
mod error;
pub mod laws;
mod lzw_error;
pub mod lzw_laws;
mod msgpack;
mod number;
mod request;
mod rows;
mod searching;
mod table;
mod text;
mod unpacking;
mod words;

pub use answer::{Answer, MOST_NODES, Said, read_message, unpack_answer};
pub use error::AnswerError;
pub use lzw_error::LzwError;
pub use request::{request_encoding, told_encoding};
pub use rows::{part_encoding, row_in, states_encoding};
pub use searching::{RowSearch, SearchStretch};
pub use unpacking::{Stretch, Unpacking, unpack};
