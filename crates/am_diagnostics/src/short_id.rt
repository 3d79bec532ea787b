//! Identifiers in lines.

use am_report::EscapedWord;
use std::fmt::{self, Display, Formatter};

/// The most bytes of an identifier that a line prints: all those of the identifiers that Alertmanagers and members make.
const MOST: usize = 36;

/// An identifier of a silence as a line prints it: its first 36 bytes.
#[derive(Clone, Copy, Debug)]
pub struct ShortId {
    bytes: [u8; MOST],
    count: usize,
}

impl ShortId {
    /// Returns the identifier of these bytes.
    pub fn of(id: &[u8]) -> ShortId {
        let mut bytes = [0; MOST];
        let count = id.len().min(MOST);
        bytes[..count].copy_from_slice(&id[..count]);
        ShortId { bytes, count }
    }
}

impl Display for ShortId {
    fn fmt<W: fmt::Write>(&self, f: &mut Formatter<W>) -> fmt::Result {
        let id = self.bytes.get(..self.count).unwrap_or(&[]);
        write!(f, "{}", EscapedWord(id))
    }
}
