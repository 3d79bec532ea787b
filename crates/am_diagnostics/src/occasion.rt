//! The occasion of a fault of a running member: when it is told, and of which peer.

use am_report::EscapedWord;
use am_silence_json::moments::write_moment;
use am_version_order::Moment;
use std::fmt;

/// The moment when a fault is told, and the peer that it is about, if these are known.
#[derive(Clone, Copy)]
pub struct Occasion<'a> {
    /// The peer's name.
    pub peer: Option<&'a str>,
    /// The moment of the line.
    pub moment: Option<Moment>,
}

/// The number of bytes of a moment's text before the fraction of its second.
const TO_SECOND: usize = 19;

/// Writes a moment to the second, as RFC 3339 has it.
fn write_second<W: fmt::Write>(moment: Moment, f: &mut fmt::Formatter<W>) -> fmt::Result {
    let text = write_moment(moment);
    f.write_str(text.as_str().get(..TO_SECOND).unwrap_or(""))?;
    f.write_str("Z")
}

/// An occasion is printed in parentheses, after a blank, or as nothing if nothing is known.
impl fmt::Display for Occasion<'_> {
    fn fmt<W: fmt::Write>(&self, f: &mut fmt::Formatter<W>) -> fmt::Result {
        match (self.peer, self.moment) {
            (Some(peer), Some(moment)) => {
                write!(f, " (peer {}, ", EscapedWord(peer.as_bytes()))?;
                write_second(moment, f)?;
                f.write_str(")")
            }
            (None, Some(moment)) => {
                f.write_str(" (")?;
                write_second(moment, f)?;
                f.write_str(")")
            }
            (Some(peer), None) => write!(f, " (peer {})", EscapedWord(peer.as_bytes())),
            (None, None) => Ok(()),
        }
    }
}
