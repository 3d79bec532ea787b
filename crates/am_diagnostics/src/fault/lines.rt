//! Faults of the libraries, as their names and numbers.

use am_memberlist::{AnswerError, LzwError};
use am_peers::AddressWord;
use am_reactor::LinkFault;
use am_snapshot::SnapshotError;
use std::fmt::{self, Display, Formatter};
use std::io::ErrorKind;
use std::net::SocketAddr;

/// Writes a name and a number.
fn numbered<W: fmt::Write, N: Display + Drop>(
    f: &mut Formatter<W>,
    name: &str,
    number: N,
) -> fmt::Result {
    write!(f, "{name} {number}")
}

/// Writes the words for a fault of an Alertmanager's answer.
pub fn write_answer_error<W: fmt::Write>(error: &AnswerError, f: &mut Formatter<W>) -> fmt::Result {
    match *error {
        AnswerError::Nothing => f.write_str("Gossip Nothing"),
        AnswerError::Kind(kind) => numbered(f, "Gossip Kind", kind),
        AnswerError::Cut => f.write_str("Gossip Cut"),
        AnswerError::Form => f.write_str("Gossip Form"),
        AnswerError::Compression(way) => numbered(f, "Gossip Compression", way),
        AnswerError::Nodes => f.write_str("Gossip Nodes"),
        AnswerError::Length => f.write_str("Gossip Length"),
        AnswerError::Unpacking(LzwError::Cut) => f.write_str("Gossip Lzw Cut"),
        AnswerError::Unpacking(LzwError::Code) => f.write_str("Gossip Lzw Code"),
        AnswerError::Unpacking(LzwError::TooLong) => f.write_str("Gossip Lzw TooLong"),
        AnswerError::Wire(error) => write!(f, "Gossip {error}"),
        AnswerError::Twice => f.write_str("Gossip Twice"),
        AnswerError::Error => f.write_str("Gossip Error"),
        AnswerError::NoState => f.write_str("Gossip NoState"),
        AnswerError::Row(error) => write!(f, "{}", SnapshotError::from(error)),
        AnswerError::Unpacking(LzwError::Memory) | AnswerError::Memory => f.write_str("Memory"),
    }
}

/// The address of a peer, or 0 if none is known.
#[derive(Clone, Copy)]
struct PeerWord(Option<SocketAddr>);

impl Display for PeerWord {
    fn fmt<W: fmt::Write>(&self, f: &mut Formatter<W>) -> fmt::Result {
        match self.0 {
            Some(address) => write!(f, "{}", AddressWord(address)),
            None => f.write_str("0"),
        }
    }
}

/// Writes the words for a fault of the link to a peer.
pub fn write_link_fault<W: fmt::Write>(
    fault: &LinkFault,
    address: &Option<SocketAddr>,
    f: &mut Formatter<W>,
) -> fmt::Result {
    let peer = PeerWord(*address);
    match *fault {
        LinkFault::Connect(kind) => write!(f, "Connect {kind:?} {peer}"),
        LinkFault::Write { written, .. } | LinkFault::Time { written } => {
            write!(f, "Send Write {peer} {written}")
        }
        LinkFault::Read { read, .. } => write!(f, "Send Read {peer} {read}"),
        LinkFault::Unanswered { read } => write!(f, "Send Challenge {peer} {read}"),
        LinkFault::TooLong => numbered(f, "Send TooLarge", peer),
        LinkFault::Full => numbered(f, "Send Full", peer),
        LinkFault::Memory => numbered(f, "Send Memory", peer),
        LinkFault::NoPeer => numbered(f, "Send NoPeer", peer),
    }
}

/// Writes the words for an address at which nobody can be heard.
pub fn write_listen_fault<W: fmt::Write>(
    kind: &ErrorKind,
    address: &SocketAddr,
    f: &mut Formatter<W>,
) -> fmt::Result {
    let address = AddressWord(*address);
    write!(f, "Listen {kind:?} {address}")
}
