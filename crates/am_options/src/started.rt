//! The line that is printed of a member that has started.

use crate::options::Options;
use am_peers::{AddressWord, Peer};
use am_report::EscapedWord;
use std::fmt;

/// A member that listens, and the numbers of versions that it has loaded.
#[derive(Drop)]
pub struct Started<'a, 'b> {
    pub options: &'b Options<'a>,
    pub silences: usize,
    pub entries: usize,
}

/// Writes the names and addresses of peers.
fn write_peers<W: fmt::Write>(peers: &[Peer<'_>], f: &mut fmt::Formatter<W>) -> fmt::Result {
    for peer in peers {
        let name = EscapedWord(peer.name.as_bytes());
        let address = AddressWord(peer.address);
        write!(f, " {name}={address}")?;
    }
    if peers.is_empty() {
        write!(f, " none")?;
    }
    Ok(())
}

/// Writes the names and addresses of the Alertmanagers beside the member, if there are any.
fn write_replicas<W: fmt::Write>(replicas: &[Peer<'_>], f: &mut fmt::Formatter<W>) -> fmt::Result {
    if replicas.is_empty() {
        return Ok(());
    }
    write!(f, ", beside")?;
    write_peers(replicas, f)
}

impl fmt::Display for Started<'_, '_> {
    fn fmt<W: fmt::Write>(&self, f: &mut fmt::Formatter<W>) -> fmt::Result {
        let name = EscapedWord(self.options.name.as_bytes());
        let address = self.options.address;
        write!(f, "{name} listens on {address}")?;
        if let Some(address) = self.options.peers_address {
            write!(f, " and for frames on {address}")?;
        }
        write!(f, ", peers")?;
        write_peers(&self.options.peers, f)?;
        write_replicas(&self.options.replicas, f)?;
        let silences = self.silences;
        let entries = self.entries;
        write!(f, "; loaded {silences} silences, {entries} entries")
    }
}
