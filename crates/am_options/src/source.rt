//! The sources of a comparison.

use am_peers::{HttpServer, server_of};

/// The file that is standard input.
pub const STANDARD_INPUT: &str = "-";

/// The prefix of a source that is a server of API v2.
const SCHEME: &str = "http://";

/// The prefix of a source that is asked by gossip.
const GOSSIP: &str = "gossip://";

/// A source: its name, and its file, or the address of a server after `http://`, or of a replica after `gossip://`.
#[derive(Clone, Copy)]
pub struct SourceWord<'a> {
    /// The name of the source.
    pub name: &'a str,
    /// The path of its file, `-`, `http://HOST:PORT` or `gossip://HOST:PORT`.
    pub file: &'a str,
}

impl<'a> SourceWord<'a> {
    /// Returns the text after `http://`, if the source is a server.
    pub fn place(&self) -> Option<&'a str> {
        self.file.strip_prefix(SCHEME)
    }

    /// Returns the server that the source is, if it is one.
    pub fn server(&self) -> Option<HttpServer<'a>> {
        server_of(self.place()?)
    }

    /// Returns the text after `gossip://`, if the source is asked by gossip.
    pub fn gossip_place(&self) -> Option<&'a str> {
        self.file.strip_prefix(GOSSIP)
    }

    /// Returns the address at which the replica listens for other replicas, if the source is asked by gossip.
    pub fn replica(&self) -> Option<HttpServer<'a>> {
        match server_of(self.gossip_place()?) {
            Some(server) if server.path.is_empty() => Some(server),
            _ => None,
        }
    }

    /// Returns whether the source is a file.
    pub fn is_file(&self) -> bool {
        self.place().is_none() && self.gossip_place().is_none() && is_file(self.file)
    }
}

/// Returns whether one of the sources is a server of API v2.
pub fn are_live(sources: &[SourceWord<'_>]) -> bool {
    sources.iter().any(|source| source.place().is_some())
}

/// Returns whether a word names a file, and not standard input.
pub fn is_file(word: &str) -> bool {
    word != STANDARD_INPUT
}
