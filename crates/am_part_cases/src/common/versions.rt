//! Values that words spell, and versions of either state, which are given and printed as their bytes (docs/CASES.md).

use crate::common::case::Case;
use crate::common::words::cut;
use am_matcher::Label;
use am_merge::Held;
use am_nflog::MeshEntry;
use am_silence::{MeshSilence, Silence};
use am_version_order::{Moment, Version};
use am_wire::reading::{AnyField, Scan};
use am_wire::{Message, Text, Value, WireError};

/// A value that words spell.
pub trait Spelled: Sized + Drop {
    /// Reads the value. Returns `None` if memory runs out or the words spell none.
    fn spelled(case: &Case, words: &str) -> Option<Self>;
}

impl Spelled for Text {
    fn spelled(case: &Case, word: &str) -> Option<Text> {
        Some(case.text(if word == "-" { "" } else { word }))
    }
}

impl Spelled for Label {
    fn spelled(case: &Case, word: &str) -> Option<Label> {
        let (name, value) = cut(word, "=");
        let (name, value) = (case.text(name), case.value(value));
        Some(Label { name, value })
    }
}

/// A value that is printed as cases name it.
pub trait Printed {
    fn print(&self, case: &Case);
}

/// A version that is given and printed as its bytes.
pub trait CaseVersion: Version + Message + Spelled + Printed {}

impl<V: Version + Message + Spelled + Printed> CaseVersion for V {}

impl Spelled for MeshSilence {
    fn spelled(case: &Case, pairs: &str) -> Option<MeshSilence> {
        case.message(case.bytes(pairs).as_slice())
    }
}

impl Printed for MeshSilence {
    fn print(&self, case: &Case) {
        case.print_bytes("", self.canonical(), "");
    }
}

impl Spelled for MeshEntry {
    fn spelled(case: &Case, pairs: &str) -> Option<MeshEntry> {
        case.message(case.bytes(pairs).as_slice())
    }
}

impl Printed for MeshEntry {
    fn print(&self, case: &Case) {
        case.print_bytes("", self.canonical(), "");
    }
}

impl Case {
    /// Reads a message.
    fn message<M: Message>(&self, bytes: &[u8]) -> Option<M> {
        self.sound(M::decode(self.alloc, bytes), WireError::Memory)
    }

    /// Reads the silence of a version, which comes first in its bytes.
    pub fn silence(&self, pairs: &str) -> Option<Silence> {
        let bytes = self.bytes(pairs);
        match Scan::<AnyField>::new(bytes.as_slice()).next() {
            Some(Ok(field)) => match field.value {
                Value::Bytes(bytes) => self.message(bytes),
                _ => self.wanted(None),
            },
            _ => self.wanted(None),
        }
    }

    /// Reads the values of a text with a mark between them; an empty text has none.
    pub fn list<T: Spelled>(&self, text: &str, mark: &str) -> Vec<T> {
        let mut list = Vec::new(self.alloc);
        for words in text.split(mark) {
            if !words.is_empty()
                && self.is_fine()
                && let Some(value) = T::spelled(self, words)
            {
                self.push(&mut list, value);
            }
        }
        list
    }

    /// Prints each of these versions on a line.
    pub fn say_versions<V: CaseVersion>(&self, versions: &[V]) {
        for version in versions {
            say!(self; @version);
        }
    }

    /// Returns the map of versions with `, ` between them.
    pub fn held<V: CaseVersion>(&self, text: &str) -> Held<V> {
        let mut held = Held::new(self.alloc);
        for version in self.list::<V>(text, ", ") {
            self.made(held.take(version, Moment::LEAST));
        }
        held
    }

    /// Prints all versions of a map on a line.
    pub fn say_held<V: CaseVersion>(&self, held: &Held<V>) {
        put!(self; held.len(), " held");
        for version in held.iter() {
            put!(self; ", ", @version);
        }
        self.put("\n");
    }
}
