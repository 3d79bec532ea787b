//! The messages that lose fields which aren't known here, and the numbers of these.

use crate::field_numbers::least_numbers;
use am_wire::{Fields, Value, read_varint};
use std::alloc::{AllocError, Global};
use std::collections::BTreeSet;

/// The most numbers that are named.
const MOST_NAMED: usize = 16;

/// The most numbers that are kept in mind.
const MOST_KEPT: usize = 256;

/// The numbers of a version's fields: a silence or an entry, and the moment up to which it is kept.
const VERSION: [u32; 2] = [1, 2];

/// A kind of message that stands in a version.
#[derive(Clone, Copy)]
pub enum MessageKind {
    Silence,
    Entry,
    Matcher,
    Comment,
    Receiver,
    Moment,
}

impl MessageKind {
    /// Returns the numbers of its fields.
    pub fn numbers(self) -> &'static [u32] {
        match self {
            MessageKind::Silence => &am_silence::KNOWN_FIELDS,
            MessageKind::Entry => &am_nflog::KNOWN_FIELDS,
            MessageKind::Matcher | MessageKind::Comment | MessageKind::Receiver => &[1, 2, 3],
            MessageKind::Moment => &[1, 2],
        }
    }

    /// Returns the kind of message in the field of a silence or an entry that has the number.
    fn in_message(self, number: u32) -> Option<MessageKind> {
        match (self, number) {
            (MessageKind::Silence, 2) => Some(MessageKind::Matcher),
            (MessageKind::Silence, 3..=5) => Some(MessageKind::Moment),
            (MessageKind::Silence, 7) => Some(MessageKind::Comment),
            (MessageKind::Entry, 2) => Some(MessageKind::Receiver),
            (MessageKind::Entry, 5) => Some(MessageKind::Moment),
            _ => None,
        }
    }

    /// Returns whether the field of a smaller message that has the number holds a moment.
    fn is_moment(self, number: u32) -> bool {
        matches!((self, number), (MessageKind::Comment, 3))
    }
}

/// Messages that lose fields, and the numbers of these.
#[derive(Drop)]
pub struct Lost {
    messages: u64,
    numbers: BTreeSet<u32>,
    /// True if there are more numbers than are kept in mind.
    has_more: bool,
}

impl Lost {
    /// Returns no messages. It takes no memory.
    fn none(alloc: Global) -> Lost {
        Lost {
            messages: 0,
            numbers: BTreeSet::new(alloc),
            has_more: false,
        }
    }

    /// Returns the number of messages.
    pub fn messages(&self) -> u64 {
        self.messages
    }

    /// Adds the numbers of a message's fields beside those that are known. Returns whether there is one.
    fn add_unknown(&mut self, known: &[u32], message: &[u8]) -> Result<bool, AllocError> {
        let mut is_any = false;
        for item in Fields::new(message) {
            let Ok(field) = item else {
                break;
            };
            if !known.contains(&field.number) {
                is_any = true;
                self.add_number(field.number)?;
            }
        }
        Ok(is_any)
    }

    /// Adds a number.
    fn add_number(&mut self, number: u32) -> Result<(), AllocError> {
        if self.numbers.len() < MOST_KEPT {
            self.numbers.insert(number)?;
        } else {
            self.has_more = self.has_more || !self.numbers.contains(&number);
        }
        Ok(())
    }

    /// Adds other messages.
    fn join(&mut self, others: &Lost) -> Result<(), AllocError> {
        self.messages = self.messages.saturating_add(others.messages);
        self.has_more = self.has_more || others.has_more;
        for number in &others.numbers {
            self.add_number(*number)?;
        }
        Ok(())
    }

    /// Appends the least of the numbers as a list, and whether there are more.
    ///
    /// # Errors
    ///
    /// [`AllocError`] if memory runs out.
    pub fn append_numbers(&self, out: &mut String) -> Result<(), AllocError> {
        let alloc = *out.allocator();
        let least = least_numbers(alloc, &self.numbers, MOST_NAMED)?;
        let mut comma = "";
        for number in &least {
            write!(out, "{comma}{number}")?;
            comma = ", ";
        }
        if self.has_more || self.numbers.len() > MOST_NAMED {
            out.push_str(" and more")?;
        }
        Ok(())
    }
}

/// The messages that lose fields as a reader sees them that doesn't know these.
#[derive(Drop)]
pub struct Losses {
    /// The silences, the entries and the versions around them, which a reader may keep whole.
    pub versions: Lost,
    /// The matchers, comments, receivers and moments in them, which none does.
    pub parts: Lost,
}

impl Losses {
    /// Returns no losses. It takes no memory.
    pub fn none(alloc: Global) -> Losses {
        Losses {
            versions: Lost::none(alloc),
            parts: Lost::none(alloc),
        }
    }

    /// Adds what a version loses: `kind` is that of the message in it.
    fn add_version(&mut self, kind: MessageKind, version: &[u8]) -> Result<(), AllocError> {
        let mut loses = self.versions.add_unknown(&VERSION, version)?;
        for item in Fields::new(version) {
            let Ok(field) = item else {
                break;
            };
            match (field.number, field.value) {
                (1, Value::Bytes(message)) => loses = self.add_message(kind, message)? || loses,
                (2, Value::Bytes(moment)) => self.add_part(MessageKind::Moment, moment)?,
                _ => {}
            }
        }
        self.versions.messages = self.versions.messages.saturating_add(u64::from(loses));
        Ok(())
    }

    /// Adds what the versions of a row lose, up to one that is at fault or isn't whole. Returns the bytes from that one on.
    ///
    /// # Errors
    ///
    /// [`AllocError`] if memory runs out.
    pub fn add_row<'a>(
        &mut self,
        kind: MessageKind,
        row: &'a [u8],
    ) -> Result<&'a [u8], AllocError> {
        let mut rest = row;
        for _ in 0..row.len() {
            let Some((version, behind)) = first_version(rest) else {
                break;
            };
            self.add_version(kind, version)?;
            rest = behind;
        }
        Ok(rest)
    }

    /// Adds what a silence or an entry loses. Returns whether it loses fields itself.
    fn add_message(&mut self, kind: MessageKind, message: &[u8]) -> Result<bool, AllocError> {
        for item in Fields::new(message) {
            let Ok(field) = item else {
                break;
            };
            if let Value::Bytes(part) = field.value
                && let Some(inner) = kind.in_message(field.number)
            {
                self.add_part(inner, part)?;
            }
        }
        self.versions.add_unknown(kind.numbers(), message)
    }

    /// Adds what a smaller message loses, and the moments in it.
    fn add_part(&mut self, kind: MessageKind, part: &[u8]) -> Result<(), AllocError> {
        for item in Fields::new(part) {
            let Ok(field) = item else {
                break;
            };
            if let Value::Bytes(moment) = field.value
                && kind.is_moment(field.number)
            {
                self.add_own(MessageKind::Moment, moment)?;
            }
        }
        self.add_own(kind, part)
    }

    /// Adds what a smaller message loses itself.
    fn add_own(&mut self, kind: MessageKind, part: &[u8]) -> Result<(), AllocError> {
        let loses = self.parts.add_unknown(kind.numbers(), part)?;
        self.parts.messages = self.parts.messages.saturating_add(u64::from(loses));
        Ok(())
    }

    /// Adds other losses.
    ///
    /// # Errors
    ///
    /// [`AllocError`] if memory runs out.
    pub fn join(&mut self, others: &Losses) -> Result<(), AllocError> {
        self.versions.join(&others.versions)?;
        self.parts.join(&others.parts)
    }
}

/// The bytes of a row as they come, of which each version's losses are noted.
#[derive(Drop)]
pub struct LossReader {
    kind: MessageKind,
    /// The bytes that came of a version that isn't whole yet, and its length before it.
    begun: Vec<u8>,
    pub losses: Losses,
}

impl LossReader {
    /// Returns one that has seen nothing. It takes no memory.
    pub fn new(alloc: Global, kind: MessageKind) -> LossReader {
        LossReader {
            kind,
            begun: Vec::new(alloc),
            losses: Losses::none(alloc),
        }
    }

    /// Takes the next bytes of the row. Bytes behind a version that is at fault say nothing.
    ///
    /// # Errors
    ///
    /// [`AllocError`] if memory runs out.
    pub fn take(&mut self, bytes: &[u8]) -> Result<(), AllocError> {
        let alloc = *self.begun.allocator();
        self.begun.extend_from_slice(bytes)?;
        let rest = self.losses.add_row(self.kind, self.begun.as_slice())?;
        if rest.len() < self.begun.len() {
            self.begun = rest.to_vec(alloc)?;
        }
        Ok(())
    }
}

/// Splits the first version off a row, if it is there whole.
fn first_version(row: &[u8]) -> Option<(&[u8], &[u8])> {
    let Ok((length, size)) = read_varint(row) else {
        return None;
    };
    let rest = row.get(size..)?;
    let length = usize::try_from(length).unwrap_or(usize::MAX);
    Some((rest.get(..length)?, rest.get(length..)?))
}
