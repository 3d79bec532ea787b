//! Readers of standard error.

use std::fmt;
use std::io::IsTerminal;

/// A reader of standard error.
#[derive(Clone, Copy)]
pub enum Audience {
    /// A program, which may read it by a pipe or a file.
    Program,
    /// A person at a terminal.
    Person,
}

/// A runtime that knows who reads its standard error.
pub trait HasAudience {
    /// Returns the reader of its standard error.
    fn audience(&self) -> Audience;
}

impl HasAudience for HostRuntime {
    fn audience(&self) -> Audience {
        if self.stderr().is_terminal() {
            Audience::Person
        } else {
            Audience::Program
        }
    }
}

impl Audience {
    /// Returns the rest of a line, which tells a person this sentence.
    pub fn told(self, sentence: &'static str) -> Remark {
        Remark {
            audience: self,
            sentence,
        }
    }
}

/// The rest of a line: a sentence after a colon for a person, nothing for a program.
#[derive(Clone, Copy)]
pub struct Remark {
    audience: Audience,
    sentence: &'static str,
}

impl fmt::Display for Remark {
    fn fmt<W: fmt::Write>(&self, f: &mut fmt::Formatter<W>) -> fmt::Result {
        match self.audience {
            Audience::Program => Ok(()),
            Audience::Person => write!(f, ": {}", self.sentence),
        }
    }
}
