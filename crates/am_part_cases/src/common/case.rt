//! A case: its answer so far, or the reason that it has none.

use am_wire::Text;
use std::alloc::Global;
use std::cell::{Cell, RefCell};
use std::fmt::{Debug, Display, Write};

/// The reason that a case has no answer.
#[derive(Clone, Copy, Debug, PartialEq, Eq)]
pub enum CaseFault {
    /// The words aren't a case.
    Words,
    /// Memory ran out.
    Memory,
}

/// The size, in bytes, up to which an answer needs no more memory once its case has begun.
pub const ROOM: usize = 80_000;

/// A case while it is answered. The first fault is kept, and after it nothing is printed and no step is made, since values that
/// words should spell are then replaced by others.
#[derive(Drop)]
pub struct Case {
    pub alloc: Global,
    fault: Cell<Option<CaseFault>>,
    text: RefCell<String>,
}

impl Case {
    /// Returns a case without an answer yet.
    pub fn new(alloc: Global) -> Case {
        let made = String::with_capacity(alloc, ROOM);
        let fault = Cell::new(made.is_err().then_some(CaseFault::Memory));
        let text = RefCell::new(made.unwrap_or(String::new(alloc)));
        Case { alloc, fault, text }
    }

    /// Returns the answer.
    pub fn into_text(self) -> String {
        self.text.into_inner()
    }

    pub fn fault(&self) -> Option<CaseFault> {
        self.fault.get()
    }

    pub fn is_fine(&self) -> bool {
        self.fault().is_none()
    }

    /// Keeps a fault, unless one came before.
    pub fn fail(&self, fault: CaseFault) {
        self.fault.set(self.fault().or(Some(fault)));
    }

    /// Keeps the fault of a part, if it has one.
    pub fn fail_as(&self, part: &Case) {
        self.fault.set(self.fault().or(part.fault()));
    }

    /// Prints a value.
    pub fn put<T: Display + Drop>(&self, value: T) {
        let Ok(mut text) = self.text.try_borrow_mut() else {
            return self.fail(CaseFault::Words);
        };
        if self.is_fine() && write!(text, "{value}").is_err() {
            self.fail(CaseFault::Memory);
        }
    }

    /// Prints a value as code writes it.
    pub fn debug<T: Debug + Drop>(&self, value: T) {
        self.put(format_args!("{value:?}"));
    }

    /// Returns the value of words, and notes a fault if there is none.
    pub fn wanted<T: Drop>(&self, value: Option<T>) -> Option<T> {
        if value.is_none() {
            self.fail(CaseFault::Words);
        }
        value
    }

    /// Returns the value of words, or another one if there is none, which is a fault.
    pub fn or<T: Drop>(&self, value: Option<T>, other: T) -> T {
        self.wanted(value).unwrap_or(other)
    }

    /// Returns what was made, and notes a fault if memory ran out.
    pub fn made<T: Drop, E: Drop>(&self, made: Result<T, E>) -> Option<T> {
        if made.is_err() {
            self.fail(CaseFault::Memory);
        }
        made.ok()
    }

    /// Returns what words spell; any fault other than `memory` is one of the words.
    pub fn sound<T: Drop, E: Copy + PartialEq>(&self, read: Result<T, E>, memory: E) -> Option<T> {
        match read {
            Err(fault) if fault != memory => self.wanted(None),
            read => self.made(read),
        }
    }

    /// Returns the answer to a call. If the call was refused, prints why, unless that is `memory`.
    pub fn got<T: Drop, E: Copy + Debug + Eq>(&self, got: Result<T, E>, memory: E) -> Option<T> {
        match got {
            Err(refusal) if refusal != memory => {
                say!(self; ?refusal);
                None
            }
            got => self.made(got),
        }
    }

    /// Appends a value to a list.
    pub fn push<T: Drop>(&self, list: &mut Vec<T>, value: T) {
        if list.push(value).is_err() {
            self.fail(CaseFault::Memory);
        }
    }

    /// Returns a text with a copy of a word.
    pub fn text(&self, word: &str) -> Text {
        self.made(Text::copied(self.alloc, word))
            .unwrap_or(Text::new(String::new(self.alloc)))
    }
}
