//! Old comments: a list that silences had before they had a single comment. It is read, but never written.

ghost use Rattle.std.specs.Prelude.{◌≡◌, ℕ, List, [], ◌∷◌, ◌++◌, false, Option, Some, None, OnOk, IfErr};
ghost use Rattle.am_wire.specs.Fields.{FieldAt, field_of};
ghost use Rattle.am_wire.specs.Reading.{FailsUnlessMemory, item_fault};
ghost use Rattle.am_silence.specs.Comments.{comment, comment_tests};

use am_wire::reading::{
    LastText, MessageReader, Schema, Submessage, TimestampDraft, moment_in, take_fields,
};
use am_wire::{Field, Value, WireError, WireType};
use std::alloc::Global;

/// The draft of a comment.
#[derive(Drop)]
pub struct CommentDraft<'a> {
    author: LastText<'a>,
    text: LastText<'a>,
    written_at: Submessage<TimestampDraft>,
}

impl Schema for CommentDraft<'_> {
    ghost fitting = { comment.fits };

    fn fits(number: u32, wire_type: WireType) -> bool
        ensures { result ≡ comment.fits number wire_type }
    {
        match number {
            1..=3 => wire_type == WireType::Bytes,
            _ => true,
        }
    }
}

impl<'a> MessageReader<'a> for CommentDraft<'a> {
    ghost use Rattle.std.specs.Prelude.{⊤};
    ghost use Rattle.am_silence.specs.Drafts.{IsCommentDraft};

    /// A comment is tested, but nothing is made of it by itself.
    type Done = ();

    ghost inside = { comment.inside };

    ghost holds = { IsCommentDraft };

    ghost tests = { comment_tests };

    ghost value = { λ es. tt };

    fn start(alloc: Global) -> Self {
        CommentDraft {
            author: LastText::none(),
            text: LastText::none(),
            written_at: Submessage::none(alloc),
        }
    }

    fn take(&mut self, field: Field<'a>) -> Result<(), WireError> {
        match field.number {
            1 => self.author.take(field)?,
            2 => self.text.take(field)?,
            3 => self.written_at.take(field)?,
            _ => {}
        }
        Ok(())
    }

    fn finish(self, alloc: Global, _place: usize) -> Result<(), WireError> {
        moment_in(alloc, self.written_at)?;
        Ok(())
    }
}

/// The author and the text of the first old comment, if there is one.
#[derive(Clone, Copy)]
pub struct FirstComment<'a> {
    pub author: &'a str,
    pub text: &'a str,
    pub given: bool,
}

impl<'a> FirstComment<'a> {
    ghost use Rattle.am_silence.specs.Drafts.{IsFirstComment};

    /// Returns the state before any comment is taken.
    pub fn none() -> Self
        ensures { result.given ≡ false }
    {
        FirstComment {
            author: "",
            text: "",
            given: false,
        }
    }

    /// Reads a comment, and keeps it if it is the first one.
    pub fn take(&mut self, alloc: Global, field: Field<'a>) -> Result<(), WireError>
        ensures held { OnOk result ((es : List FieldAt) → (field_of field.entry).number ≡ 7 → IsFirstComment es self.old →
            IsFirstComment (es ++ field_of field.entry ∷ []) self.new) }
        ensures clean { OnOk result (item_fault comment comment_tests (field_of field.entry) ≡ None) }
        ensures fault { IfErr result (λ e. FailsUnlessMemory e (item_fault comment comment_tests (field_of field.entry))) }
    {
        if let Value::Bytes(bytes) = field.value {
            let mut draft = CommentDraft::start(alloc);
            take_fields(&mut draft, bytes, field.inside)?;
            let (author, text) = (draft.author.text, draft.text.text);
            draft.finish(alloc, field.at)?;
            if !self.given {
                self.author = author;
                self.text = text;
                self.given = true;
            }
        }
        Ok(())
    }
}
