//! Lists of silences, written a stretch at a time.

ghost use Rattle.std.specs.Prelude.{◌≡◌, ◌-◌, ◌==◌, [], ◌∷◌, ◌++◌, List, IfOk, length};
ghost use Rattle.json.specs.Token.{begin_array};
ghost use Rattle.serde_json.specs.Data.{Data, array};
ghost use Rattle.serde_json.specs.View.{items_of};
ghost use Rattle.serde_json.specs.Written.{compact_text};
ghost use Rattle.am_silence_json.specs.Gettables.{AreGettable};
ghost use Rattle.am_silence_json.specs.Tokens.{row_tokens};

use crate::gettable::add_each_silence;
use crate::tokens::add;
use am_silence::{MeshSilence, State};
use json::{Token, Writer};
use std::alloc::{AllocError, Global};
use std::marker::Model;

/// Begins a list after the contents of `out`.
pub fn begin_list(out: Vec<u8>) -> Result<Writer, AllocError>
    ensures { IfOk result (λ writer. (writer.before ≡ out.items) × (writer.tokens ≡ begin_array ∷ [])) }
{
    let mut writer = Writer::new(out);
    add(&mut writer, Token::BeginArray)?;
    Ok(writer)
}

/// Ends a list to which these values were added.
pub fn end_list(writer: Writer) -> Result<Vec<u8>, AllocError>
    ensures { IfOk result (λ body. (ds : List Data) → writer.tokens ≡ begin_array ∷ row_tokens ds →
        body.items ≡ writer.before ++ compact_text (array (items_of ds))) }
{
    let mut writer = writer;
    add(&mut writer, Token::EndArray)?;
    Ok(writer.into_inner())
}

/// A list of silences, each in its state, that is being written as compact JSON.
#[derive(Drop)]
pub struct Listing {
    rows: Vec<(MeshSilence, State)>,
    /// The number of silences written so far.
    count: usize,
    out: Writer,
}

impl Model for Listing {
    ghost use Rattle.std.specs.Prelude.{◌≡◌, ◌-◌, ◌≤◌, [], length, take};
    ghost use Rattle.am_silence_json.specs.Listing.{AreWritten, Listed};

    ghost Value = { Listed };

    ghost view = { λ list. record { rows = list.rows.items; left = length list.rows.items - list.count } };

    ghost invariant = { λ list. record {
      within : list.count ≤ length list.rows.items;
      alone : list.out.before ≡ [];
      written : AreWritten (take list.count list.rows.items) list.out.tokens;
    } };
}

impl Listing {
    /// Begins a list, before the first of these silences.
    ///
    /// # Errors
    ///
    /// Returns [`AllocError`] if memory runs out.
    pub fn begin(alloc: Global, rows: Vec<(MeshSilence, State)>) -> Result<Listing, AllocError>
        ensures { IfOk result (λ list. list ≡ record { rows = rows.items; left = length rows.items }) }
    {
        let out = begin_list(Vec::new(alloc))?;
        Ok(Listing {
            rows,
            count: 0,
            out,
        })
    }

    /// Writes `count` more silences, or all that are left.
    ///
    /// # Errors
    ///
    /// Returns [`AllocError`] if memory runs out.
    pub fn resume(self, count: usize) -> Result<Listing, AllocError>
        ensures { IfOk result (λ list. list ≡ record self { left = self.left - count }) }
    {
        let Listing {
            rows,
            count: done,
            mut out,
        } = self;
        let end = done.saturating_add(count).min(rows.len());
        add_each_silence(&mut out, &rows[done..end])?;
        Ok(Listing {
            rows,
            count: end,
            out,
        })
    }

    /// Returns whether all silences are written.
    pub fn is_written(&self) -> bool
        ensures { result ≡ (self.now.left == 0) }
    {
        self.count == self.rows.len()
    }

    /// Writes the silences that are left and returns the whole list.
    ///
    /// # Errors
    ///
    /// Returns [`AllocError`] if memory runs out.
    pub fn finish(self) -> Result<Vec<u8>, AllocError>
        ensures { IfOk result (λ body. (ds : List Data) × AreGettable self.rows ds
            × (body.items ≡ compact_text (array (items_of ds)))) }
    {
        let Listing {
            rows,
            count,
            mut out,
        } = self;
        add_each_silence(&mut out, &rows[count..])?;
        let body = end_list(out)?;
        Ok(body)
    }
}
