//! The live entries of the log, written a stretch at a time.

ghost use Rattle.std.specs.Prelude.{◌≡◌, ◌-◌, ◌==◌, ◌++◌, ◌∷◌, [], List, IfOk, IfErr, OnOk, length, map};
ghost use Rattle.json.specs.Print.{print};
ghost use Rattle.json.specs.Token.{begin_array};
ghost use Rattle.am_http.specs.Lines.{line_seen};
ghost use Rattle.am_instance.specs.InstanceStates.{log_in_view};
ghost use Rattle.am_nflog.specs.Mesh.{Mesh};
ghost use Rattle.am_silence_json.specs.Tokens.{Adds, row_tokens};
ghost use Rattle.am_report.specs.Json.Values.{entry_data};
ghost use Rattle.am_report.specs.Json.Views.{list_line};
ghost use Rattle.am_api_silences.specs.Replies.{Says};
ghost use Rattle.am_api_silences.specs.Table.{memory_line};
ghost use Rattle.am_api_decisions.specs.Entries.{AreWritten, log_bytes};

use crate::replies::{good, short};
use crate::table;
use am_api_silences::ResponseBytes;
use am_http::Refusal;
use am_instance::Instance;
use am_merge::Held;
use am_nflog::MeshEntry;
use am_report::InJson;
use am_silence_json::tokens::add;
use am_version_order::{Moment, Version};
use json::{Token, Writer};
use std::alloc::{AllocError, Global};
use std::marker::Model;

/// Returns the entries of a log that are live, in the order of their keys.
fn live_entries(
    alloc: Global,
    log: &Held<MeshEntry>,
    now: Moment,
) -> Result<Vec<MeshEntry>, AllocError>
    ensures { IfOk result (λ rows. rows.items ≡ log_in_view now log.now) }
{
    let mut rows = Vec::new(alloc);
    for entry in log.iter() {
        if now < entry.expires() {
            rows.push(entry.try_clone(alloc)?)?;
        }
    }
    Ok(rows)
}

/// Adds entries, without brackets. (An entry is written in the same way at any moment.)
fn add_entries(alloc: Global, out: &mut Writer, rows: &[MeshEntry]) -> Result<(), AllocError>
    ensures { OnOk result (Adds out.old out.new (row_tokens (map entry_data rows.now))) }
{
    for entry in rows {
        entry.add_value(alloc, out, Moment::LEAST)?;
    }
    Ok(())
}

/// Begins a list.
fn begin_list(alloc: Global) -> Result<Writer, AllocError>
    ensures { IfOk result (λ out. (out.before ≡ []) × (out.tokens ≡ begin_array ∷ [])) }
{
    let mut out = Writer::new(Vec::new(alloc));
    add(&mut out, Token::BeginArray)?;
    Ok(out)
}

/// Returns the line of a value whose tokens were written.
fn line_of(out: Writer) -> Result<Vec<u8>, AllocError>
    ensures { IfOk result (λ line. line.items ≡ out.before ++ print out.tokens ++ 10 ∷ []) }
{
    let mut line = out.into_inner();
    line.push(b'\n')?;
    Ok(line)
}

/// Ends a list to which entries were added, and returns its line.
fn end_list(out: Writer) -> Result<Vec<u8>, AllocError>
    ensures { IfOk result (λ line. (rows : List Mesh) → AreWritten rows out.tokens →
        line.items ≡ out.before ++ list_line (map entry_data rows)) }
{
    let mut out = out;
    add(&mut out, Token::EndArray)?;
    let line = line_of(out)?;
    Ok(line)
}

/// The live entries of the log, as they are being written: compact JSON.
#[derive(Drop)]
pub struct LogWriting {
    rows: Vec<MeshEntry>,
    /// The number of entries that are written.
    count: usize,
    out: Writer,
}

impl Model for LogWriting {
    ghost use Rattle.std.specs.Prelude.{◌≡◌, ◌-◌, ◌≤◌, [], length, take};
    ghost use Rattle.am_api_decisions.specs.Entries.{AreWritten, Telling};

    ghost Value = { Telling };

    ghost view = { λ w. record { rows = w.rows.items; left = length w.rows.items - w.count } };

    ghost invariant = { λ w. record {
      within : w.count ≤ length w.rows.items;
      alone : w.out.before ≡ [];
      written : AreWritten (take w.count w.rows.items) w.out.tokens;
    } };
}

/// Begins to write these entries.
fn begin(alloc: Global, rows: Vec<MeshEntry>) -> Result<LogWriting, AllocError>
    ensures { IfOk result (λ w. w ≡ record { rows = rows.items; left = length rows.items }) }
{
    let out = begin_list(alloc)?;
    Ok(LogWriting {
        rows,
        count: 0,
        out,
    })
}

/// Begins to write the live entries of the log.
fn begin_live(alloc: Global, log: &Held<MeshEntry>, now: Moment) -> Result<LogWriting, AllocError>
    ensures { IfOk result (λ w. w ≡ record { rows = log_in_view now log.now; left = length (log_in_view now log.now) }) }
{
    let rows = live_entries(alloc, log, now)?;
    let writing = begin(alloc, rows)?;
    Ok(writing)
}

/// Begins to write the entries of the log that are live at `now`, in the order of their keys. No step is made.
///
/// # Errors
///
/// The line `out of memory`.
pub fn begin_log(alloc: Global, instance: &Instance, now: Moment) -> Result<LogWriting, Refusal>
    ensures begun { IfOk result (λ w. w ≡ record {
      rows = log_in_view now instance.now.log;
      left = length (log_in_view now instance.now.log);
    }) }
    ensures refused { IfErr result (λ refusal. line_seen refusal ≡ memory_line) }
{
    match begin_live(alloc, instance.log(), now) {
        Ok(writing) => Ok(writing),
        Err(_) => Err(table::out_of_memory()),
    }
}

impl LogWriting {
    /// Returns it with `count` more entries written, or all that are left.
    fn with_more(self, alloc: Global, count: usize) -> Result<LogWriting, AllocError>
        ensures { IfOk result (λ w. w ≡ record self { left = self.left - count }) }
    {
        let LogWriting {
            rows,
            count: done,
            mut out,
        } = self;
        let end = done.saturating_add(count).min(rows.len());
        add_entries(alloc, &mut out, &rows[done..end])?;
        Ok(LogWriting {
            rows,
            count: end,
            out,
        })
    }

    /// Writes `count` more entries, or all that are left.
    ///
    /// # Errors
    ///
    /// The line `out of memory`.
    pub fn resume(self, alloc: Global, count: usize) -> Result<LogWriting, Refusal>
        ensures written { IfOk result (λ w. w ≡ record self { left = self.left - count }) }
        ensures refused { IfErr result (λ refusal. line_seen refusal ≡ memory_line) }
    {
        match self.with_more(alloc, count) {
            Ok(writing) => Ok(writing),
            Err(_) => Err(table::out_of_memory()),
        }
    }

    /// Returns whether all entries are written.
    pub fn is_written(&self) -> bool
        ensures { result ≡ (self.now.left == 0) }
    {
        self.count == self.rows.len()
    }

    /// Writes the entries that are left, and returns the line of all entries.
    fn into_line(self, alloc: Global) -> Result<Vec<u8>, AllocError>
        ensures { IfOk result (λ line. line.items ≡ list_line (map entry_data self.rows)) }
    {
        let LogWriting {
            rows,
            count,
            mut out,
        } = self;
        add_entries(alloc, &mut out, &rows[count..])?;
        let line = end_list(out)?;
        Ok(line)
    }

    /// Returns the bytes of the reply.
    fn into_bytes(self, alloc: Global) -> Result<Vec<u8>, AllocError>
        ensures { IfOk result (λ bytes. bytes.items ≡ log_bytes self.rows) }
    {
        let line = self.into_line(alloc)?;
        let bytes = good(alloc, &line)?;
        Ok(bytes)
    }

    /// Writes the entries that are left, and returns the whole reply, or the one saying that there is no memory for it.
    pub fn finish(self, alloc: Global) -> ResponseBytes
        ensures { Says (λ bytes. bytes ≡ log_bytes self.rows) result }
    {
        match self.into_bytes(alloc) {
            Ok(bytes) => ResponseBytes::Own(bytes),
            Err(_) => short(),
        }
    }
}
