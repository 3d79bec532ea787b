//! Replies in the making: a list is sifted by its filters and then written, a stretch at a time.

ghost use Rattle.std.specs.Prelude.{◌≡◌, IfOk, length};
ghost use Rattle.am_api_silences.specs.ReplyBuilder.{GoesOn, IsBegun, IsMadeOf, IsNoMemory, Makes, is_whole};
ghost use Rattle.am_api_silences.specs.Replies.{IsListReply, IsSiftedBytes, Says};
ghost use Rattle.am_api_silences.specs.ListFilters.{passing};
ghost use Rattle.am_api_silences.specs.declared.reply_builder.ReplyBuilder.TheVariants as makings;

use crate::list_filter::ListFilter;
use crate::replies::{ResponseBytes, good, no_memory, tell};
use am_instance::Reply;
use am_matcher::Filter;
use am_silence::{MeshSilence, State};
use am_silence_json::Listing;
use std::alloc::{AllocError, Global};

/// A reply that is being made.
#[derive(Drop)]
pub enum ReplyBuilder {
    Whole(ResponseBytes),
    /// A list whose filters are still to be held against some silences, before any of it is written.
    Filtering(ListFilter),
    /// A list, of whose silences some may be left to be written.
    List(Listing),
}

/// Returns the reply for when there is no memory for another.
fn short() -> ResponseBytes
    ensures { IsNoMemory result }
{
    ResponseBytes::Fixed(no_memory())
}

/// Returns the reply that lists these silences, before the first of them is written.
fn list(alloc: Global, rows: Vec<(MeshSilence, State)>) -> ReplyBuilder
    ensures { IsBegun rows.items result }
{
    match Listing::begin(alloc, rows) {
        Ok(list) => ReplyBuilder::List(list),
        Err(_) => ReplyBuilder::Whole(short()),
    }
}

/// Returns the reply that lists those of these silences that pass all filters, before the first of them is judged.
fn sift(alloc: Global, filters: Vec<Filter>, rows: Vec<(MeshSilence, State)>) -> ReplyBuilder
    ensures { Makes (Says (IsListReply (passing filters.items rows.items))) result }
{
    if filters.is_empty() {
        return list(alloc, rows);
    }
    ReplyBuilder::Filtering(ListFilter::new(alloc, filters, rows))
}

/// Returns the list of the silences that pass, before the first of them is written. What is left of them is judged.
fn sifted(filtered: ListFilter) -> Result<Listing, AllocError>
    ensures { IfOk result (λ list. list ≡ record { rows = filtered.rows; left = length filtered.rows }) }
{
    let rows = filtered.finish()?;
    let alloc = *rows.allocator();
    let list = Listing::begin(alloc, rows)?;
    Ok(list)
}

/// Judges `count` more silences of a list at most, and begins to write the list if none is left to be judged.
fn sift_on(filtered: ListFilter, count: usize) -> ReplyBuilder
    ensures { GoesOn count (makings.Filtering filtered) result }
{
    if filtered.is_done() {
        return match sifted(filtered) {
            Ok(list) => ReplyBuilder::List(list),
            Err(_) => ReplyBuilder::Whole(short()),
        };
    }
    match filtered.resume(count) {
        Ok(filtered) => ReplyBuilder::Filtering(filtered),
        Err(_) => ReplyBuilder::Whole(short()),
    }
}

/// Returns the whole reply of a list: what is left of it is written.
fn finished(alloc: Global, list: Listing) -> Result<Vec<u8>, AllocError>
    ensures { IfOk result (λ bytes. IsListReply list.rows bytes.items) }
{
    let body = list.finish()?;
    let bytes = good(alloc, &body)?;
    Ok(bytes)
}

/// Returns the whole reply of a list that is still being sifted: what is left of it is judged, and all that passes is written.
fn sifted_to_end(alloc: Global, filtered: ListFilter) -> Result<Vec<u8>, AllocError>
    ensures { IfOk result (λ bytes. IsListReply filtered.rows bytes.items) }
{
    let list = sifted(filtered)?;
    let bytes = finished(alloc, list)?;
    Ok(bytes)
}

/// Begins a reply. A list has only those silences that pass all filters, which are held against them afterwards.
pub fn make(alloc: Global, reply: Reply, filters: Vec<Filter>) -> ReplyBuilder
    ensures { Makes (Says (IsSiftedBytes filters.items reply)) result }
{
    match reply {
        Reply::Silences(rows) => sift(alloc, filters, rows),
        other => ReplyBuilder::Whole(tell(alloc, Ok(&other))),
    }
}

impl ReplyBuilder {
    /// Judges more silences of a list that has filters, `count` at most; or writes `count` more of a list, or all that are left. If
    /// there is no memory for them, the reply says so.
    pub fn resume(self, count: usize) -> ReplyBuilder
        ensures goes_on { GoesOn count self result }
        ensures same { Makes (IsMadeOf self) result }
    {
        match self {
            ReplyBuilder::Whole(reply) => ReplyBuilder::Whole(reply),
            ReplyBuilder::Filtering(filtered) => sift_on(filtered, count),
            ReplyBuilder::List(list) => match list.resume(count) {
                Ok(list) => ReplyBuilder::List(list),
                Err(_) => ReplyBuilder::Whole(short()),
            },
        }
    }

    /// Returns whether a list has a filter that might keep everyone waiting when it is held against one of its silences.
    pub fn is_too_dear(&self) -> bool {
        match self {
            ReplyBuilder::Filtering(filtered) => filtered.is_too_dear(),
            ReplyBuilder::Whole(_) | ReplyBuilder::List(_) => false,
        }
    }

    /// Returns whether no silence is left to be judged or written.
    pub fn is_whole(&self) -> bool
        ensures { result ≡ is_whole self.now }
    {
        match self {
            ReplyBuilder::Whole(_) => true,
            ReplyBuilder::Filtering(_) => false,
            ReplyBuilder::List(list) => list.is_written(),
        }
    }

    /// Returns the whole reply: what is left of a list is judged and written. If there is no memory for it, the reply says so.
    pub fn finish(self, alloc: Global) -> ResponseBytes
        // PROMISE: A list that is written in stretches ends as the reply to its step.
        ensures { IsMadeOf self result }
    {
        match self {
            ReplyBuilder::Whole(reply) => reply,
            ReplyBuilder::Filtering(filtered) => match sifted_to_end(alloc, filtered) {
                Ok(bytes) => ResponseBytes::Own(bytes),
                Err(_) => short(),
            },
            ReplyBuilder::List(list) => match finished(alloc, list) {
                Ok(bytes) => ResponseBytes::Own(bytes),
                Err(_) => short(),
            },
        }
    }
}
