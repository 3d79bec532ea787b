//! Asking for the silences that mute an alert.

ghost use Rattle.std.specs.Prelude.{◌≡◌, IfOk, IfErr, IfSome};
ghost use Rattle.am_http.specs.Lines.{line_seen};
ghost use Rattle.am_api_decisions.specs.Asking.{IsMutesStep, StopsAt, TellsIds};

use crate::table;
use am_http::Refusal;
use am_instance::{Event, Instance, Reply};
use am_matcher::{Ids, Label, Labels};
use am_version_order::Moment;
use std::alloc::{AllocError, Global};

/// Returns a copy of a label.
fn copied_label(alloc: Global, label: &Label) -> Result<Label, AllocError>
    ensures { IfOk result (λ copy. copy ≡ label.now) }
{
    Ok(Label {
        name: label.name.try_clone(alloc)?,
        value: label.value.try_clone(alloc)?,
    })
}

/// Returns a copy of labels.
///
/// # Errors
///
/// [`AllocError`] if memory runs out.
pub fn copied_labels(alloc: Global, labels: &Labels) -> Result<Labels, AllocError>
    ensures { IfOk result (λ copy. copy ≡ labels.now) }
{
    let labels = labels.as_slice();
    let mut copies = Vec::with_capacity(alloc, labels.len())?;
    for label in labels {
        copies.push(copied_label(alloc, label)?)?;
    }
    Ok(Labels::new(copies))
}

/// Returns the silences that a reply names.
fn ids_in(reply: Reply) -> Option<Ids>
    ensures { IfSome result (λ ids. TellsIds reply ids) }
{
    match reply {
        Reply::Muted(mutes) => Some(mutes.ids),
        _ => None,
    }
}

/// Returns the silences that mute an alert with these labels, by one step.
fn ask_by_step(instance: &mut Instance, labels: Labels, now: Moment) -> Result<Ids, Refusal>
    ensures asked { IfOk result (λ ids. IsMutesStep now labels ids instance.old instance.new) }
    ensures stopped { IfErr result (λ refusal. StopsAt now labels instance.old (line_seen refusal) instance.new) }
{
    match instance.step(Event::Mutes { labels }, now) {
        Ok(outcome) => match ids_in(outcome.reply) {
            Some(ids) => Ok(ids),
            None => Err(table::out_of_memory()),
        },
        Err(error) => Err(table::refused(error)),
    }
}

/// Returns the silences that mute an alert with these labels, by one step.
///
/// # Errors
///
/// The line that says why there is no answer: the clock ran back, or memory ran out.
pub fn ask(
    alloc: Global,
    instance: &mut Instance,
    labels: &Labels,
    now: Moment,
) -> Result<Ids, Refusal>
    ensures asked { IfOk result (λ ids. IsMutesStep now labels.now ids instance.old instance.new) }
    ensures stopped { IfErr result (λ refusal. StopsAt now labels.now instance.old (line_seen refusal) instance.new) }
{
    match copied_labels(alloc, labels) {
        Ok(copy) => ask_by_step(instance, copy, now),
        Err(_) => Err(table::out_of_memory()),
    }
}
