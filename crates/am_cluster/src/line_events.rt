//! The events of lines.

ghost use Rattle.std.specs.Prelude.{◌≡◌, map, IfOk};
ghost use Rattle.am_cluster.specs.LineEvents.{Brings, IsSentBefore, IsSound, asked_by, brought_by, label_of, pull};

use crate::groups::{decide, notified};
use crate::resolved_event::{ResolvedEvent, made};
use crate::silences::post;
use crate::texts::text_of;
use crate::written::from;
use am_instance::{Config, Event, Place, Request};
use am_matcher::{Label, Labels};
use am_schedule::{LineEvent, Pair};
use std::alloc::{AllocError, Global};

/// Converts a pair to a label.
fn label_of(alloc: Global, pair: &Pair) -> Result<Label, AllocError>
    ensures { IfOk result (λ label. label ≡ label_of pair.now) }
{
    Ok(Label {
        name: text_of(alloc, &pair.name)?,
        value: text_of(alloc, &pair.value)?,
    })
}

/// Converts pairs to labels.
fn labels_of(alloc: Global, pairs: &[Pair]) -> Result<Labels, AllocError>
    ensures { IfOk result (λ labels. labels ≡ map label_of pairs.now) }
{
    let mut labels = Vec::with_capacity(alloc, pairs.len())?;
    for pair in pairs {
        labels.push(label_of(alloc, pair)?)?;
    }
    Ok(Labels::new(labels))
}

/// Returns the step that sends a Push to the member at a place.
fn pull(place: Option<Place>) -> ResolvedEvent
    ensures { result ≡ pull place }
{
    match place {
        Some(place) => made(Event::PullFrom(place)),
        None => ResolvedEvent::NoMember,
    }
}

/// Returns what a line of a schedule asks of the member with this configuration.
///
/// # Errors
///
/// [`AllocError`] if memory runs out.
pub fn to_event(
    alloc: Global,
    config: &Config,
    event: &LineEvent,
) -> Result<ResolvedEvent, AllocError>
    // PROMISE: A line of a schedule means exactly its event, or names no member.
    ensures asked { IfOk result (λ asked. asked ≡ asked_by config.now event.now) }
    ensures sound { IfOk result IsSound }
    ensures brought { IfOk result (λ asked. Brings asked (brought_by event.now)) }
    ensures sent { IfOk result (λ asked. IsSentBefore asked (brought_by event.now)) }
{
    match event {
        LineEvent::From { peer, versions } => match config.place_named(peer.as_str()) {
            Some(sender) => from(alloc, sender, versions),
            None => Ok(ResolvedEvent::NoMember),
        },
        LineEvent::Post(line) => Ok(made(Event::Request(Request::Post {
            posted: post(alloc, line)?,
            bits: line.bits,
        }))),
        LineEvent::Expire { id } => Ok(made(Event::Request(Request::Delete {
            id: text_of(alloc, id)?,
        }))),
        LineEvent::Notified(group) => Ok(made(notified(alloc, group)?)),
        LineEvent::Decide {
            group,
            resolved_wanted,
        } => Ok(made(decide(alloc, group, *resolved_wanted)?)),
        LineEvent::Mutes { labels } => Ok(made(Event::Mutes {
            labels: labels_of(alloc, labels.as_slice())?,
        })),
        LineEvent::Show => Ok(made(Event::Show)),
        LineEvent::Tick => Ok(made(Event::Tick)),
        LineEvent::Pull { peer } => Ok(pull(config.place_named(peer.as_str()))),
        LineEvent::Start => Ok(ResolvedEvent::Start),
    }
}
