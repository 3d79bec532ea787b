//! The output of a step.

ghost use Rattle.std.specs.Prelude.{◌≡◌, ◌++◌, OnOk, string_bytes};
ghost use Rattle.std.specs.Option.{option_copied};
ghost use Rattle.am_replay.specs.Texts.{answer_text, ended_text, owner_of, reply_text};

use crate::line::OutputLine;
use crate::output::tell;
use crate::refusal::LineRefusal;
use am_instance::Reply;
use am_report::append_shown;
use am_schedule::{Action, LineEvent};
use std::alloc::AllocError;

/// Appends that the silence that an event asks to end was ended.
#[tactic(auto, unfolding(crate::specs::Printed::line_text))]
fn tell_ended(out: &mut String, name: &str, event: &LineEvent) -> Result<(), AllocError>
    ensures { OnOk result (string_bytes out.new ≡ string_bytes out.old ++ ended_text name.now event.now) }
{
    match event {
        LineEvent::Expire { id } => tell(
            out,
            &OutputLine::Expired {
                name,
                id: id.as_str(),
            },
        ),
        _ => Ok(()),
    }
}

/// Appends the output for the reply to an event, by the member with this name.
#[tactic(auto, unfolding(crate::specs::Printed::line_text))]
fn tell_reply(
    out: &mut String,
    name: &str,
    event: &LineEvent,
    reply: &Reply,
) -> Result<(), AllocError>
    ensures { OnOk result (string_bytes out.new ≡ string_bytes out.old ++ reply_text name.now event.now reply.now) }
{
    let line = match reply {
        Reply::Posted(id) => OutputLine::Posted {
            name,
            id: id.as_str(),
        },
        Reply::Deleted => return tell_ended(out, name, event),
        Reply::Refused(error) => OutputLine::Refused {
            name: Some(name),
            refusal: LineRefusal::from(*error),
        },
        Reply::Logged(changed) => OutputLine::Logged {
            name,
            changed: *changed,
        },
        Reply::Decided(decision) => OutputLine::Decided {
            name,
            decision: *decision,
        },
        Reply::Muted(mutes) => OutputLine::Muted {
            name,
            ids: mutes.ids.as_slice(),
            broken: mutes.broken.as_slice(),
        },
        Reply::Shown { silences, log } => return append_shown(out, silences, log, Some(name)),
        Reply::Silences(_) | Reply::Silence(..) | Reply::Nothing => return Ok(()),
    };
    tell(out, &line)
}

/// Appends the output of a step that was answered.
pub fn tell_answer(out: &mut String, action: &Action, reply: &Reply) -> Result<(), AllocError>
    ensures { OnOk result (string_bytes out.new ≡ string_bytes out.old ++ answer_text action.now reply.now) }
{
    match action {
        Action::Event { name, event, .. } => tell_reply(out, name.as_str(), event, reply),
        Action::Stop { .. } | Action::Save { .. } | Action::Deliver { .. } | Action::Lose { .. } =>
            { Ok(()) }
    }
}

/// Returns the name of the member that a step names.
pub fn owner_of(action: &Action) -> Option<&str>
    ensures { option_copied result ≡ owner_of action.now }
{
    match action {
        Action::Event { name, .. } | Action::Stop { name } | Action::Save { name } => {
            Some(name.as_str())
        }
        Action::Deliver { .. } | Action::Lose { .. } => None,
    }
}
