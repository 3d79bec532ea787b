//! Warnings for a person about the fields that messages lose.

use crate::host::CommandRuntime;
use crate::source::Input;
use am_diagnostics::Audience;
use am_options::StateName;
use am_report::{LossReader, Losses, Lost, MessageKind};
use am_wire::Unknown;
use std::alloc::{AllocError, Global};

/// Returns a reader that notes the losses of a state's versions, if a person reads standard error.
pub fn watch_for<R: CommandRuntime>(rt: &R, state: StateName) -> Option<LossReader> {
    let kind = match state {
        StateName::Silences => MessageKind::Silence,
        StateName::Log => MessageKind::Entry,
    };
    match rt.audience() {
        Audience::Program => None,
        Audience::Person => Some(LossReader::new(rt.alloc(), kind)),
    }
}

/// A source that may note what the versions that it read lose.
pub trait HasLosses: Drop {
    /// Adds what the versions that were read lose, if that is noted.
    ///
    /// # Errors
    ///
    /// [`AllocError`] if memory runs out.
    fn add_losses(&self, losses: &mut Losses) -> Result<(), AllocError>;
}

/// Warns a person about what the versions of a source lose. Says nothing if memory runs out.
pub fn warn_of_source<R: CommandRuntime, S: HasLosses>(rt: &R, unknown: Unknown, source: &S) {
    let mut all = Losses::none(rt.alloc());
    if source.add_losses(&mut all).is_ok() {
        warn(rt, unknown, &all);
    }
}

/// Warns a person about what the versions of sources lose. Says nothing if memory runs out.
pub fn warn_of_sources<R: CommandRuntime, S: HasLosses>(
    rt: &R,
    unknown: Unknown,
    inputs: &[Input<'_, S>],
) {
    let mut all = Losses::none(rt.alloc());
    for input in inputs {
        if input.source.add_losses(&mut all).is_err() {
            return;
        }
    }
    warn(rt, unknown, &all);
}

/// Warns a person about what the versions of rows lose. Says nothing if memory runs out.
pub fn warn_of_rows<R: CommandRuntime>(rt: &R, state: StateName, rows: &[Vec<u8>]) {
    let Some(mut watch) = watch_for(rt, state) else {
        return;
    };
    for row in rows {
        if watch.take(row).is_err() {
            return;
        }
    }
    warn(rt, Unknown::Keep, &watch.losses);
}

/// Warns a person about what the versions of a row lose. Says nothing if memory runs out.
pub fn warn_of_row<R: CommandRuntime>(rt: &R, state: StateName, row: &[u8]) {
    if let Some(mut watch) = watch_for(rt, state)
        && watch.take(row).is_ok()
    {
        warn(rt, Unknown::Keep, &watch.losses);
    }
}

/// Tells a person how many messages lose fields, and which: silences, entries and the versions around them if their unknown
/// fields are dropped, and the smaller messages in them. Says nothing if memory runs out.
fn warn<R: CommandRuntime>(rt: &R, unknown: Unknown, losses: &Losses) {
    if unknown == Unknown::Drop {
        let _ = warn_of(rt, "", &losses.versions, " (--keep-unknown keeps them)");
    }
    let _ = warn_of(rt, "smaller ", &losses.parts, "");
}

/// Says how many messages lose fields, if one does, and the numbers of these.
fn warn_of<R: CommandRuntime>(
    rt: &R,
    size: &'static str,
    lost: &Lost,
    remedy: &'static str,
) -> Result<(), AllocError> {
    let alloc: Global = rt.alloc();
    let messages = lost.messages();
    let lose = match messages {
        0 => return Ok(()),
        1 => "message loses",
        _ => "messages lose",
    };
    let mut numbers = String::new(alloc);
    lost.append_numbers(&mut numbers)?;
    let _ = eprintln!(rt;
        "am_tool: warning: {messages} {size}{lose} fields that are not known here: {}{remedy}",
        numbers.as_str()
    );
    Ok(())
}
