//! The lines of what an instance shows.

ghost use Rattle.std.specs.Prelude.{◌≡◌, ◌++◌, OnOk, string_bytes};
ghost use Rattle.std.specs.List.{flat_map};
ghost use Rattle.std.specs.Option.{option_copied};
ghost use Rattle.am_report.specs.Views.{entry_line, shown_text, state_lines};

use crate::view_lines::{Owner, append_entry, append_shows, append_silence};
use am_nflog::MeshEntry;
use am_silence::{MeshSilence, State};
use std::alloc::AllocError;

/// Appends a line for each silence, with its state.
fn append_states(
    out: &mut String,
    owner: Owner<'_>,
    silences: &[(MeshSilence, State)],
) -> Result<(), AllocError>
    ensures { OnOk result (string_bytes out.new ≡ string_bytes out.old ++ state_lines (option_copied owner.entry.0) silences.now) }
{
    for (silence, state) in silences {
        append_silence(out, owner, silence, *state)?;
    }
    Ok(())
}

/// Appends a line for each entry.
fn append_entries(out: &mut String, owner: Owner<'_>, log: &[MeshEntry]) -> Result<(), AllocError>
    ensures { OnOk result (string_bytes out.new ≡ string_bytes out.old ++ flat_map (entry_line (option_copied owner.entry.0)) log.now) }
{
    for entry in log {
        append_entry(out, owner, entry)?;
    }
    Ok(())
}

/// Appends what an instance shows, in the lines of a view: its silences with their states, and its entries of the log, in
/// their order. If the instance is named, each line begins with the name, and a line with the two counts comes first.
///
/// # Errors
///
/// [`AllocError`] if memory runs out; a part of the lines may have been appended then.
pub fn append_shown(
    out: &mut String,
    silences: &[(MeshSilence, State)],
    log: &[MeshEntry],
    name: Option<&str>,
) -> Result<(), AllocError>
    ensures appended { OnOk result (string_bytes out.new
        ≡ string_bytes out.old ++ shown_text (option_copied name.entry) silences.now log.now) }
{
    let owner = Owner(name);
    append_shows(out, name, silences.len(), log.len())?;
    append_states(out, owner, silences)?;
    append_entries(out, owner, log)
}
