//! The lines of a view.

ghost use Rattle.std.specs.Prelude.{◌≡◌, ◌++◌, OnOk, string_bytes};
ghost use Rattle.std.specs.Option.{option_copied};
ghost use Rattle.am_report.specs.Views.{entry_line, shows_line, silence_line, state_word};

use crate::lists::Numbers;
use crate::words::EscapedWord;
use am_nflog::{LogKey, MeshEntry};
use am_silence::{MeshSilence, State};
use am_version_order::Version;
use std::alloc::AllocError;
use std::fmt::{self, Display};

/// The instance with whose name each line of its view begins, if it is named.
#[derive(Clone, Copy)]
pub struct Owner<'a>(pub Option<&'a str>);

impl Display for Owner<'_> {
    ghost use Rattle.std.specs.Prelude.{Some};
    ghost use Rattle.am_report.specs.Views.{owner_words};

    ghost output = { λ owner. Some (owner_words (option_copied owner.0)) };

    fn fmt<W: fmt::Write>(&self, f: &mut fmt::Formatter<W>) -> fmt::Result {
        let Some(name) = self.0 else {
            return Ok(());
        };
        write!(f, "{} ", EscapedWord(name.as_bytes()))
    }
}

/// The key of an entry, displayed as words: the group key, the group name, the integration and the index.
#[derive(Clone, Copy)]
pub struct LogKeyWords<'a>(pub &'a LogKey);

impl Display for LogKeyWords<'_> {
    ghost use Rattle.std.specs.Prelude.{Some};
    ghost use Rattle.am_report.specs.Views.{key_words};

    ghost output = { λ key. Some (key_words key.0.now) };

    #[tactic(auto, unfolding(crate::specs::Views::key_words))]
    fn fmt<W: fmt::Write>(&self, f: &mut fmt::Formatter<W>) -> fmt::Result {
        let group = EscapedWord(self.0.group_key());
        let name = EscapedWord(self.0.group_name().as_bytes());
        let integration = EscapedWord(self.0.integration().as_bytes());
        let idx = self.0.idx();
        write!(f, "{group} {name} {integration} {idx}")
    }
}

/// Returns the printed name of a state.
pub fn state_name(state: State) -> &'static str
    ensures { result.now ≡ state_word state }
{
    match state {
        State::Pending => "pending",
        State::Active => "active",
        State::Expired => "expired",
    }
}

/// Appends how many silences and how many entries are in view, if an instance is named.
#[tactic(auto, unfolding(crate::specs::Views::shows_line))]
pub fn append_shows(
    out: &mut String,
    name: Option<&str>,
    silences: usize,
    entries: usize,
) -> Result<(), AllocError>
    ensures { OnOk result (string_bytes out.new ≡ string_bytes out.old ++ shows_line (option_copied name.entry) silences entries) }
{
    let Some(name) = name else {
        return Ok(());
    };
    let name = EscapedWord(name.as_bytes());
    writeln!(out, "{name} shows {silences} {entries}")
}

/// Appends the line of a silence that has this state.
#[tactic(auto, unfolding(crate::specs::Views::silence_line))]
pub fn append_silence(
    out: &mut String,
    owner: Owner<'_>,
    version: &MeshSilence,
    state: State,
) -> Result<(), AllocError>
    ensures { OnOk result (string_bytes out.new ≡ string_bytes out.old ++ silence_line (option_copied owner.entry.0) version.now state) }
{
    let id = EscapedWord(version.key().as_str().as_bytes());
    let state = state_name(state);
    writeln!(out, "{owner}sil {id} {state}")
}

/// Appends the line of an entry of the log.
pub fn append_entry(
    out: &mut String,
    owner: Owner<'_>,
    version: &MeshEntry,
) -> Result<(), AllocError>
    ensures { OnOk result (string_bytes out.new ≡ string_bytes out.old ++ entry_line (option_copied owner.entry.0) version.now) }
{
    let key = LogKeyWords(version.key());
    let firing = Numbers(version.firing_alerts());
    let resolved = Numbers(version.resolved_alerts());
    writeln!(out, "{owner}nfl {key} {firing} {resolved}")
}
