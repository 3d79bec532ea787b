//! Versions as values of JSON.

ghost use Rattle.std.specs.Prelude.{◌≡◌, ℕ, List, OnOk};
ghost use Rattle.serde_json.specs.Data.{Data};
ghost use Rattle.am_silence_json.specs.Tokens.{Adds, data_tokens};

use crate::json_lines::entry::{add_entry, add_log_key};
use crate::json_lines::shown::add_shown;
use crate::with_unknown::WithUnknown;
use am_nflog::{LogKey, MeshEntry};
use am_silence::MeshSilence;
use am_silence_json::tokens::{add, add_text};
use am_version_order::Moment;
use am_wire::Text;
use json::{Token, Writer};
use std::alloc::{AllocError, Global};

/// A version that is told in JSON.
pub trait InJson: WithUnknown {
    /// The value of a key.
    ghost key_data: { Self.Key → Data };

    /// Returns the name of the member that is a version.
    ghost named: { List ℕ };

    /// The value of a version at a moment.
    ghost value: { ℕ → Self → Data };

    /// Returns the name of the member that is a version.
    fn name() -> &'static str
        ensures { result.now ≡ named };

    /// Adds the value of a key.
    ///
    /// # Errors
    ///
    /// [`AllocError`] if memory runs out. A part of the value may be left.
    fn add_key(alloc: Global, out: &mut Writer, key: &Self::Key) -> Result<(), AllocError>
        ensures { OnOk result (Adds out.old out.new (data_tokens (key_data key.now))) };

    /// Adds the value of a version at a moment.
    ///
    /// # Errors
    ///
    /// [`AllocError`] if memory runs out. A part of the value may be left.
    fn add_value(&self, alloc: Global, out: &mut Writer, now: Moment) -> Result<(), AllocError>
        ensures { OnOk result (Adds out.old out.new (data_tokens (value now self.now))) };
}

impl InJson for MeshSilence {
    ghost use Rattle.std.specs.Prelude.{codes};
    ghost use Rattle.am_report.specs.Json.Values.{id_data, silence_data};

    ghost key_data = { id_data };

    ghost named = { codes "silence" };

    ghost value = { silence_data };

    fn name() -> &'static str {
        "silence"
    }

    fn add_key(_alloc: Global, out: &mut Writer, key: &Text) -> Result<(), AllocError> {
        add(out, Token::BeginObject)?;
        add_text(out, "id", key.as_str())?;
        add(out, Token::EndObject)?;
        Ok(())
    }

    fn add_value(&self, _alloc: Global, out: &mut Writer, now: Moment) -> Result<(), AllocError> {
        add_shown(out, self, now)
    }
}

impl InJson for MeshEntry {
    ghost use Rattle.std.specs.Prelude.{codes};
    ghost use Rattle.am_report.specs.Json.Values.{entry_data, log_key_data};

    ghost key_data = { log_key_data };

    ghost named = { codes "entry" };

    ghost value = { λ _ m. entry_data m };

    fn name() -> &'static str {
        "entry"
    }

    fn add_key(alloc: Global, out: &mut Writer, key: &LogKey) -> Result<(), AllocError> {
        add_log_key(alloc, out, key)
    }

    fn add_value(&self, alloc: Global, out: &mut Writer, _now: Moment) -> Result<(), AllocError> {
        add_entry(alloc, out, self)
    }
}
