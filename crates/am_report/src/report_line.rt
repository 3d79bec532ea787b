//! The words of versions in a report.

ghost use Rattle.std.specs.Prelude.{◌≡◌, ℕ, List, ◌++◌, OnOk, string_bytes};
ghost use Rattle.am_report.specs.Versions.{shown_state};
ghost use Rattle.am_report.specs.declared.format.LineFormat.{LineFormat};

use crate::format::LineFormat;
use crate::lists::Numbers;
use crate::long::{append_fields_change, append_long_key, append_long_silence};
use crate::moments::shown_moment;
use crate::view_lines::{LogKeyWords, state_name};
use crate::with_unknown::WithUnknown;
use crate::words::EscapedWord;
use am_nflog::{LogKey, MeshEntry};
use am_silence::MeshSilence;
use am_version_order::Version;
use am_wire::Text;
use std::alloc::AllocError;

/// A version that a line can tell.
pub trait ReportLine: WithUnknown {
    /// The words with which each line of a key begins.
    ghost begins: { Self.Key → List ℕ };

    /// The words of a version.
    ghost told: { LineFormat → Self → List ℕ };

    /// The text below the line of a version that is compared with the greatest of its key.
    ghost more: { LineFormat → Self → Self → List ℕ };

    /// Appends the words with which each line of a key begins.
    ///
    /// # Errors
    ///
    /// [`AllocError`] if memory runs out. A part of the words may be left.
    fn append_key(out: &mut String, key: &Self::Key) -> Result<(), AllocError>
        ensures { OnOk result (string_bytes out.new ≡ string_bytes out.old ++ begins key.now) };

    /// Appends the words of a version.
    ///
    /// # Errors
    ///
    /// [`AllocError`] if memory runs out. A part of the words may be left.
    fn append_told(&self, out: &mut String, format: &LineFormat) -> Result<(), AllocError>
        ensures { OnOk result (string_bytes out.new ≡ string_bytes out.old ++ told format.now self.now) };

    /// Appends the text below the line of a version, with what changed from it to the greatest of its key.
    ///
    /// # Errors
    ///
    /// [`AllocError`] if memory runs out. A part of the lines may be left.
    fn append_more(
        &self,
        out: &mut String,
        greatest: &Self,
        format: &LineFormat,
    ) -> Result<(), AllocError>
        ensures { OnOk result (string_bytes out.new ≡ string_bytes out.old ++ more format.now self.now greatest.now) };
}

/// Returns the state of a silence, or `gone` if its version isn't live.
fn shown_state(silence: &MeshSilence, format: &LineFormat) -> &'static str
    ensures { result.now ≡ shown_state format.now silence.now }
{
    if format.has_expiries && format.moment >= silence.expires() {
        return "gone";
    }
    state_name(silence.state_at(format.moment))
}

impl ReportLine for MeshSilence {
    ghost use Rattle.am_report.specs.Versions.{begins_silence, more_of_silence, told_silence};

    ghost begins = { begins_silence };

    ghost told = { told_silence };

    ghost more = { more_of_silence };

    fn append_key(out: &mut String, key: &Text) -> Result<(), AllocError> {
        let id = EscapedWord(key.as_str().as_bytes());
        write!(out, "sil {id}")
    }

    #[tactic(auto, unfolding(crate::specs::Versions::told_silence))]
    fn append_told(&self, out: &mut String, format: &LineFormat) -> Result<(), AllocError> {
        let state = shown_state(self, format);
        let updated = shown_moment(self.updated_at());
        let ends = shown_moment(self.ends_at());
        let (updated, ends) = (updated.as_str(), ends.as_str());
        write!(out, "{state} {updated} {ends}")
    }

    fn append_more(
        &self,
        out: &mut String,
        greatest: &Self,
        format: &LineFormat,
    ) -> Result<(), AllocError> {
        if !format.is_long {
            return Ok(());
        }
        append_long_silence(out, self, greatest, format.has_expiries)
    }
}

impl ReportLine for MeshEntry {
    ghost use Rattle.am_report.specs.Versions.{begins_entry, more_of_entry, told_entry};

    ghost begins = { begins_entry };

    ghost told = { told_entry };

    ghost more = { more_of_entry };

    fn append_key(out: &mut String, key: &LogKey) -> Result<(), AllocError> {
        let key = LogKeyWords(key);
        write!(out, "nfl {key}")
    }

    #[tactic(auto, unfolding(crate::specs::Versions::told_entry))]
    fn append_told(&self, out: &mut String, _manner: &LineFormat) -> Result<(), AllocError> {
        let updated = shown_moment(self.timestamp());
        let expires = shown_moment(self.expires_at());
        let (updated, expires) = (updated.as_str(), expires.as_str());
        let firing = Numbers(self.firing_alerts());
        let resolved = Numbers(self.resolved_alerts());
        write!(out, "{updated} {expires} {firing} {resolved}")
    }

    fn append_more(
        &self,
        out: &mut String,
        greatest: &Self,
        format: &LineFormat,
    ) -> Result<(), AllocError> {
        if !format.is_long {
            return Ok(());
        }
        append_long_key(out, self.key())?;
        append_fields_change(out, self, greatest)
    }
}
