//! Silences as API v2 shows them at a moment.

ghost use Rattle.std.specs.Prelude.{OnOk};
ghost use Rattle.am_silence_json.specs.Tokens.{Adds, data_tokens};
ghost use Rattle.am_report.specs.Json.Values.{silence_data};

use crate::line_laws::moments_have_one_text;
use am_silence::MeshSilence;
use am_silence_json::add_silence;
use am_version_order::Moment;
use json::Writer;
use std::alloc::AllocError;

/// Adds a silence in its state at the moment.
pub fn add_shown(out: &mut Writer, silence: &MeshSilence, now: Moment) -> Result<(), AllocError>
    ensures { OnOk result (Adds out.old out.new (data_tokens (silence_data now silence.now))) }
{
    moments_have_one_text();
    add_silence(out, silence, silence.state_at(now))?;
    Ok(())
}
