//! The texts of moments.

ghost use Rattle.std.specs.Prelude.{◌≡◌};
ghost use Rattle.am_report.specs.Texts.{moment_text};

use am_silence_json::moments::laws::texts_are_unique;
use am_silence_json::moments::{MomentText, write_moment};
use am_version_order::Moment;

/// Returns the text of a moment as API v2 shows it: UTC, cut to milliseconds.
pub fn shown_moment(moment: Moment) -> MomentText
    ensures { result ≡ moment_text moment }
{
    texts_are_unique();
    write_moment(moment)
}
