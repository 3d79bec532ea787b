//! Laws about the texts of moments.

ghost use Rattle.std.specs.Prelude.{◌≡◌, ◌-◌, ◌%◌, Some, ℕ, List};
ghost use Rattle.am_silence_json.specs.Moments.{ReadsMoment};
ghost use Rattle.am_silence_json.specs.Written.{WritesMoment};

use crate::moments::read::read_moment;
use crate::moments::write::write_moment;
use am_version_order::Moment;

/// Writes a moment's text and reads it back, as the moment cut to milliseconds.
pub fn reads_again(moment: Moment) -> Option<Moment>
    ensures { result ≡ Some (moment - moment % 1_000_000) }
{
    let text = write_moment(moment);
    read_moment(text.as_str())
}

/// States that each text written for a moment spells the moment cut to milliseconds.
pub fn texts_are_read()
    ensures { (m : ℕ) (text : List ℕ) → WritesMoment m text → ReadsMoment text (m - m % 1_000_000) }
{}

/// States that there is only one text for a moment.
pub fn texts_are_unique()
    ensures { (m : ℕ) (text other : List ℕ) → WritesMoment m text → WritesMoment m other → text ≡ other }
{}
