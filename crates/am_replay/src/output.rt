//! Lines of output, with their line ends.

ghost use Rattle.std.specs.Prelude.{◌≡◌, ◌++◌, OnOk, string_bytes};
ghost use Rattle.std.specs.Option.{option_copied};
ghost use Rattle.am_replay.specs.Texts.{Prints, refused_text, told};

use crate::line::{OutputLine, append_line};
use crate::observer::LineAnswer;
use crate::refusal::LineRefusal;
use std::alloc::AllocError;

/// Appends a line and its line end.
pub fn tell(out: &mut String, line: &OutputLine<'_>) -> Result<(), AllocError>
    ensures { OnOk result (string_bytes out.new ≡ string_bytes out.old ++ told line.now) }
{
    append_line(out, line)
}

/// Appends that a step was refused, by a member or by the cluster, and returns that answer. If memory ran out, which isn't
/// a kind of refusal, an error is returned.
#[tactic(auto, unfolding(crate::specs::Printed::line_text))]
pub fn tell_refusal(
    out: &mut String,
    name: Option<&str>,
    refusal: Option<LineRefusal>,
) -> Result<LineAnswer, AllocError>
    ensures { OnOk result (Prints (refused_text (option_copied name.entry) refusal) (string_bytes out.old) (string_bytes out.new)) }
{
    match refusal {
        Some(refusal) => {
            tell(out, &OutputLine::Refused { name, refusal })?;
            Ok(LineAnswer::Refused(refusal))
        }
        None => Err(AllocError),
    }
}
