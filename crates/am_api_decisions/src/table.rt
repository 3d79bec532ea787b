//! The lines of the table of statuses for the errors of steps.

ghost use Rattle.std.specs.Prelude.{◌≡◌};
ghost use Rattle.am_http.specs.Lines.{line_seen};
ghost use Rattle.am_api_silences.specs.Table.{memory_line};
ghost use Rattle.am_api_decisions.specs.Lines.{error_line};

use am_http::Refusal;
use am_instance::StepError;

/// Returns the line for want of memory.
pub const fn out_of_memory() -> Refusal
    ensures { line_seen result ≡ memory_line }
{
    Refusal::new(500, "out of memory")
}

/// Returns the line for a step that is refused.
pub const fn refused(error: StepError) -> Refusal
    ensures { line_seen result ≡ error_line error }
{
    match error {
        StepError::MomentBack { .. } => Refusal::new(500, "clock ran back"),
        StepError::Frame(_) => Refusal::new(400, "entry too large"),
        _ => out_of_memory(),
    }
}
