//! The lines of the table of statuses for refused steps.

ghost use Rattle.std.specs.Prelude.{◌≡◌};
ghost use Rattle.am_http.specs.Lines.{line_seen};
ghost use Rattle.am_api_silences.specs.Table.{clock_line, refused_line};

use am_http::Refusal;
use am_silence::SilenceError;

/// Returns the line of a request that an instance refuses.
pub const fn refused(error: SilenceError) -> Refusal
    ensures { line_seen result ≡ refused_line error }
{
    match error {
        SilenceError::NotFound => Refusal::new(404, "silence not found"),
        SilenceError::NoMatcher => Refusal::new(400, "no matcher"),
        SilenceError::EmptyName => Refusal::new(400, "empty label name"),
        SilenceError::BadPattern => Refusal::new(400, "bad pattern"),
        SilenceError::AllMatchEmpty => Refusal::new(400, "all matchers match the empty text"),
        SilenceError::EndNotAfterStart => Refusal::new(400, "end not after start"),
        SilenceError::EndInPast => Refusal::new(400, "end in the past"),
        SilenceError::AlreadyExpired => Refusal::new(500, "silence already expired"),
        SilenceError::Newer { .. } => Refusal::new(500, "newer version held"),
        SilenceError::IdInUse => Refusal::new(500, "id in use"),
        SilenceError::TooLarge => Refusal::new(500, "silence too large"),
        SilenceError::Memory => Refusal::new(500, "out of memory"),
    }
}

/// Returns the line of a moment before that of the last event.
pub const fn clock_ran_back() -> Refusal
    ensures { line_seen result ≡ clock_line }
{
    Refusal::new(500, "clock ran back")
}
