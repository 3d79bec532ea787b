//! The moment at which maps are shown and compared.

use crate::host::CommandRuntime;
use am_diagnostics::{Audience, Fault};
use am_peers::later_moment;
use am_silence_json::moments::write_moment;
use am_version_order::Moment;

/// 2000-01-01T00:00:00Z, in seconds since 1970.
const YEAR_2000: i64 = 946_684_800;

/// Returns the moment that the command line names, or the clock's if it names none.
pub fn moment_of<R: CommandRuntime>(rt: &R, named: Option<Moment>) -> Result<Moment, Fault> {
    if let Some(now) = named {
        return Ok(now);
    }
    match rt.since_1970() {
        Ok(since_1970) => Ok(later_moment(since_1970, Moment::LEAST)),
        Err(error) => Err(Fault::Clock(error.kind())),
    }
}

/// Says to a person that the moment that the command line names is before what was read, if it is so early that it may have
/// been meant in seconds.
pub fn warn<R: CommandRuntime>(rt: &R, named: Option<Moment>) {
    let (Some(now), Audience::Person) = (named, rt.audience()) else {
        return;
    };
    let (seconds, _) = now.parts();
    if seconds < YEAR_2000 {
        let text = write_moment(now);
        let _ = eprintln!(rt;
            "am_tool: warning: --now is {}, before what was read; digits are nanoseconds since 1970, and a moment as 2026-11-26T12:00:00Z is taken too",
            text.as_str()
        );
    }
}
