//! The lines of a start: the times that a member keeps, and what an operator should know about its options.

use crate::options::Options;
use am_peers::{Times, is_loopback, times_of};

/// Returns the times that a member keeps by its options, if it pulls by itself.
fn times(options: &Options<'_>) -> Option<Times> {
    let every = u32::try_from(options.pull_every?.as_secs()).ok()?;
    let limit = u32::try_from(options.time_limit.as_secs()).ok()?;
    Some(times_of(every, limit))
}

/// Prints the times that a member keeps, and warnings if its options leave it open or are too short.
pub fn report<R: Eprint>(rt: &R, options: &Options<'_>) {
    report_times(rt, options);
    report_address(rt, options);
}

/// Prints a warning if others than this machine reach the address at which requests are answered.
fn report_address<R: Eprint>(rt: &R, options: &Options<'_>) {
    let address = options.address;
    if !is_loopback(address) {
        let _ = eprintln!(rt;
            "am_tool: warning: requests at {address} aren't authenticated: whoever reaches it may change silences"
        );
    }
}

/// Prints the times that a member keeps, and warnings if its options are too short for them.
fn report_times<R: Eprint>(rt: &R, options: &Options<'_>) {
    let Some(times) = times(options) else {
        return;
    };
    let Times { spread, flight } = times;
    let _ = eprintln!(rt; "am_tool: keeps a spread of {spread} s and a flight time of {flight} s");
    let needed = spread.saturating_add(flight);
    if !times.are_kept(options.retention_seconds) {
        let _ = eprintln!(rt; "am_tool: warning: --retention is under {needed} s");
    }
    if let Some(repeat) = options.least_repeat
        && !times.are_repeated(repeat)
    {
        let half = needed.div_ceil(2);
        let _ = eprintln!(rt; "am_tool: warning: --least-repeat is under {half} s");
    }
}
