//! The texts that are printed if the words of the command line give no job.

use am_diagnostics::{Fault, report, status};
use am_options::WordsError;
use am_snapshot::SnapshotError;
use am_wire::send;
use clap::error::ErrorKind;
use std::alloc::AllocError;

/// Prints why there is no job: a help text or the version on standard output, everything else on standard error. Returns the
/// exit status of the program.
pub fn refuse(rt: &HostRuntime, error: &WordsError) -> u8 {
    match error {
        WordsError::NotUtf8 => {
            let _ = eprintln!(rt; "am_tool: a word of the command line is not UTF-8");
            status::WORDS
        }
        WordsError::Text(text) if is_asked_for(text.kind()) => print_help(rt, text),
        WordsError::Text(text) => {
            let _ = text.print(rt);
            status::WORDS
        }
        WordsError::Peer => report(rt, Fault::Peer),
        WordsError::Memory => report(rt, Fault::Memory(AllocError)),
    }
}

/// Returns whether a text was asked for, which is a help text or the version.
fn is_asked_for(kind: ErrorKind) -> bool {
    matches!(kind, ErrorKind::DisplayHelp | ErrorKind::DisplayVersion)
}

/// Prints a text that was asked for on standard output, and returns the exit status of the program.
fn print_help(rt: &HostRuntime, help: &clap::Error) -> u8 {
    let Ok(text) = help.to_string(rt.alloc()) else {
        return report(rt, Fault::Memory(AllocError));
    };
    let mut output = rt.stdout();
    match send(&mut output, text.as_bytes()) {
        Ok(()) => status::DONE,
        Err(stopped) => report(rt, Fault::from(SnapshotError::from(stopped))),
    }
}
