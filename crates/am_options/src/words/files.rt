//! The words of `replay`, `fold` and `show`.

use super::arguments::{Argument, LOG, Rule, STATE, TEXT, Takes, U32, with_arguments};
use super::{Mistake, ensure_file, now_of, state_of, unknown_of};
use crate::job::{FoldJob, Job, ShowJob, ViewForm};
use crate::source::is_file;
use am_version_order::Moment;
use clap::{ArgMatches, Command};
use std::alloc::{AllocError, Global};

/// The option that keeps unknown fields.
const KEEP_UNKNOWN: Argument = Argument {
    name: "keep-unknown",
    takes: Takes::Nothing,
    rule: Rule::Optional,
    help: "Keeps the fields of versions that aren't known here, as those of a later Alertmanager; without it, they are dropped",
};

/// Returns the command `replay`.
pub fn replay_command<'a>(alloc: Global) -> Result<Command<'a>, AllocError> {
    let command = Command::new(alloc, "replay").about(
        "Plays a schedule on a cluster, and prints what its members answer; so does am_tool without words",
    );
    with_arguments(alloc, command, REPLAY)
}

/// The option of `replay`.
const REPLAY: &[Argument] = &[Argument {
    name: "picture",
    takes: Takes::Value("FILE", TEXT),
    rule: Rule::Optional,
    help: "Also draws what was played, in this file as SVG; a schedule of over 2,000 steps is refused then",
}];

/// Returns the job to play a schedule.
pub fn read_replay<'a>(args: &ArgMatches<'a>) -> Job<'a> {
    Job::Replay(args.get_str("picture"))
}

/// Returns the command `fold`.
pub fn fold_command<'a>(alloc: Global) -> Result<Command<'a>, AllocError> {
    let command = Command::new(alloc, "fold")
        .about("Reads a row of versions, and writes the one that counts of each key, in key order")
        .after_help(AFTER_FOLD);
    with_arguments(alloc, command, FOLD)
}

/// The options and words of `fold`, in the order of the help.
const FOLD: &[Argument] = &[
    Argument {
        name: "state",
        takes: STATE,
        rule: Rule::Required,
        help: "The state that the row is of: silences or the notification log",
    },
    Argument {
        name: "now",
        takes: Takes::Value("MOMENT", TEXT),
        rule: Rule::RequiredUnless("log"),
        help: "The moment of taking, in nanoseconds since 1970 or as 2026-11-26T12:00:00Z; with --log it may be left out",
    },
    LOG,
    Argument {
        name: "most-bytes",
        takes: Takes::Value("BYTES", U32),
        rule: Rule::Default("67108864"),
        help: "How many bytes each input and the result may have, 1 to 4294967295",
    },
    KEEP_UNKNOWN,
    Argument {
        name: "file",
        takes: Takes::Words("FILE"),
        rule: Rule::Optional,
        help: "Files with rows, which are folded together; '-' is standard input, which is read where no file is named",
    },
];

/// Reads which rows to fold.
pub fn read_fold<'a>(alloc: Global, args: &ArgMatches<'a>) -> Result<Job<'a>, Mistake<'a>> {
    let now = now_of(args)?;
    let files = args.get_strs("file").unwrap_or(&[]);
    ensure_file(args, files.iter().any(|file| is_file(file)))?;
    Ok(Job::Fold(FoldJob {
        state: state_of(args),
        files: Vec::from_slice(alloc, files)?,
        has_logs: args.get_flag("log"),
        now: now.unwrap_or(Moment::LEAST),
        most: args.get_one("most-bytes").unwrap_or_default(),
        unknown: unknown_of(args),
    }))
}

/// Returns the command `show`.
pub fn show_command<'a>(alloc: Global) -> Result<Command<'a>, AllocError> {
    let command = Command::new(alloc, "show")
        .about("Reads a snapshot, and prints a line for each version that is live, in key order")
        .after_help(AFTER_SHOW);
    with_arguments(alloc, command, SHOW)
}

/// The options and words of `show`, in the order of the help.
const SHOW: &[Argument] = &[
    Argument {
        name: "state",
        takes: STATE,
        rule: Rule::Required,
        help: "The state that the snapshot is of: silences or the notification log",
    },
    Argument {
        name: "now",
        takes: Takes::Value("MOMENT", TEXT),
        rule: Rule::Optional,
        help: "The moment of the view, in nanoseconds since 1970 or as 2026-11-26T12:00:00Z; without it, the clock's",
    },
    Argument {
        name: "json",
        takes: Takes::Nothing,
        rule: Rule::Optional,
        help: "Prints a list in JSON, on one line: silences as API v2 shows them, or entries of the log",
    },
    LOG,
    KEEP_UNKNOWN,
    Argument {
        name: "file",
        takes: Takes::Word("FILE"),
        rule: Rule::Optional,
        help: "The file of the snapshot; '-' is standard input, which is read where no file is named",
    },
];

/// Reads which snapshot to show.
pub fn read_show<'a>(args: &ArgMatches<'a>) -> Result<Job<'a>, Mistake<'a>> {
    let now = now_of(args)?;
    let file = args.get_str("file");
    ensure_file(args, file.is_some_and(is_file))?;
    Ok(Job::Show(ShowJob {
        state: state_of(args),
        file,
        has_logs: args.get_flag("log"),
        form: if args.get_flag("json") {
            ViewForm::Json
        } else {
            ViewForm::Lines
        },
        now,
        unknown: unknown_of(args),
    }))
}

const AFTER_FOLD: &str = "\
Examples:
  cat am1/silences am2/silences | am_tool fold --state sil --now 0 > silences
  am_tool fold --log --state sil a.sil > silences";

const AFTER_SHOW: &str = "\
Examples:
  am_tool show --state sil < silences
  am_tool show --state sil --log a.sil
  am_tool show --state sil --now 2026-11-26T12:00:00Z --json < silences | jq -r '.[].comment'";
