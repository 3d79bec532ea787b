//! The words of the command line, and the job that they ask for.

ghost use Rattle.std.specs.Prelude.{◌≡◌, ◌≢◌};

mod arguments;
mod diff;
mod files;
mod instance;
mod live;
mod mend;

use crate::VERSION;
use crate::job::{Job, StateName};
use crate::source::SourceWord;
use am_peers::number_within;
use am_silence_json::moments::read_moment;
use am_version_order::Moment;
use am_wire::Unknown;
use clap::builder::ValueParser;
use clap::error::ErrorKind;
use clap::{Arg, ArgMatches, Command};
use std::alloc::{AllocError, Global};
use std::rt::{Env, Files};
use std::time::Duration;
use std::{env, io};

/// The reason that the words of the command line give no job.
#[derive(Drop)]
pub enum WordsError {
    /// A word isn't UTF-8.
    NotUtf8,
    /// Help was asked for, or a mistake was made: the text says which.
    Text(clap::Error),
    /// A peer isn't written as NAME=PORT.
    Peer,
    /// Memory ran out.
    Memory,
}

impl From<AllocError> for WordsError {
    ghost use Rattle.am_options.specs.declared.words.WordsError.TheVariants.{Memory};

    ghost from_gives = { λ _ error. error ≡ Memory };

    fn from(_error: AllocError) -> WordsError {
        WordsError::Memory
    }
}

impl From<clap::Error> for WordsError {
    ghost use Rattle.am_options.specs.declared.words.WordsError.TheVariants.{NotUtf8};

    ghost from_gives = { λ _ error. error ≢ NotUtf8 };

    fn from(error: clap::Error) -> WordsError {
        match error.kind() {
            ErrorKind::OutOfMemory => WordsError::Memory,
            _ => WordsError::Text(error),
        }
    }
}

/// The reason that the arguments of a command give no job.
#[derive(Clone, Copy)]
enum Mistake<'a> {
    /// A value that `clap` takes is wrong: the text says how.
    Value(&'a str),
    /// A peer isn't written as NAME=PORT.
    Peer,
    /// Memory ran out.
    Memory,
}

impl From<AllocError> for Mistake<'_> {
    ghost use Rattle.am_options.specs.declared.words.Mistake.TheVariants.{Memory};

    ghost from_gives = { λ _ mistake. mistake ≡ Memory };

    fn from(_error: AllocError) -> Self {
        Mistake::Memory
    }
}

/// Returns the job that the words of the command line ask for, which is to play a schedule if there are none. The first word is
/// the program's name.
///
/// # Errors
///
/// [`WordsError::Text`] if help is asked for or a word is a mistake; [`WordsError::Peer`]; and [`WordsError::Memory`].
pub fn job_of<'a, R: Files + AllocGlobal>(
    rt: &R,
    words: &'a [String],
) -> Result<Job<'a>, WordsError> {
    if words.len() <= 1 {
        return Ok(Job::Replay(None));
    }
    let matches = program(rt.alloc())?.try_get_matches_from(words)?;
    read_job(rt, &matches)
}

/// Returns the program's name and the words that follow it.
///
/// # Errors
///
/// [`WordsError::NotUtf8`] and [`WordsError::Memory`].
pub fn words_of<R: Env + AllocGlobal>(rt: &R) -> Result<Vec<String>, WordsError> {
    match env::args(rt) {
        Ok(words) => Ok(words.collect(rt.alloc())?),
        Err(error) if error.kind() == io::ErrorKind::OutOfMemory => Err(WordsError::Memory),
        Err(_) => Err(WordsError::NotUtf8),
    }
}

/// The names of the program's commands, in the order of its help.
const COMMANDS: [&str; 8] = [
    "replay", "fold", "show", "diff", "pull", "push", "mend", "instance",
];

/// Returns the command of a name, which is `replay` for any other one.
fn command_of<'a>(alloc: Global, name: &str) -> Result<Command<'a>, AllocError> {
    match name {
        "fold" => files::fold_command(alloc),
        "show" => files::show_command(alloc),
        "diff" => diff::command(alloc),
        "pull" => live::pull_command(alloc),
        "push" => live::push_command(alloc),
        "mend" => mend::command(alloc),
        "instance" => instance::command(alloc),
        _ => files::replay_command(alloc),
    }
}

/// Returns the program as `clap` has it, with its commands.
fn program<'a>(alloc: Global) -> Result<Command<'a>, AllocError> {
    let mut program = Command::new(alloc, "am_tool")
        .version(VERSION)
        .about("The state that instances of Alertmanager share")
        .subcommand_required(true);
    for name in &COMMANDS {
        let command = command_of(alloc, name)?;
        program = program.subcommand(command)?;
    }
    Ok(program)
}

/// Reads the job of the command of a name.
fn read_named<'a, R: Files + AllocGlobal>(
    rt: &R,
    name: &str,
    args: &ArgMatches<'a>,
) -> Result<Job<'a>, Mistake<'a>> {
    let alloc = rt.alloc();
    match name {
        "fold" => files::read_fold(alloc, args),
        "show" => files::read_show(args),
        "diff" => diff::read_job(alloc, args),
        "pull" => live::read_pull(args),
        "push" => live::read_push(args),
        "mend" => mend::read_job(alloc, args),
        "instance" => instance::read_job(rt, args),
        _ => Ok(files::read_replay(args)),
    }
}

/// Returns the error of a mistake in the arguments of a command.
fn error_of(alloc: Global, command: Command<'_>, mistake: Mistake<'_>) -> WordsError {
    match mistake {
        Mistake::Value(text) => refusal(alloc, command, text),
        Mistake::Peer => WordsError::Peer,
        Mistake::Memory => WordsError::Memory,
    }
}

/// Reads the job that is asked for.
fn read_job<'a, R: Files + AllocGlobal>(
    rt: &R,
    matches: &ArgMatches<'a>,
) -> Result<Job<'a>, WordsError> {
    let alloc = rt.alloc();
    let Some((name, args)) = matches.subcommand() else {
        return Ok(Job::Replay(None));
    };
    let command = command_of(alloc, name)?;
    if let Some(text) = signed_number(alloc, &command, args)? {
        return Err(refusal(alloc, command, &text));
    }
    match read_named(rt, name, args) {
        Ok(job) => Ok(job),
        Err(mistake) => Err(error_of(alloc, command, mistake)),
    }
}

/// Returns the message for the first number with a plus sign, which `clap` takes.
fn signed_number(
    alloc: Global,
    command: &Command<'_>,
    args: &ArgMatches<'_>,
) -> Result<Option<String>, AllocError> {
    match command
        .get_arguments()
        .iter()
        .find(|arg| has_sign(arg, args))
    {
        Some(arg) => {
            let text = format!(in alloc;
                "invalid value for '{arg}': a whole number is wanted, in digits alone"
            )?;
            Ok(Some(text))
        }
        None => Ok(None),
    }
}

/// Returns whether an argument is a number, and its value begins with a plus sign.
fn has_sign(arg: &Arg<'_>, args: &ArgMatches<'_>) -> bool {
    let is_number = matches!(
        arg.get_value_parser(),
        ValueParser::Signed(_, _) | ValueParser::Unsigned(_, _)
    );
    is_number
        && args
            .get_str(arg.get_id())
            .is_some_and(|word| word.starts_with('+'))
}

/// Returns an error that says in a text that a value is wrong, and has the usage of its command.
fn refusal(alloc: Global, command: Command<'_>, text: &str) -> WordsError {
    match refusal_of(alloc, command, text) {
        Ok(error) => WordsError::from(error),
        Err(error) => WordsError::from(error),
    }
}

/// Returns the error of a command that stands below the program's.
fn refusal_of(alloc: Global, command: Command<'_>, text: &str) -> Result<clap::Error, AllocError> {
    let name = command.get_name();
    let bin_name = format!(in alloc; "am_tool {name}")?;
    let mut command = command.bin_name(&bin_name)?;
    command.error(ErrorKind::ValueValidation, text)
}

/// Returns an error with a text unless a condition holds.
fn ensure(holds: bool, text: &str) -> Result<(), Mistake<'_>> {
    if holds {
        Ok(())
    } else {
        Err(Mistake::Value(text))
    }
}

/// Returns the state that an option names.
fn state_of(args: &ArgMatches<'_>) -> StateName {
    match args.get_str("state") {
        Some("nfl") => StateName::Log,
        _ => StateName::Silences,
    }
}

/// Returns the moment that an option names, if any.
fn now_of<'a>(args: &ArgMatches<'a>) -> Result<Option<Moment>, Mistake<'a>> {
    match args.get_str("now") {
        Some(word) => Ok(Some(moment_of(word).ok_or(Mistake::Value(BAD_NOW))?)),
        None => Ok(None),
    }
}

const BAD_NOW: &str =
    "invalid value for '--now <MOMENT>': nanoseconds since 1970 are wanted, below 2^64 and in digits alone, or a moment as 2026-11-26T12:00:00Z";

/// Reads a moment as nanoseconds since 1970, or as a date-time of RFC 3339.
fn moment_of(word: &str) -> Option<Moment> {
    match number_within(0, u64::MAX, word) {
        Some(nanos) => Some(since_1970(nanos)),
        None => read_moment(word),
    }
}

fn since_1970(nanos: u64) -> Moment {
    let seconds = (nanos / NANOS_PER_SECOND) as i64;
    let rest = (nanos % NANOS_PER_SECOND) as u32;
    Moment::from_parts(seconds, rest).unwrap()
}

const NANOS_PER_SECOND: u64 = 1_000_000_000;

/// Returns the time of an option in seconds, if it is given.
fn seconds_of(args: &ArgMatches<'_>, name: &str) -> Option<Duration> {
    let seconds = args.get_one::<u64>(name)?;
    Some(Duration::from_secs(seconds))
}

/// Returns the time of an option in seconds that always has one.
fn time_of(args: &ArgMatches<'_>, name: &str) -> Duration {
    seconds_of(args, name).unwrap_or_default()
}

/// Checks that a file is named if logs are asked for.
fn ensure_file<'a>(args: &ArgMatches<'a>, names_file: bool) -> Result<(), Mistake<'a>> {
    ensure(
        names_file || !args.get_flag("log"),
        "'--log' wants a file that is named: neither standard input nor a server has a log beside it",
    )
}

/// Returns what to do with unknown fields: they are dropped unless an option keeps them.
fn unknown_of(args: &ArgMatches<'_>) -> Unknown {
    if args.get_flag("keep-unknown") {
        Unknown::Keep
    } else {
        Unknown::Drop
    }
}

/// Returns the sources that the words of an argument name: each is NAME=FILE, which is cut at the first `=`, or FILE, which is then
/// its own name.
fn sources_of<'a>(
    alloc: Global,
    args: &ArgMatches<'a>,
    name: &str,
) -> Result<Vec<SourceWord<'a>>, AllocError> {
    let words = args.get_strs(name).unwrap_or(&[]);
    let mut sources = Vec::with_capacity(alloc, words.len())?;
    for word in words {
        let (name, file) = word.split_once('=').unwrap_or((word, word));
        sources.push(SourceWord { name, file })?;
    }
    Ok(sources)
}

/// Returns whether two sources have the same name.
fn has_name_twice(sources: &[SourceWord<'_>]) -> bool {
    for (place, source) in sources.iter().enumerate() {
        let name = source.name;
        if sources[..place].iter().any(|other| other.name == name) {
            return true;
        }
    }
    false
}
