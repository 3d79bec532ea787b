//! The words of `pull` and `push`.

use super::arguments::{Argument, HOUR, Rule, STATE, TEXT, Takes, with_arguments};
use super::{Mistake, now_of, state_of, time_of};
use crate::job::{Job, PullJob, PushJob};
use crate::source::SourceWord;
use clap::{ArgMatches, Command};
use std::alloc::{AllocError, Global};

/// Returns the command `pull`.
pub fn pull_command<'a>(alloc: Global) -> Result<Command<'a>, AllocError> {
    let command = Command::new(alloc, "pull")
        .about(
            "Reads a state of a running Alertmanager by its gossip, and writes it as a snapshot, in key order",
        )
        .after_help(AFTER_PULL);
    with_arguments(alloc, command, PULL)
}

/// Returns the command `push`.
pub fn push_command<'a>(alloc: Global) -> Result<Command<'a>, AllocError> {
    let command = Command::new(alloc, "push")
        .about(
            "Sends a running Alertmanager by its gossip those of the versions on standard input that it lacks, and tells which it doesn't hold then",
        )
        .after_help(AFTER_PUSH);
    with_arguments(alloc, command, PUSH)
}

/// The options and the word of `pull`, in the order of the help.
const PULL: &[Argument] = &[
    Argument {
        name: "state",
        takes: STATE,
        rule: Rule::Required,
        help: "The state that is read: silences or the notification log",
    },
    REPLICA_TIME,
    REPLICA,
];

/// The options and the word of `push`, in the order of the help.
const PUSH: &[Argument] = &[
    Argument {
        name: "state",
        takes: STATE,
        rule: Rule::Required,
        help: "The state that the versions are of: silences or the notification log",
    },
    MOMENT,
    Argument {
        name: "dry-run",
        takes: Takes::Nothing,
        rule: Rule::Optional,
        help: "Sends nothing, and tells what it would send",
    },
    REPLICA_TIME,
    REPLICA,
];

/// The option that names the moment of a comparison.
pub const MOMENT: Argument = Argument {
    name: "now",
    takes: Takes::Value("MOMENT", TEXT),
    rule: Rule::Optional,
    help: "The moment, in nanoseconds since 1970 or as 2026-11-26T12:00:00Z; without it, the clock's",
};

/// The option for how long a connection to a replica may last.
pub const REPLICA_TIME: Argument = Argument {
    name: "time-limit",
    takes: Takes::Value("S", HOUR),
    rule: Rule::Default("10"),
    help: "For how many seconds a connection to the replica may last, 1 to 3600",
};

/// The word for the replica that is asked.
const REPLICA: Argument = Argument {
    name: "replica",
    takes: Takes::Word("REPLICA"),
    rule: Rule::Required,
    help: "gossip://HOST:PORT, where the replica listens for others (--cluster.listen-address), with an address of IPv4, of IPv6 in brackets, or localhost",
};

/// Reads which state to pull.
pub fn read_pull<'a>(args: &ArgMatches<'a>) -> Result<Job<'a>, Mistake<'a>> {
    Ok(Job::Pull(pull_of(args)?))
}

/// Reads which replica to send versions to. The moment is judged first.
pub fn read_push<'a>(args: &ArgMatches<'a>) -> Result<Job<'a>, Mistake<'a>> {
    let now = now_of(args)?;
    Ok(Job::Push(PushJob {
        to: pull_of(args)?,
        is_dry: args.get_flag("dry-run"),
        now,
    }))
}

/// Returns the state and the replica that the words name.
fn pull_of<'a>(args: &ArgMatches<'a>) -> Result<PullJob<'a>, Mistake<'a>> {
    let name = args.get_str("replica").unwrap_or("");
    let source = SourceWord { name, file: name };
    Ok(PullJob {
        state: state_of(args),
        name,
        replica: source.replica().ok_or(Mistake::Value(BAD_REPLICA))?,
        time_limit: time_of(args, "time-limit"),
    })
}

const BAD_REPLICA: &str =
    "invalid value for '<REPLICA>': gossip://HOST:PORT is wanted, with an address or localhost as HOST";

const AFTER_PULL: &str = "\
The replica is asked as other replicas ask it, and takes no notice: no member is added to its cluster. A cluster with TLS between
its replicas is not asked.

Examples:
  am_tool pull --state sil gossip://10.0.0.1:9094 > a.sil
  am_tool pull --state nfl gossip://localhost:9094 | am_tool show --state nfl";

const AFTER_PUSH: &str = "\
The replica is asked first what it holds. What is greater in the input is sent, and what the replica lacks, each key once, with
the bytes that were read; a version that was updated after the moment is not, since it would block others until then. Then the
replica is asked again. Lines tell which versions were sent, which are later than the moment, and which the replica refused: by
expiry, which is past, by tie, where what it holds was updated at the same moment, or by replica, which has another cause.

The status is 0 where the replica holds all of them or greater ones, and 5 where it doesn't. With --dry-run it is 5 where
something would be sent.

Examples:
  cat a.sil b.sil c.sil | am_tool fold --keep-unknown --state sil --now 0 | am_tool push --state sil gossip://10.0.0.1:9094
  am_tool push --state nfl --dry-run gossip://10.0.0.1:9094 < all.nfl";
