//! The words of `mend`.

use super::arguments::{Argument, Rule, STATE, Takes, with_arguments};
use super::live::{MOMENT, REPLICA_TIME};
use super::{Mistake, ensure, has_name_twice, now_of, sources_of, state_of, time_of};
use crate::job::{Job, MendJob, PullJob};
use crate::source::SourceWord;
use clap::{ArgMatches, Command};
use std::alloc::{AllocError, Global};

/// Returns the command.
pub fn command<'a>(alloc: Global) -> Result<Command<'a>, AllocError> {
    let command = Command::new(alloc, "mend")
        .about(
            "Asks running Alertmanagers by their gossip what they hold, tells how they differ, and with --apply sends each what it lacks",
        )
        .after_help(AFTER);
    with_arguments(alloc, command, ARGUMENTS)
}

/// The options and words, in the order of the help.
const ARGUMENTS: &[Argument] = &[
    Argument {
        name: "state",
        takes: STATE,
        rule: Rule::Required,
        help: "The state that is mended: silences or the notification log",
    },
    MOMENT,
    Argument {
        name: "apply",
        takes: Takes::Nothing,
        rule: Rule::Optional,
        help: "Sends each replica what it lacks, and compares all again; without it, nothing is sent",
    },
    Argument {
        name: "without",
        takes: Takes::Values("NAME"),
        rule: Rule::Optional,
        help: "Leaves out the replica of this name, as one that can't be reached",
    },
    REPLICA_TIME,
    Argument {
        name: "replica",
        takes: Takes::Words("REPLICA"),
        rule: Rule::Required,
        help: "NAME=gossip://HOST:PORT, where the replica listens for others (--cluster.listen-address), or gossip://HOST:PORT, which is then its own name; 2 to 16 of them",
    },
];

/// Reads the job that the words name. The moment is judged first, and then the replicas.
pub fn read_job<'a>(alloc: Global, args: &ArgMatches<'a>) -> Result<Job<'a>, Mistake<'a>> {
    let now = now_of(args)?;
    let sources = sources_of(alloc, args, "replica")?;
    judge_words(&sources, args.get_strs("without").unwrap_or(&[]))?;
    let replicas = replicas_of(alloc, args, &sources)?;
    let count = replicas.len();
    ensure(2 <= count && count <= 16, BAD_NUMBER)?;
    Ok(Job::Mend(MendJob {
        state: state_of(args),
        replicas,
        is_applied: args.get_flag("apply"),
        now,
    }))
}

/// Checks that the replicas have names of their own and addresses, and that those that are left out are among them.
fn judge_words<'a>(sources: &[SourceWord<'a>], without: &[&str]) -> Result<(), Mistake<'a>> {
    let is_known = |name: &&str| sources.iter().any(|source| source.name == *name);
    ensure(
        !has_name_twice(sources),
        "invalid values for '<REPLICA>...': two replicas have one name",
    )?;
    ensure(
        sources.iter().all(|source| source.replica().is_some()),
        BAD_REPLICA,
    )?;
    ensure(
        without.iter().all(is_known),
        "invalid value for '--without <NAME>': no replica has this name",
    )
}

/// Returns what to ask each replica that isn't left out.
fn replicas_of<'a>(
    alloc: Global,
    args: &ArgMatches<'a>,
    sources: &[SourceWord<'a>],
) -> Result<Vec<PullJob<'a>>, AllocError> {
    let without = args.get_strs("without").unwrap_or(&[]);
    let mut replicas = Vec::with_capacity(alloc, sources.len())?;
    for source in sources {
        let name = source.name;
        if let Some(replica) = source.replica()
            && !without.iter().any(|other| *other == name)
        {
            replicas.push(PullJob {
                state: state_of(args),
                name,
                replica,
                time_limit: time_of(args, "time-limit"),
            })?;
        }
    }
    Ok(replicas)
}

const AFTER: &str = "\
It prints the long lines of diff: who has the last write of what differs, who is behind or lacks it, and what changed. Nothing is
sent without --apply.

With --apply, lines tell which versions each replica is sent, which are later than the moment and never sent, and which it refused,
as those of push do. Then all are asked once more, and what still differs is printed.

A replica that doesn't answer ends the command before anything is sent; --without leaves it out.

The status is 0 where nothing differs at the end, and 5 where something does.

Examples:
  am_tool mend --state sil a=gossip://10.0.0.1:9094 b=gossip://10.0.0.2:9094
  am_tool mend --apply --state sil a=gossip://10.0.0.1:9094 b=gossip://10.0.0.2:9094";

const BAD_NUMBER: &str =
    "invalid values for '<REPLICA>...': 2 to 16 replicas are wanted, beside those of --without";

const BAD_REPLICA: &str =
    "invalid values for '<REPLICA>...': NAME=gossip://HOST:PORT is wanted, with an address or localhost as HOST";
