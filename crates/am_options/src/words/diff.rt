//! The words of `diff`.

use super::arguments::{Argument, HOUR, LOG, Rule, STATE, TEXT, Takes, with_arguments};
use super::{Mistake, ensure, ensure_file, has_name_twice, now_of, sources_of, state_of, time_of};
use crate::job::{DiffForm, DiffJob, Job, StateName};
use crate::source::{STANDARD_INPUT, SourceWord, are_live};
use am_peers::port_of;
use am_report::Compared;
use clap::{ArgMatches, Command};
use std::alloc::{AllocError, Global};

/// Returns the command.
pub fn command<'a>(alloc: Global) -> Result<Command<'a>, AllocError> {
    let command = Command::new(alloc, "diff")
        .about(
            "Reads what several replicas hold, and prints in key order at which keys they differ, and which of them counts",
        )
        .after_help(AFTER);
    with_arguments(alloc, command, ARGUMENTS)
}

/// The options and words, in the order of the help.
const ARGUMENTS: &[Argument] = &[
    Argument {
        name: "state",
        takes: STATE,
        rule: Rule::Required,
        help: "The state that the sources are of: silences or the notification log",
    },
    Argument {
        name: "now",
        takes: Takes::Value("MOMENT", TEXT),
        rule: Rule::Optional,
        help: "The moment of the views, in nanoseconds since 1970 or as 2026-11-26T12:00:00Z; without it, the clock's",
    },
    Argument {
        name: "held",
        takes: Takes::Nothing,
        rule: Rule::Optional,
        help: "Compares all that the sources hold, what has expired too, and not only what they show",
    },
    Argument {
        name: "long",
        takes: Takes::Nothing,
        rule: Rule::OneOf("form"),
        help: "Also prints below each line the matchers, author and comment of a silence and what changed, or receiver and group of an entry",
    },
    Argument {
        name: "json",
        takes: Takes::Nothing,
        rule: Rule::OneOf("form"),
        help: "Prints the differences as a list in JSON, on one line, in place of the lines",
    },
    Argument {
        name: "prometheus",
        takes: Takes::Nothing,
        rule: Rule::OneOf("form"),
        help: "Prints figures in Prometheus' text format in place of the lines: of each source at how many keys it holds none (missing) or a lesser version (behind), and the moment",
    },
    Argument {
        name: "time-limit",
        takes: Takes::Value("S", HOUR),
        rule: Rule::Default("5"),
        help: "For how many seconds a connection to a server may last, 1 to 3600",
    },
    LOG,
    Argument {
        name: "source",
        takes: Takes::Words("SOURCE"),
        rule: Rule::Required,
        help: "NAME=FILE, cut at its first '=', or FILE, which is then its own name; '-' is standard input, gossip://HOST:PORT an Alertmanager asked by its gossip, and http://HOST:PORT a server, perhaps with a path; 2 to 16 of them",
    },
];

/// Reads the job that the words name. The moment is judged first, and then the sources.
pub fn read_job<'a>(alloc: Global, args: &ArgMatches<'a>) -> Result<Job<'a>, Mistake<'a>> {
    let now = now_of(args)?;
    let sources = sources_of(alloc, args, "source")?;
    judge(args, &sources)?;
    Ok(Job::Diff(DiffJob {
        state: state_of(args),
        compared: compared_of(args),
        report: report_of(args),
        is_long: args.get_flag("long"),
        now,
        sources,
        time_limit: time_of(args, "time-limit"),
        has_logs: args.get_flag("log"),
    }))
}

/// Checks the sources.
fn judge<'a>(args: &ArgMatches<'a>, sources: &[SourceWord<'a>]) -> Result<(), Mistake<'a>> {
    judge_words(sources)?;
    judge_servers(args, sources)?;
    ensure_file(args, sources.iter().any(|source| source.is_file()))
}

/// Returns the form in which the options want differences reported.
fn report_of(args: &ArgMatches<'_>) -> DiffForm {
    if args.get_flag("json") {
        DiffForm::Json
    } else if args.get_flag("prometheus") {
        DiffForm::Figures
    } else {
        DiffForm::Lines
    }
}

/// Returns the part of the sources that is compared.
fn compared_of(args: &ArgMatches<'_>) -> Compared {
    if args.get_flag("held") {
        Compared::Held
    } else {
        Compared::Shown
    }
}

/// Checks that there are 2 to 16 sources, of names of their own, and that each is written as a source.
fn judge_words<'a>(sources: &[SourceWord<'a>]) -> Result<(), Mistake<'a>> {
    let count = sources.len();
    let inputs = sources
        .iter()
        .filter(|source| source.file == STANDARD_INPUT)
        .count();
    ensure(
        2 <= count && count <= 16,
        "invalid values for '<SOURCE>...': 2 to 16 sources are wanted",
    )?;
    ensure(
        !has_name_twice(sources),
        "invalid values for '<SOURCE>...': two sources have one name",
    )?;
    ensure(
        inputs <= 1,
        "invalid values for '<SOURCE>...': '-' is named twice",
    )?;
    ensure(
        !sources
            .iter()
            .any(|source| source.file.starts_with("https://")),
        NO_HTTPS,
    )?;
    ensure(
        !sources.iter().any(|source| is_address(source.file)),
        NO_SCHEME,
    )
}

/// Checks that each server and each replica has an address, and that what is compared is what a server shows.
fn judge_servers<'a>(args: &ArgMatches<'a>, sources: &[SourceWord<'a>]) -> Result<(), Mistake<'a>> {
    let is_shown = state_of(args) == StateName::Silences && !args.get_flag("held");
    ensure(is_shown || !are_live(sources), SHOWN_ALONE)?;
    ensure(
        sources
            .iter()
            .all(|it| it.place().is_none() || it.server().is_some()),
        BAD_SERVER,
    )?;
    ensure(
        sources
            .iter()
            .all(|it| it.gossip_place().is_none() || it.replica().is_some()),
        BAD_GOSSIP,
    )
}

/// Returns whether a file's name is a host with its port.
fn is_address(file: &str) -> bool {
    if file.contains('/') {
        return false;
    }
    match file.rsplit_once(':') {
        Some((host, digits)) => !host.is_empty() && port_of(digits).is_some(),
        None => false,
    }
}

const AFTER: &str = "\
Of each key that differs there is a line for each group of sources that hold the same there: first those that have the
greatest version, which counts, then those that are behind, and by what (update, expiry, bytes or unknown fields), and
then those that hold nothing.

By gossip://HOST:PORT, where it listens for other replicas, an Alertmanager tells all it holds, so it is compared as its files
are, and takes no notice.

A server is a member or an Alertmanager, at an address of IPv4, of IPv6 in brackets, or localhost: what it lists at
/api/v2/silences, below the path, is compared. Beside a server all sources are compared by what API v2 shows of them: moments are cut to
milliseconds, and a silence counts until its end.

The status is 0 where nothing is different, and 5 where something is.

Examples:
  am_tool diff --state nfl a=gossip://10.0.0.1:9094 b=gossip://10.0.0.2:9094
  am_tool diff --state sil a=http://127.0.0.1:9093 b=http://10.0.0.2:9093 c=c.sil
  am_tool diff --state sil --long a=a.sil b=b.sil c=c.sil
  am_tool diff --state sil --log a=a.sil b=b.sil
  ssh b cat b.nfl | am_tool diff --state nfl --held a=a.nfl b=-
  am_tool diff --state sil --json a=a.sil b=b.sil | jq -r '.[].key.id'
  am_tool diff --state sil --prometheus a=gossip://10.0.0.1:9094 b=gossip://10.0.0.2:9094";

const SHOWN_ALONE: &str =
    "invalid values for '<SOURCE>...': of a server only the silences that it shows are compared, so neither --held nor --state nfl goes with one";

const NO_HTTPS: &str =
    "invalid values for '<SOURCE>...': no server is asked by HTTPS: a proxy before it is named, as http://HOST:PORT";

const NO_SCHEME: &str =
    "invalid values for '<SOURCE>...': HOST:PORT is no source: a server is http://HOST:PORT, a replica asked by its gossip gossip://HOST:PORT, and a file of that name ./HOST:PORT";

const BAD_SERVER: &str =
    "invalid values for '<SOURCE>...': http://HOST:PORT is wanted, with an address or localhost as HOST, perhaps with a path";

const BAD_GOSSIP: &str =
    "invalid values for '<SOURCE>...': gossip://HOST:PORT is wanted, with an address or localhost as HOST";
