//! The program: it plays a schedule, runs the commands over snapshots and rows, or runs a member.
#![tactic(auto)]

mod refusal;

use am_commands::{Streams, run_diff, run_fold, run_mend, run_pull, run_push, run_show};
use am_options::{Job, job_of, words_of};
use am_player::run_replay;
use std::process::ExitCode;

/// Does the job that the words ask for, and returns the exit status of the program.
fn run<'a>(rt: &'a HostRuntime, job: Job<'a>) -> u8 {
    match job {
        Job::Replay(file) => run_replay(rt, &mut rt.stdin(), &mut rt.stdout(), file),
        Job::Fold(job) => run_fold(rt, streams_of(rt), &job),
        Job::Show(job) => run_show(rt, streams_of(rt), &job),
        Job::Diff(job) => run_diff(rt, streams_of(rt), &job),
        Job::Pull(job) => run_pull(rt, streams_of(rt), &job),
        Job::Push(job) => run_push(rt, streams_of(rt), &job),
        Job::Mend(job) => run_mend(rt, streams_of(rt), &job),
        Job::Instance(options) => am_daemon::run(rt, &options),
    }
}

/// Returns the standard streams of the process.
fn streams_of(rt: &HostRuntime) -> Streams {
    Streams {
        input: rt.stdin(),
        output: rt.stdout(),
    }
}

fn main(rt: HostRuntime) -> ExitCode {
    let status = match words_of(&rt) {
        Ok(words) => start(&rt, &words),
        Err(error) => refusal::refuse(&rt, &error),
    };
    ExitCode::from(status)
}

/// Does what the words ask for, or says why there is nothing to do, and returns the exit status of the program.
fn start<'a>(rt: &'a HostRuntime, words: &'a [String]) -> u8 {
    match job_of(rt, words) {
        Ok(job) => run(rt, job),
        Err(error) => refusal::refuse(rt, &error),
    }
}
