//! The player of schedules.

ghost use Rattle.std.specs.Prelude.{◌≡◌, ◌++◌, ℕ, [], IfOk, IfErr, OnOk, string_bytes};
ghost use Rattle.am_cluster.specs.Beginnings.{AreNewborn};
ghost use Rattle.am_schedule.specs.declared.step.Line.TheVariants as kinds;
ghost use Rattle.am_replay.specs.declared.error.ReplayError.TheVariants.{Memory};
ghost use Rattle.am_replay.specs.Lines.{Plays};
ghost use Rattle.am_replay.specs.Playing.{IsOutput, PlaysAll, Reaches, StopsPlaying};

use crate::error::ReplayError;
use crate::flights::tell_flights;
use crate::line::OutputLine;
use crate::observer::{LineAnswer, Observer};
use crate::output::{tell, tell_refusal};
use crate::refusal::{settle_refusal, step_refusal};
use crate::replies::{owner_of, tell_answer};
use crate::reports::tell_reports;
use am_cluster::Cluster;
use am_schedule::{Line, Schedule, Step, Word};
use am_version_order::Moment;
use am_wire::Text;
use std::alloc::{AllocError, Global};

/// Makes a step, appends its output, and returns its outcome. The functions below return the outcome too.
fn play_step(
    cluster: &mut Cluster,
    step: &Step,
    number: u64,
    out: &mut String,
) -> Result<LineAnswer, AllocError>
    ensures { OnOk result (Plays cluster.old (kinds.Step step.now) number cluster.new (string_bytes out.old) (string_bytes out.new)) }
{
    match cluster.step(step, number) {
        Ok(reply) => {
            tell_answer(out, step.action(), &reply)?;
            Ok(LineAnswer::of_reply(&reply))
        }
        Err(error) => tell_refusal(out, owner_of(step.action()), step_refusal(error)),
    }
}

/// Makes a settle, and appends its output.
fn play_settle(
    cluster: &mut Cluster,
    now: Moment,
    number: u64,
    out: &mut String,
) -> Result<LineAnswer, AllocError>
    ensures { OnOk result (Plays cluster.old (kinds.Settle now) number cluster.new (string_bytes out.old) (string_bytes out.new)) }
{
    match cluster.settle(now, number) {
        Ok(()) => {
            tell(out, &OutputLine::Settled)?;
            Ok(LineAnswer::Nothing)
        }
        Err(error) => tell_refusal(out, None, settle_refusal(error)),
    }
}

/// Plays a line, and appends its output.
fn play_line(
    cluster: &mut Cluster,
    line: &Line,
    number: u64,
    out: &mut String,
) -> Result<LineAnswer, AllocError>
    ensures { OnOk result (Plays cluster.old line.now number cluster.new (string_bytes out.old) (string_bytes out.new)) }
{
    match line {
        Line::Step(step) => play_step(cluster, step, number, out),
        Line::Settle(now) => play_settle(cluster, *now, number, out),
        Line::Timely(spread, flight) => {
            let is_timely = cluster.timely(*spread, *flight);
            tell(out, &OutputLine::Timely { is_timely })?;
            Ok(LineAnswer::Is(is_timely))
        }
        Line::Frames => {
            tell_flights(out, cluster)?;
            Ok(LineAnswer::Nothing)
        }
    }
}

/// Plays a line, appends its output, and shows it to the observer.
fn show_line<O: Observer>(
    cluster: &mut Cluster,
    line: &Line,
    number: u64,
    out: &mut String,
    observer: &mut O,
) -> Result<(), AllocError>
    ensures { OnOk result (Plays cluster.old line.now number cluster.new (string_bytes out.old) (string_bytes out.new)) }
{
    let answer = play_line(cluster, line, number, out)?;
    observer.saw(cluster, line, number, answer)
}

/// Plays lines one after the other, and appends their output.
///
/// # Errors
///
/// [`ReplayError::Memory`] with the line at which memory ran out.
fn play_lines<O: Observer>(
    cluster: &mut Cluster,
    lines: &[(Line, u64)],
    out: &mut String,
    observer: &mut O,
) -> Result<(), ReplayError>
    ensures played { OnOk result (PlaysAll cluster.old lines.now cluster.new (string_bytes out.old) (string_bytes out.new)) }
    ensures halted { IfErr result (λ fault. (line : ℕ) × (fault ≡ Memory line) × Reaches cluster.old lines.now line) }
{
    for (index, (line, number)) in lines.iter().enumerate() {
        observer.is_at(index, lines.len());
        match show_line(cluster, line, *number, out, observer) {
            Ok(()) => {}
            Err(_) => return Err(ReplayError::Memory { line: *number }),
        }
    }
    Ok(())
}

/// Copies words into texts.
fn texts(alloc: Global, words: &[Word]) -> Result<Vec<Text>, AllocError>
    ensures { IfOk result (λ texts. texts.items ≡ words.now) }
{
    let mut texts = Vec::with_capacity(alloc, words.len())?;
    for word in words {
        texts.push(Text::copied(alloc, word.as_str())?)?;
    }
    Ok(texts)
}

/// Returns the cluster of a schedule before its first line.
fn newborn(alloc: Global, schedule: &Schedule) -> Result<Cluster, AllocError>
    ensures { IfOk result (AreNewborn schedule.now.names schedule.now.retention schedule.now.peer_timeout) }
{
    let names = texts(alloc, schedule.names.as_slice())?;
    match Cluster::new(alloc, names, schedule.retention, schedule.peer_timeout) {
        Ok(cluster) => Ok(cluster),
        // The names of a schedule that was read are distinct and have 1 to 255 bytes, so only memory can have run out.
        Err(_) => Err(AllocError),
    }
}

/// Plays a schedule, and returns its whole output.
///
/// # Errors
///
/// [`ReplayError::Memory`] with the line at which memory ran out, or with line 0 if it ran out before the first line or
/// after the last one.
pub fn play<O: Observer>(
    alloc: Global,
    schedule: &Schedule,
    observer: &mut O,
) -> Result<String, ReplayError>
    ensures output { IfOk result (λ text. IsOutput schedule.now (string_bytes text)) }
    ensures halted { IfErr result (StopsPlaying schedule.now) }
{
    let mut cluster = newborn(alloc, schedule)?;
    let mut out = String::new(alloc);
    play_lines(&mut cluster, schedule.lines.as_slice(), &mut out, observer)?;
    observer.saw_end(&cluster)?;
    tell_reports(&mut out, &cluster)?;
    Ok(out)
}
