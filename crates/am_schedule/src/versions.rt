//! The lines that give a version a label, and the labels of a `from`.

ghost use Rattle.std.specs.Prelude.{◌≡◌, ℕ, List, [], ◌∷◌, ◌++◌, map, filter_map, OnOk, IfErr};
ghost use Rattle.am_schedule.specs.declared.error.FaultKind.TheVariants.{Memory};
ghost use Rattle.am_schedule.specs.Readings.{GivesUnlessMemory};
ghost use Rattle.am_schedule.specs.Tables.{value_in};
ghost use Rattle.am_schedule.specs.Words.{words_of};
ghost use Rattle.am_schedule.specs.VersionLines.{silence_in, log_in, version_in};
ghost use Rattle.am_schedule.specs.Labels.{silence_of, log_of, of_one_state, versions_in};

use crate::error::FaultKind;
use crate::form::VersionForm;
use crate::items::Items;
use crate::lists::hashes;
use crate::shared::Shared;
use crate::step::{LogLine, SilenceLine, VersionLine, Versions};
use crate::table::look_up;
use crate::times::whole_moment;
use crate::word::{Word, value_at, word_of};
use std::alloc::Global;
use std::collections::BTreeMap;

/// Reads a line `sil LABEL ID UPDATED STARTS ENDS EXPIRES NAME VALUE`.
#[tactic(auto, unfolding(crate::specs::VersionLines::silence_in))]
fn silence_line(alloc: Global, line: &str) -> Result<SilenceLine, FaultKind>
    ensures { GivesUnlessMemory result (silence_in (words_of line.now)) }
{
    Ok(SilenceLine {
        id: Word::read(alloc, word_of(line, 2))?,
        updated: value_at(line, 3, whole_moment)?,
        starts: value_at(line, 4, whole_moment)?,
        ends: value_at(line, 5, whole_moment)?,
        expires: value_at(line, 6, whole_moment)?,
        name: Word::read(alloc, word_of(line, 7))?,
        value: Word::read(alloc, word_of(line, 8))?,
    })
}

/// Reads a line `nfl LABEL GROUP RECEIVER UPDATED EXPIRES FIRING RESOLVED`.
#[tactic(auto, unfolding(crate::specs::VersionLines::log_in))]
fn log_line(alloc: Global, line: &str) -> Result<LogLine, FaultKind>
    ensures { GivesUnlessMemory result (log_in (words_of line.now)) }
{
    Ok(LogLine {
        group: Word::read(alloc, word_of(line, 2))?,
        receiver: Word::read(alloc, word_of(line, 3))?,
        updated: value_at(line, 4, whole_moment)?,
        expires: value_at(line, 5, whole_moment)?,
        firing: hashes(alloc, word_of(line, 6))?,
        resolved: hashes(alloc, word_of(line, 7))?,
    })
}

/// Reads the version of a line after its label.
#[tactic(auto, unfolding(crate::specs::VersionLines::version_in))]
pub(crate) fn version_line(
    alloc: Global,
    form: VersionForm,
    line: &str,
) -> Result<VersionLine, FaultKind>
    ensures { GivesUnlessMemory result (version_in form (words_of line.now)) }
{
    match form {
        VersionForm::Silence => {
            let silence = silence_line(alloc, line)?;
            Ok(VersionLine::Silence(Shared::new(alloc, silence)?))
        }
        VersionForm::Log => {
            let entry = log_line(alloc, line)?;
            Ok(VersionLine::Log(Shared::new(alloc, entry)?))
        }
    }
}

/// Returns the versions of labels: `Name` if one is unknown, then `Words` if they belong to two states.
#[tactic(auto, unfolding(crate::specs::Labels::versions_in))]
pub(crate) fn versions_of(
    alloc: Global,
    versions: &BTreeMap<&str, VersionLine>,
    labels: &[&str],
) -> Result<Versions, FaultKind>
    ensures { GivesUnlessMemory result (versions_in (value_in versions.now) (map (λ w. w.now) labels.now)) }
{
    let mut silences = Vec::new(alloc);
    let mut log = Vec::new(alloc);
    for label in labels {
        let version = look_up(versions, label).ok_or(FaultKind::Name)?;
        push_version(&mut silences, &mut log, version)?;
    }
    of_one_state(silences, log)
}

/// Appends a version to those of its state.
fn push_version(
    silences: &mut Vec<Shared<SilenceLine>>,
    log: &mut Vec<Shared<LogLine>>,
    version: &VersionLine,
) -> Result<(), FaultKind>
    ensures silences { OnOk result (silences.new.items ≡ silences.old.items ++ filter_map silence_of (version.now ∷ [])) }
    ensures log { OnOk result (log.new.items ≡ log.old.items ++ filter_map log_of (version.now ∷ [])) }
    ensures fault { IfErr result (λ kind. kind ≡ Memory) }
{
    match version {
        VersionLine::Silence(line) => silences.push(line.share()?)?,
        VersionLine::Log(line) => log.push(line.share()?)?,
    }
    Ok(())
}

/// Returns versions that all belong to one state, or `Words`.
fn of_one_state(
    silences: Vec<Shared<SilenceLine>>,
    log: Vec<Shared<LogLine>>,
) -> Result<Versions, FaultKind>
    ensures { result ≡ of_one_state silences.items log.items }
{
    match (silences.is_empty(), log.is_empty()) {
        (_, true) => Ok(Versions::Silences(Items::new(silences))),
        (true, false) => Ok(Versions::Log(Items::new(log))),
        (false, false) => Err(FaultKind::Words),
    }
}
