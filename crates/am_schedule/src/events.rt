//! The words after a verb.

ghost use Rattle.am_schedule.specs.Readings.{GivesUnlessMemory};
ghost use Rattle.am_schedule.specs.Tables.{value_in};
ghost use Rattle.am_schedule.specs.Words.{words_of};
ghost use Rattle.am_schedule.specs.Slots.{id_in};
ghost use Rattle.am_schedule.specs.StepLines.{post_in, group_in, event_in};

use crate::error::FaultKind;
use crate::form::Verb;
use crate::lists::{hashes, member, pairs, yes_or_no};
use crate::numbers::bits;
use crate::step::{GroupLine, LineEvent, PostLine, VersionLine};
use crate::times::{seconds, whole_moment};
use crate::versions::versions_of;
use crate::word::{Word, behind, split_words, value_at, word_of};
use std::alloc::Global;
use std::collections::BTreeMap;

/// Reads an id, or `-` for none.
fn id(alloc: Global, word: &str) -> Result<Option<Word>, FaultKind>
    ensures { GivesUnlessMemory result (id_in word.now) }
{
    if word == "-" {
        return Ok(None);
    }
    let id = Word::read(alloc, word)?;
    Ok(Some(id))
}

/// Reads the words `ID BITS STARTS ENDS NAME VALUE`.
#[tactic(auto, unfolding(crate::specs::StepLines::post_in))]
fn post(alloc: Global, line: &str) -> Result<PostLine, FaultKind>
    ensures { GivesUnlessMemory result (post_in (words_of line.now)) }
{
    Ok(PostLine {
        id: id(alloc, word_of(line, 4))?,
        bits: value_at(line, 5, bits)?,
        starts: value_at(line, 6, whole_moment)?,
        ends: value_at(line, 7, whole_moment)?,
        name: Word::read(alloc, word_of(line, 8))?,
        value: Word::read(alloc, word_of(line, 9))?,
    })
}

/// Reads the words `GROUP RECEIVER FIRING RESOLVED REPEAT`.
#[tactic(auto, unfolding(crate::specs::StepLines::group_in))]
fn group(alloc: Global, line: &str) -> Result<GroupLine, FaultKind>
    ensures { GivesUnlessMemory result (group_in (words_of line.now)) }
{
    Ok(GroupLine {
        group: Word::read(alloc, word_of(line, 4))?,
        receiver: Word::read(alloc, word_of(line, 5))?,
        firing: hashes(alloc, word_of(line, 6))?,
        resolved: hashes(alloc, word_of(line, 7))?,
        repeat: value_at(line, 8, seconds)?,
    })
}

/// Reads an event at a member from the verb and the words after it.
#[tactic(auto, using(crate::proofs::EventRows::event_by))]
pub(crate) fn event(
    alloc: Global,
    names: &[Word],
    versions: &BTreeMap<&str, VersionLine>,
    verb: Verb,
    line: &str,
) -> Result<LineEvent, FaultKind>
    ensures { GivesUnlessMemory result (event_in names.now (value_in versions.now) verb (words_of line.now)) }
{
    match verb {
        Verb::From => {
            let peer = member(alloc, names, word_of(line, 4))?;
            let words = split_words(alloc, line)?;
            let versions = versions_of(alloc, versions, behind(&words, 5))?;
            Ok(LineEvent::From { peer, versions })
        }
        Verb::Post => {
            let post = post(alloc, line)?;
            Ok(LineEvent::Post(post))
        }
        Verb::Expire => {
            let id = Word::read(alloc, word_of(line, 4))?;
            Ok(LineEvent::Expire { id })
        }
        Verb::Notified => {
            let group = group(alloc, line)?;
            Ok(LineEvent::Notified(group))
        }
        Verb::Decide => {
            let group = group(alloc, line)?;
            let resolved_wanted = value_at(line, 9, yes_or_no)?;
            Ok(LineEvent::Decide {
                group,
                resolved_wanted,
            })
        }
        Verb::Mutes => {
            let words = split_words(alloc, line)?;
            let labels = pairs(alloc, behind(&words, 4))?;
            Ok(LineEvent::Mutes { labels })
        }
        Verb::Show => Ok(LineEvent::Show),
        Verb::Tick => Ok(LineEvent::Tick),
        Verb::Pull => {
            let peer = member(alloc, names, word_of(line, 4))?;
            Ok(LineEvent::Pull { peer })
        }
        Verb::Start => Ok(LineEvent::Start),
    }
}
