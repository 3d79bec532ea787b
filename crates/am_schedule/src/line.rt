//! The lines that are steps, and the other lines after the cluster's.

ghost use Rattle.std.specs.Prelude.{◌≡◌, ◌==◌, length, is_some, IsTrue, IfErr};
ghost use Rattle.am_schedule.specs.declared.error.FaultKind.TheVariants.{Memory};
ghost use Rattle.am_schedule.specs.Readings.{GivesUnlessMemory};
ghost use Rattle.am_schedule.specs.Tables.{value_in};
ghost use Rattle.am_schedule.specs.Words.{words_of};
ghost use Rattle.am_schedule.specs.Forms.{verb_in, has_at_form, has_line_form};
ghost use Rattle.am_schedule.specs.StepLines.{deliver_in, settle_in, member_line_in, at_line_in, line_in};

use crate::error::FaultKind;
use crate::events::event;
use crate::form::{LineForm, verb_of};
use crate::lists::member;
use crate::numbers::count;
use crate::step::{Action, Line, Step, VersionLine};
use crate::times::{moment, seconds};
use crate::word::{Word, value_at, word_count, word_of};
use std::alloc::Global;
use std::collections::BTreeMap;

/// Reads a line `at T deliver N`.
#[tactic(auto, unfolding(crate::specs::StepLines::deliver_in))]
fn deliver_line(text: &str) -> Result<Line, FaultKind>
    ensures value { result ≡ deliver_in (words_of text.now) }
    ensures formed { IfErr result (λ kind. kind ≡ Memory → IsTrue (length (words_of text.now) == 4)) }
{
    if word_count(text) != 4 {
        return Err(FaultKind::Words);
    }
    let at = value_at(text, 1, moment)?;
    let frame = value_at(text, 3, count)?;
    Ok(Line::Step(Step::new(Action::Deliver { at, frame })))
}

/// Reads a line `at T settle`.
#[tactic(auto, unfolding(crate::specs::StepLines::settle_in))]
fn settle_line(text: &str) -> Result<Line, FaultKind>
    ensures value { result ≡ settle_in (words_of text.now) }
    ensures formed { IfErr result (λ kind. kind ≡ Memory → IsTrue (length (words_of text.now) == 3)) }
{
    if word_count(text) != 3 {
        return Err(FaultKind::Words);
    }
    let at = value_at(text, 1, moment)?;
    Ok(Line::Settle(at))
}

/// Reads a line `at T NAME ..`.
#[tactic(auto, unfolding(crate::specs::StepLines::member_line_in))]
fn member_line(
    alloc: Global,
    names: &[Word],
    versions: &BTreeMap<&str, VersionLine>,
    text: &str,
) -> Result<Line, FaultKind>
    ensures value { GivesUnlessMemory result (member_line_in names.now (value_in versions.now) (words_of text.now)) }
    ensures formed { IfErr result (λ kind. kind ≡ Memory → IsTrue (is_some (verb_in (words_of text.now)))) }
{
    let verb = verb_of(text).ok_or(FaultKind::Words)?;
    let at = value_at(text, 1, moment)?;
    let name = member(alloc, names, word_of(text, 2))?;
    let event = event(alloc, names, versions, verb, text)?;
    Ok(Line::Step(Step::new(Action::Event { at, name, event })))
}

/// Reads a line that begins with `at`: no member is called `deliver` or `settle`.
#[tactic(auto, unfolding(crate::specs::StepLines::at_line_in))]
fn at_line(
    alloc: Global,
    names: &[Word],
    versions: &BTreeMap<&str, VersionLine>,
    text: &str,
) -> Result<Line, FaultKind>
    ensures value { GivesUnlessMemory result (at_line_in names.now (value_in versions.now) (words_of text.now)) }
    ensures formed { IfErr result (λ kind. kind ≡ Memory → IsTrue (has_at_form (words_of text.now))) }
{
    match word_of(text, 2) {
        "deliver" => deliver_line(text),
        "settle" => settle_line(text),
        _ => member_line(alloc, names, versions, text),
    }
}

/// Reads a line that is neither the cluster's nor a version's.
#[tactic(auto, unfolding(crate::specs::StepLines::line_in))]
pub(crate) fn line(
    alloc: Global,
    names: &[Word],
    versions: &BTreeMap<&str, VersionLine>,
    form: LineForm,
    text: &str,
) -> Result<Line, FaultKind>
    ensures value { GivesUnlessMemory result (line_in names.now (value_in versions.now) form (words_of text.now)) }
    ensures formed { IfErr result (λ kind. kind ≡ Memory → IsTrue (has_line_form form (words_of text.now))) }
{
    match form {
        LineForm::At => at_line(alloc, names, versions, text),
        LineForm::Stop => {
            let name = member(alloc, names, word_of(text, 1))?;
            Ok(Line::Step(Step::new(Action::Stop { name })))
        }
        LineForm::Save => {
            let name = member(alloc, names, word_of(text, 1))?;
            Ok(Line::Step(Step::new(Action::Save { name })))
        }
        LineForm::Lose => {
            let frame = value_at(text, 1, count)?;
            Ok(Line::Step(Step::new(Action::Lose { frame })))
        }
        LineForm::Timely => {
            let spread = value_at(text, 1, seconds)?;
            let flight = value_at(text, 2, seconds)?;
            Ok(Line::Timely(spread, flight))
        }
        LineForm::Frames => Ok(Line::Frames),
    }
}
