//! Reading a schedule line by line.

ghost use Rattle.std.specs.Prelude.{◌≡◌, ◌≢◌, ℕ, List, [], ◌∷◌, ◌++◌, Option, Some, None, Ok, Err, IfOk, IfErr, IsTrue, true};
ghost use Rattle.am_schedule.specs.declared.error.FaultKind.TheVariants.{Memory};
ghost use Rattle.am_schedule.specs.declared.step.Line.{Line};
ghost use Rattle.am_schedule.specs.Readings.{GivesUnlessMemory};
ghost use Rattle.am_schedule.specs.Tables.{value_in};
ghost use Rattle.am_schedule.specs.Words.{words_of};
ghost use Rattle.am_schedule.specs.Schedules.{definition_in, said_in, meaning, is_passed_over, has_form, is_formed, numbered};

use crate::cluster::{ClusterLine, cluster_line};
use crate::error::FaultKind;
use crate::form::{Form, VersionForm, form_of};
use crate::line::line;
use crate::step::{Line, VersionLine};
use crate::table::{empty_table, look_up, set_value};
use crate::versions::version_line;
use crate::word::{MAX_WORD, word_of};
use std::alloc::Global;
use std::collections::BTreeMap;

/// Returns whether a line is empty or begins with `#`.
fn is_passed_over(line: &str) -> bool
    ensures { result ≡ is_passed_over line.now }
{
    match line.as_bytes().first() {
        Some(byte) => *byte == b'#',
        None => true,
    }
}

/// Reads the version of a line, whose label has to be a new one.
#[tactic(auto, unfolding(crate::specs::Schedules::definition_in))]
fn definition(
    alloc: Global,
    versions: &BTreeMap<&str, VersionLine>,
    form: VersionForm,
    line: &str,
) -> Result<VersionLine, FaultKind>
    ensures { GivesUnlessMemory result (definition_in (value_in versions.now) form (words_of line.now)) }
{
    let label = word_of(line, 1);
    if label.is_empty() || label.len() > MAX_WORD || look_up(versions, label).is_some() {
        return Err(FaultKind::Name);
    }
    version_line(alloc, form, line)
}

/// The state of the reading: what the lines read so far say.
#[derive(Drop)]
pub(crate) struct Reader<'a> {
    pub cluster: Option<ClusterLine>,
    pub versions: BTreeMap<&'a str, VersionLine>,
    pub lines: Vec<(Line, u64)>,
}

impl<'a> Reader<'a> {
    ghost use Rattle.am_schedule.specs.Readers.{Stands, Took};

    /// Returns the state before the first line.
    pub fn new(alloc: Global) -> Self
        ensures stands { Stands [] result }
        ensures lines { result.lines.items ≡ [] }
    {
        Reader {
            cluster: None,
            versions: empty_table(alloc),
            lines: Vec::new(alloc),
        }
    }

    /// Takes a line that isn't skipped. Its verb and its number of words are judged before any memory is taken.
    fn take_words(&mut self, alloc: Global, number: u64, text: &'a str) -> Result<(), FaultKind>
        ensures taken { IfOk result (λ _. (said : Option Line)
            × (said_in self.old.cluster (value_in self.old.versions) (words_of text.now) ≡ Ok said)
            × Took number (words_of text.now) said self.old self.new) }
        ensures fault { IfErr result (λ kind. kind ≢ Memory →
            said_in self.old.cluster (value_in self.old.versions) (words_of text.now) ≡ Err kind) }
        ensures formed { IfErr result (λ kind. kind ≡ Memory → IsTrue (has_form self.old.cluster (words_of text.now))) }
    {
        let Some(cluster) = &self.cluster else {
            self.cluster = Some(cluster_line(alloc, text)?);
            return Ok(());
        };
        match form_of(text) {
            None => return Err(FaultKind::Words),
            Some(Form::Cluster) => return Err(FaultKind::Cluster),
            Some(Form::Version(form)) => {
                let version = definition(alloc, &self.versions, form, text)?;
                set_value(&mut self.versions, word_of(text, 1), version)?;
            }
            Some(Form::Other(form)) => {
                let line = line(alloc, cluster.names.as_slice(), &self.versions, form, text)?;
                self.lines.push((line, number))?;
            }
        }
        Ok(())
    }

    /// Takes a line, or returns its fault.
    pub fn take(&mut self, alloc: Global, number: u64, line: &'a [u8]) -> Result<(), FaultKind>
        ensures taken { IfOk result (λ _. (before : List (List ℕ)) → Stands before self.old → (said : Option Line)
            × (meaning before line.now ≡ Ok said) × Stands (before ++ line.now ∷ []) self.new
            × (self.new.lines.items ≡ self.old.lines.items ++ numbered number (Ok said ∷ []))) }
        ensures fault { IfErr result (λ kind. (before : List (List ℕ)) → Stands before self.old → kind ≢ Memory →
            meaning before line.now ≡ Err kind) }
        ensures formed { IfErr result (λ kind. (before : List (List ℕ)) → Stands before self.old → kind ≡ Memory →
            is_formed before line.now ≡ true) }
    {
        let Ok(line) = str::from_utf8(line) else {
            return Err(FaultKind::NotUtf8);
        };
        if is_passed_over(line) {
            return Ok(());
        }
        self.take_words(alloc, number, line)
    }
}
