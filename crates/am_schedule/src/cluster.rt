//! The cluster line.

ghost use Rattle.std.specs.Prelude.{◌≡◌, ℕ, ◌≤◌, List, [], length, map, IsTrue, IfErr};
ghost use Rattle.am_schedule.specs.declared.error.FaultKind.TheVariants.{Cluster, Memory};
ghost use Rattle.am_schedule.specs.Readings.{GivesUnlessMemory, or_fault};
ghost use Rattle.std.specs.List.{list_any};
ghost use Rattle.std.specs.Str.{bytes_eq};
ghost use Rattle.am_schedule.specs.Words.{word_at, words_of};
ghost use Rattle.am_schedule.specs.Slots.{interval, value_at};
ghost use Rattle.am_schedule.specs.Clusters.{is_name, names_in, as_cluster, cluster_parts, has_cluster_form, cluster_in};

use crate::error::FaultKind;
use crate::items::Items;
use crate::times::seconds;
use crate::word::{Word, behind, split_words, value_at, word_count, word_of};
use am_version_order::Interval;
use std::alloc::Global;

/// The members of a cluster and their times.
#[derive(Drop)]
pub(crate) struct ClusterLine {
    pub names: Items<Word>,
    pub retention: Interval,
    pub peer_timeout: Interval,
}

/// The maximum number of bytes in a member's name.
const MAX_NAME: usize = 255;

/// Returns whether a word may be a member's name.
#[tactic(auto, unfolding(crate::specs::Clusters::is_name))]
fn is_name(word: &str) -> bool
    ensures value { result ≡ is_name word.now }
    ensures short { IsTrue result → length word.now ≤ 255 }
{
    if word.is_empty() || word.len() > MAX_NAME {
        return false;
    }
    word != "deliver" && word != "settle"
}

/// Returns the words as distinct names, or the fault of a wrong cluster line.
#[tactic(auto, unfolding(crate::specs::Clusters::names_in))]
fn names(alloc: Global, words: &[&str]) -> Result<Items<Word>, FaultKind>
    ensures { GivesUnlessMemory result (or_fault Cluster (names_in (map (λ w. w.now) words.now))) }
{
    let mut names = Vec::new(alloc);
    for word in words {
        if !is_name(word) || has_name(&names, word) {
            return Err(FaultKind::Cluster);
        }
        let name = Word::of(alloc, word)?;
        names.push(name)?;
    }
    Ok(Items::new(names))
}

/// Returns whether one of the names is that word.
fn has_name(names: &[Word], word: &str) -> bool
    ensures { result ≡ list_any (λ t. bytes_eq t word.now) names.now }
{
    for name in names {
        if name.as_str() == word {
            return true;
        }
    }
    false
}

/// Reads the numbers and the names of a cluster line.
#[tactic(auto, unfolding(crate::specs::Clusters::cluster_parts))]
fn cluster_parts(alloc: Global, line: &str) -> Result<ClusterLine, FaultKind>
    ensures { GivesUnlessMemory result (cluster_parts (words_of line.now)) }
{
    let retention = cluster_seconds(line, 1)?;
    let peer_timeout = cluster_seconds(line, 2)?;
    let words = split_words(alloc, line)?;
    Ok(ClusterLine {
        names: names(alloc, behind(&words, 3))?,
        retention,
        peer_timeout,
    })
}

/// Reads an interval of the cluster line.
fn cluster_seconds(line: &str, place: usize) -> Result<Interval, FaultKind>
    ensures { result ≡ as_cluster (value_at [] interval (word_at place (words_of line.now))) }
{
    value_at(line, place, seconds)
        .ok()
        .ok_or(FaultKind::Cluster)
}

/// Reads a line `cluster RETENTION TIMEOUT NAME ..`.
#[tactic(auto, unfolding(crate::specs::Clusters::cluster_in))]
pub(crate) fn cluster_line(alloc: Global, line: &str) -> Result<ClusterLine, FaultKind>
    ensures value { GivesUnlessMemory result (cluster_in (words_of line.now)) }
    ensures formed { IfErr result (λ kind. kind ≡ Memory → IsTrue (has_cluster_form (words_of line.now))) }
{
    let count = word_count(line);
    if word_of(line, 0) != "cluster" || count < 4 || count > 19 {
        return Err(FaultKind::Cluster);
    }
    cluster_parts(alloc, line)
}
