//! Lists of hashes, of names and of pairs.

ghost use Rattle.std.specs.Prelude.{◌≡◌, ℕ, ◌≤◌, List, length, map, option_map, IfOk, IfSome};
ghost use Rattle.am_schedule.specs.declared.error.FaultKind.TheVariants.{Number, Name};
ghost use Rattle.am_schedule.specs.Readings.{GivesUnlessMemory, or_fault};
ghost use Rattle.am_schedule.specs.Words.{in_place};
ghost use Rattle.am_schedule.specs.Numbers.{count_in};
ghost use Rattle.am_schedule.specs.Lists.{values, hashes_in, yes_or_no_in, member_in, pair_in, pairs_in};

use crate::error::FaultKind;
use crate::hash_list::HashList;
use crate::items::Items;
use crate::numbers::count;
use crate::step::Pair;
use crate::table::{empty_table, look_up, set_value};
use crate::word::{MAX_WORD, Word, split_at};
use std::alloc::Global;

/// Returns the numbers of all words, or `Number` if one is no number.
fn counts(alloc: Global, words: &[&str]) -> Result<Items<u64>, FaultKind>
    ensures { GivesUnlessMemory result (or_fault Number (values count_in (map (λ w. w.now) words.now))) }
{
    let mut numbers = Vec::new(alloc);
    for word in words {
        match count(word) {
            Some(number) => numbers.push(number)?,
            None => return Err(FaultKind::Number),
        }
    }
    Ok(Items::new(numbers))
}

/// Reads a list of hashes, however long its word is: `-` for none, or numbers separated by commas.
#[tactic(auto, unfolding(crate::specs::Lists::hashes_in))]
fn numbers_of(alloc: Global, word: &str) -> Result<Items<u64>, FaultKind>
    ensures { GivesUnlessMemory result (or_fault Number (hashes_in word.now)) }
{
    if word == "-" {
        return Ok(Items::new(Vec::new(alloc)));
    }
    let words = split_at(alloc, word, ',')?;
    counts(alloc, &words)
}

/// Reads a list of hashes, or returns `Number` if the word is none, then `Name` if it is too long.
#[tactic(auto, unfolding(crate::specs::Words::in_place), using(crate::proofs::Hashes::few_hashes))]
pub(crate) fn hashes(alloc: Global, word: &str) -> Result<HashList, FaultKind>
    ensures { GivesUnlessMemory result (in_place (hashes_in word.now) word.now) }
{
    let hashes = numbers_of(alloc, word)?;
    if word.len() > MAX_WORD {
        return Err(FaultKind::Name);
    }
    Ok(HashList::new(hashes))
}

#[tactic(auto, unfolding(crate::specs::Lists::yes_or_no_in))]
pub(crate) fn yes_or_no(word: &str) -> Option<bool>
    ensures { result ≡ yes_or_no_in word.now }
{
    match word {
        "yes" => Some(true),
        "no" => Some(false),
        _ => None,
    }
}

/// Returns the member with that name.
#[tactic(auto, unfolding(crate::specs::Lists::member_in))]
pub(crate) fn member(alloc: Global, names: &[Word], word: &str) -> Result<Word, FaultKind>
    ensures { GivesUnlessMemory result (member_in names.now word.now) }
{
    for name in names {
        if name.as_str() == word {
            return Ok(name.try_clone(alloc)?);
        }
    }
    Err(FaultKind::Name)
}

/// Splits a word into a label and its value, at the first `=`.
#[tactic(auto, unfolding(crate::specs::Lists::pair_in))]
fn pair<'a>(word: &'a str) -> Option<(&'a str, &'a str)>
    ensures parts { option_map (λ p. record { name = p.0.now; value = p.1.now }) result ≡ pair_in word.now }
    ensures short { IfSome result (λ p. (length p.0.now ≤ 1024) × (length p.1.now ≤ 1024)) }
{
    if word.len() > MAX_WORD {
        return None;
    }
    word.split_once('=')
}

/// Reads the pairs of words, in which no name may be repeated.
#[tactic(auto, unfolding(crate::specs::Lists::pairs_in))]
pub(crate) fn pairs(alloc: Global, words: &[&str]) -> Result<Items<Pair>, FaultKind>
    ensures { GivesUnlessMemory result (pairs_in (map (λ w. w.now) words.now)) }
{
    let mut seen = empty_table(alloc);
    let mut pairs = Vec::new(alloc);
    for word in words {
        let (name, value) = pair(word).ok_or(FaultKind::Name)?;
        if look_up(&seen, name).is_some() {
            return Err(FaultKind::Name);
        }
        set_value(&mut seen, name, ())?;
        let name = Word::of(alloc, name)?;
        let value = Word::of(alloc, value)?;
        pairs.push(Pair { name, value })?;
    }
    Ok(Items::new(pairs))
}
