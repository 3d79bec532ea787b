//! Patterns that have to match from end to end.

ghost use Rattle.std.specs.Prelude.{◌≡◌, ◌-◌, ◌^◌, min, IfOk, OnOk, IsErrOf, if◌then◌else◌};
ghost use Rattle.regex.specs.declared.error.Error.{Error};
ghost use Rattle.regex_hir.specs.Meaning.{meaning};
ghost use Rattle.regex_compile.specs.Implements.{Implements};
ghost use Rattle.am_matcher.specs.Patterns.{is_match, whole_text, IsReadable, IsSound, IsBroken, IsRefusedFor};
ghost use Rattle.am_matcher.specs.Searches.{BeginsFirst, Finds};
ghost use Rattle.am_matcher.specs.Sizes.{bytes_of, compilation};

use crate::compiled::BuildError;
use crate::counting::{SEARCH_BYTES, counted};
use crate::search::is_found;
use regex_dfa::{Dfa, Forward};
use regex_extract::is_anchored_start;
use regex_nfa::Nfa;
use regex_syntax::{Config, Parsed, parse};
use regex_vm::PikeVm;
use std::alloc::{AllocError, Global};
use std::marker::Model;
use std::rc::Rc;

/// The maximum size of a compiled pattern, in bytes: the default limit of `regex`.
const MOST_BYTES: usize = 10 << 20;

/// A compiled pattern, and the tables that its searches have built. Contracts see its text, how much was compiled, and how
/// many tables searches may fill. Several may share what was compiled.
///
/// The parts of `regex` are used directly, since its own searcher borrows the compiled pattern and can't be kept beside it.
pub struct Whole {
    pattern: String,
    dfa: Rc<Dfa>,
    forward: Forward,
    /// The engine that follows all states at once, if a search needed it.
    runner: Option<PikeVm>,
    alloc: Global,
}

// With this the crates above cite one drop, and don't prove those of everything inside.
impl Drop for Whole {
    fn drop(self) {
        let Whole {
            pattern: _,
            dfa: _,
            forward: _,
            runner: _,
            alloc: _,
        } = self;
    }
}

impl Model for Whole {
    ghost use Rattle.std.specs.Prelude.{string_bytes, IfSome};
    ghost use Rattle.regex_dfa.specs.Search.{IsForwardFor};
    ghost use Rattle.am_matcher.specs.Patterns.{whole_text};
    ghost use Rattle.am_matcher.specs.Searches.{BeginsFirst, Finds, IsRunnerFor};
    ghost use Rattle.am_matcher.specs.Sizes.{Compilation, compilation};

    ghost Value = { Compilation };

    ghost view = { λ w. compilation (string_bytes w.pattern) w.dfa.value };

    ghost invariant = { λ w. Finds w.dfa.value.nfa (whole_text (string_bytes w.pattern)) × BeginsFirst w.dfa.value.nfa
        × IsForwardFor w.forward w.dfa.value × IfSome w.runner (IsRunnerFor w.dfa.value.nfa) };
}

/// Refuses a pattern that is broken by itself but valid once it is wrapped, such as `a)|(b`.
///
/// A pattern that is too big is also too big once it is wrapped, and is refused there.
fn read_alone(alloc: Global, pattern: &str) -> Result<(), BuildError>
    ensures read { OnOk result (IsReadable pattern.now) }
    ensures unread { IsErrOf result BuildError.BadPattern → ¬ IsReadable pattern.now }
{
    parse(alloc, pattern, &Config::default())?;
    Ok(())
}

/// Returns the states of a pattern that was read, unless it is too big.
fn nfa_of(alloc: Global, parsed: &Parsed) -> Result<Nfa, BuildError>
    ensures implements { IfOk result (λ nfa. Implements nfa (meaning parsed.now.hir)) }
    ensures first { IfOk result BeginsFirst }
{
    let Ok(groups) = u32::try_from(parsed.names.len()) else {
        return Err(BuildError::BadPattern);
    };
    // This is never the case, since the compiled text begins with `^`.
    if !is_anchored_start(&parsed.hir) {
        return Err(BuildError::BadPattern);
    }
    let nfa = regex_compile::compile(alloc, &parsed.hir, groups, MOST_BYTES)?;
    Ok(nfa)
}

/// Compiles a text that begins with `^`.
fn dfa_of(alloc: Global, text: &str) -> Result<Dfa, BuildError>
    ensures finds { IfOk result (λ dfa. Finds dfa.nfa text.now) }
    ensures first { IfOk result (λ dfa. BeginsFirst dfa.nfa) }
    ensures read { OnOk result (IsReadable text.now) }
    ensures refused { IsErrOf result BuildError.BadPattern → (error : Error) × IsRefusedFor text.now error }
{
    let parsed = parse(alloc, text, &Config::default())?;
    let nfa = nfa_of(alloc, &parsed)?;
    let dfa = Dfa::new(alloc, nfa)?;
    Ok(dfa)
}

/// Compiles the pattern `p`, as `^(?:p)$`.
fn dfa_of_pattern(alloc: Global, pattern: &str) -> Result<Dfa, BuildError>
    ensures finds { IfOk result (λ dfa. Finds dfa.nfa (whole_text pattern.now)) }
    ensures first { IfOk result (λ dfa. BeginsFirst dfa.nfa) }
    ensures sound { OnOk result (IsSound pattern.now) }
    ensures broken { IsErrOf result BuildError.BadPattern → IsBroken pattern.now }
{
    read_alone(alloc, pattern)?;
    let text = format!(in alloc; "^(?:{pattern})$")?;
    dfa_of(alloc, text.as_str())
}

impl Whole {
    /// Compiles the pattern `p` as `^(?:p)$`.
    pub fn build(alloc: Global, pattern: &str) -> Result<Whole, BuildError>
        ensures text { IfOk result (λ whole. whole.text ≡ pattern.now) }
        ensures sound { OnOk result (IsSound pattern.now) }
        ensures broken { IsErrOf result BuildError.BadPattern → IsBroken pattern.now }
    {
        let dfa = dfa_of_pattern(alloc, pattern)?;
        let dfa = shared(alloc, dfa)?;
        Ok(Whole::over(alloc, pattern, dfa)?)
    }

    /// Returns the pattern with its compiled form. Searches build their own tables.
    fn over(alloc: Global, pattern: &str, dfa: Rc<Dfa>) -> Result<Whole, AllocError>
        requires finds { Finds dfa.value.nfa (whole_text pattern.now) }
        requires first { BeginsFirst dfa.value.nfa }
        ensures { IfOk result (λ whole. whole ≡ compilation pattern.now dfa.value) }
    {
        let forward = Forward::with_budget(alloc, &dfa, false, SEARCH_BYTES)?;
        let pattern = String::from_str(alloc, pattern)?;
        Ok(Whole {
            pattern,
            dfa,
            forward,
            runner: None,
            alloc,
        })
    }

    /// Returns the same compiled pattern again, for searches that build their own tables. Nothing is compiled.
    pub fn share(&self) -> Result<Whole, AllocError>
        ensures { IfOk result (λ whole. whole ≡ self.now) }
    {
        let dfa = self.dfa.clone()?;
        Whole::over(self.alloc, self.pattern.as_str(), dfa)
    }

    /// Returns the text of the pattern.
    pub fn text(&self) -> &str
        ensures { result.now ≡ self.now.text }
    {
        self.pattern.as_str()
    }

    /// Returns the number of bytes that are counted for the pattern.
    pub fn size(&self) -> usize
        ensures { result ≡ min (bytes_of self.now) (2 ^ 64 - 1) }
    {
        let tables = tables_of(&self.dfa);
        let nfa = &self.dfa.nfa;
        counted(
            self.pattern.len(),
            nfa.states.len(),
            nfa.transitions.len(),
            tables,
        )
    }

    /// Returns the number of states that were compiled.
    pub fn states(&self) -> usize
        ensures { result ≡ self.now.states }
    {
        self.dfa.nfa.states.len()
    }

    /// Returns whether the text matches from end to end.
    pub fn matches(&mut self, text: &str) -> Result<bool, AllocError>
        ensures answer { IfOk result (λ found. found ≡ is_match self.old.text text.now) }
        ensures same { self.new ≡ self.old }
    {
        let found = is_found(
            self.alloc,
            &self.dfa,
            &mut self.forward,
            &mut self.runner,
            text.as_bytes(),
        )?;
        Ok(found)
    }
}

/// Returns what was compiled in a form that can be shared.
fn shared(alloc: Global, dfa: Dfa) -> Result<Rc<Dfa>, AllocError>
    ensures { IfOk result (λ shared. shared.value ≡ dfa) }
{
    Ok(Rc::new(alloc, dfa)?)
}

/// Returns the number of tables that searches may fill: one for the states that they meet, and another one for the
/// characters beside a word, if the pattern depends on these.
fn tables_of(dfa: &Dfa) -> usize
    ensures { result ≡ (if dfa.now.needs.unicode then 2 else 1) }
{
    if dfa.needs.unicode { 2 } else { 1 }
}
