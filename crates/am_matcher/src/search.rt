//! Searches by the engines of `regex`, which keep what they have built from one search to the next.
//!
//! A search reads its text at most twice, and follows each state at most once for each byte. No engine begins anew within a
//! text, since nothing matches from any place but the first.

ghost use Rattle.std.specs.Prelude.{◌≡◌, ℕ, length, is_some, IfOk, IfSome};
ghost use Rattle.regex_hir.specs.Text.{is_boundary};
ghost use Rattle.regex_dfa.specs.Search.{IsForwardFor};
ghost use Rattle.am_matcher.specs.Searches.{match_from, found_by, BeginsFirst, IsRunnerFor};

use regex_dfa::{Dfa, End, Forward};
use regex_nfa::Nfa;
use regex_vm::PikeVm;
use std::alloc::{AllocError, Global};

/// Returns whether a character begins at the place, or the text ends there.
fn begins_character(text: &[u8], place: usize) -> bool
    ensures { result ≡ is_boundary text.now place }
{
    if place >= text.len() {
        return true;
    }
    (text[place] < 0x80) | (text[place] > 0xBF)
}

/// Returns whether there is a match from the first place, by following all states at once. The engine is made once, and
/// kept.
fn runs_from_first(
    alloc: Global,
    nfa: &Nfa,
    runner: &mut Option<PikeVm>,
    text: &[u8],
) -> Result<bool, AllocError>
    requires { IfSome runner.old (IsRunnerFor nfa.now) }
    ensures answer { IfOk result (λ yes. yes ≡ is_some (match_from nfa.now text.now 0)) }
    ensures runner { IfSome runner.new (IsRunnerFor nfa.now) }
{
    let mut engine = match runner.take() {
        Some(engine) => engine,
        None => PikeVm::new(alloc, nfa)?,
    };
    let found = engine.is_match(nfa, text, 0, 0, text.len());
    *runner = Some(engine);
    Ok(found)
}

/// Returns whether there is a match from the first place.
fn matches_from_first(
    alloc: Global,
    dfa: &Dfa,
    forward: &mut Forward,
    runner: &mut Option<PikeVm>,
    text: &[u8],
) -> Result<bool, AllocError>
    requires own { IsForwardFor forward.old dfa.now }
    requires runner { IfSome runner.old (IsRunnerFor dfa.now.nfa) }
    ensures answer { IfOk result (λ yes. yes ≡ is_some (match_from dfa.now.nfa text.now 0)) }
    ensures own { IsForwardFor forward.new dfa.now }
    ensures runner { IfSome runner.new (IsRunnerFor dfa.now.nfa) }
{
    match forward.find_end(dfa, text, 0, text.len(), true, true) {
        End::At(_) => Ok(true),
        End::NoMatch => Ok(false),
        End::Idle(_) | End::GaveUp => {
            let found = runs_from_first(alloc, &dfa.nfa, runner, text)?;
            Ok(found)
        }
    }
}

/// Returns whether there is a match in the text. Nothing matches from any place but the first.
pub fn is_found(
    alloc: Global,
    dfa: &Dfa,
    forward: &mut Forward,
    runner: &mut Option<PikeVm>,
    text: &[u8],
) -> Result<bool, AllocError>
    requires own { IsForwardFor forward.old dfa.now }
    requires runner { IfSome runner.old (IsRunnerFor dfa.now.nfa) }
    requires first { BeginsFirst dfa.now.nfa }
    ensures answer { IfOk result (λ yes. yes ≡ is_some (found_by dfa.now.nfa text.now)) }
    ensures own { IsForwardFor forward.new dfa.now }
    ensures runner { IfSome runner.new (IsRunnerFor dfa.now.nfa) }
{
    if begins_character(text, 0) {
        let found = matches_from_first(alloc, dfa, forward, runner, text)?;
        Ok(found)
    } else {
        Ok(false)
    }
}
