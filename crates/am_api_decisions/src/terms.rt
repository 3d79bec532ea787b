//! The terms on which a decision is asked for.

ghost use Rattle.std.specs.Prelude.{◌≡◌, Some, None, IfOk, IfErr, codes};
ghost use Rattle.am_api_decisions.specs.Words.{truth_or, word_in};
ghost use Rattle.am_api_decisions.specs.Terms.{IsTerms, IsTermsFault, IsWordFault, index_in, integration_in, repeat_in};
ghost use Rattle.am_api_decisions.specs.declared.cause.DecisionCause.TheVariants as causes;
ghost use Rattle.am_api_decisions.specs.declared.cause.QueryWord.TheVariants as words;

use crate::cause::{DecisionCause, QueryWord};
use crate::repeat::Repeat;
use crate::words::{number_or, text_or, truth_or, word_in};
use am_wire::Text;
use std::alloc::Global;

/// The terms on which a decision is asked for, by the words of the query.
#[derive(Drop)]
pub struct Terms {
    /// `repeat`, in seconds: the time after which a notification is repeated.
    pub repeat: Repeat,
    /// `resolved`: whether the receiver is told of resolved alerts.
    pub send_resolved: bool,
    /// `wait`: whether the reply waits for the member's turn.
    pub waits: bool,
    /// `integration`: the integration of the receiver.
    pub integration: Text,
    /// `index`: the number of the integration in its receiver, from 0.
    pub index: u32,
}

/// Reads the word `repeat` of a query.
fn repeat_in(alloc: Global, query: &str) -> Result<Repeat, DecisionCause>
    ensures read { IfOk result (λ repeat. repeat_in query.now ≡ Some repeat.seconds) }
    ensures refused { IfErr result (IsWordFault (repeat_in query.now ≡ None) words.Repeat) }
{
    let Ok(word) = word_in(alloc, query, "repeat") else {
        return Err(DecisionCause::Memory);
    };
    match number_or(14_400, 1, 9_223_372_036, word) {
        Some(seconds) => Ok(Repeat { seconds }),
        None => Err(DecisionCause::BadQuery(QueryWord::Repeat)),
    }
}

/// Reads a word of a query that is a truth value.
fn truth_in(alloc: Global, query: &str, name: &str, word: QueryWord) -> Result<bool, DecisionCause>
    ensures read { IfOk result (λ truth. truth_or (word_in name.now query.now) ≡ Some truth) }
    ensures refused { IfErr result (IsWordFault (truth_or (word_in name.now query.now) ≡ None) word) }
{
    let Ok(found) = word_in(alloc, query, name) else {
        return Err(DecisionCause::Memory);
    };
    match truth_or(found) {
        Some(truth) => Ok(truth),
        None => Err(DecisionCause::BadQuery(word)),
    }
}

/// Reads the word `integration` of a query.
fn integration_in(alloc: Global, query: &str) -> Result<Text, DecisionCause>
    ensures read { IfOk result (λ text. text ≡ integration_in query.now) }
    ensures refused { IfErr result (λ cause. cause ≡ causes.Memory) }
{
    let Ok(word) = word_in(alloc, query, "integration") else {
        return Err(DecisionCause::Memory);
    };
    match text_or(alloc, "webhook", word) {
        Ok(text) => Ok(text),
        Err(_) => Err(DecisionCause::Memory),
    }
}

/// Reads the word `index` of a query.
fn index_in(alloc: Global, query: &str) -> Result<u32, DecisionCause>
    ensures read { IfOk result (λ index. index_in query.now ≡ Some index) }
    ensures refused { IfErr result (IsWordFault (index_in query.now ≡ None) words.Index) }
{
    let Ok(word) = word_in(alloc, query, "index") else {
        return Err(DecisionCause::Memory);
    };
    match number_or(0, 0, 4_294_967_295, word) {
        Some(index) => Ok(index as u32),
        None => Err(DecisionCause::BadQuery(QueryWord::Index)),
    }
}

/// Reads the terms in a query, which is not decoded. Words that are left out have their defaults, and other words are passed
/// over.
///
/// # Errors
///
/// [`DecisionCause::BadQuery`] of the first word that is at fault, in the order `repeat`, `resolved`, `wait`, `index`; and
/// [`DecisionCause::Memory`].
pub fn terms_in(alloc: Global, query: &str) -> Result<Terms, DecisionCause>
    ensures read { IfOk result (IsTerms query.now) }
    ensures refused { IfErr result (IsTermsFault query.now) }
{
    let repeat = repeat_in(alloc, query)?;
    let send_resolved = truth_in(alloc, query, "resolved", QueryWord::Resolved)?;
    let waits = truth_in(alloc, query, "wait", QueryWord::Wait)?;
    let integration = integration_in(alloc, query)?;
    let index = index_in(alloc, query)?;
    Ok(Terms {
        repeat,
        send_resolved,
        waits,
        integration,
        index,
    })
}
