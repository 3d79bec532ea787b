//! The order of parts, and groups within groups. A pattern is checked from its end to its start.

ghost use Rattle.std.specs.Prelude.{◌≡◌, None, Some, IfOk, MatchBool, MatchOption, []};
ghost use Rattle.am_matcher.specs.Re2Nesting.{at_end, opened, closed, repeated, back_over};
ghost use Rattle.am_matcher.specs.Re2.{IsExpression};

use crate::re2::braces::MOST_TIMES;
use crate::re2::pieces::PatternPart;
use std::alloc::{AllocError, Global};
use std::marker::Model;

/// The maximum depth of groups within groups.
const MOST_GROUPS: usize = 100;

/// The state of the check at a place of a pattern, which depends on the parts behind it.
#[derive(Drop)]
struct Nesting {
    /// The number of times that the part before the place is repeated in all, if a repetition is next.
    waiting: Option<u32>,
    /// The number of times that a part at the place is repeated in all, by the groups around it.
    times: u32,
    /// The same number for each group around these, the innermost last.
    outer: Vec<u32>,
}

impl Model for Nesting {
    ghost use Rattle.std.specs.Prelude.{reverse};
    ghost use Rattle.am_matcher.specs.Re2Nesting.{Nest};

    ghost Value = { Nest };

    ghost view = { λ n. record { waiting = n.waiting; times = n.times; outer = reverse n.outer.items } };
}

/// Returns the state at the end of a pattern.
fn at_end(alloc: Global) -> Nesting
    ensures { result ≡ at_end }
{
    Nesting {
        waiting: None,
        times: 1,
        outer: Vec::new(alloc),
    }
}

/// Returns whether each group has a start and an end, and no repetition is next.
fn is_whole(nesting: &Nesting) -> bool
    ensures { MatchBool result ((nesting.now.waiting ≡ None) × (nesting.now.outer ≡ [])) (¬ ((nesting.now.waiting ≡ None) × (nesting.now.outer ≡ []))) }
{
    nesting.outer.is_empty() && nesting.waiting.is_none()
}

/// Goes back over a repetition, and returns whether it may stand there.
#[tactic(auto, unfolding(crate::specs::Re2Nesting::repeated))]
fn repeat(nesting: &mut Nesting, most: u32) -> bool
    ensures { MatchBool result (repeated most nesting.old ≡ Some nesting.new) (repeated most nesting.old ≡ None) }
{
    let times = nesting.times.saturating_mul(most);
    if nesting.waiting.is_some() || times > MOST_TIMES {
        return false;
    }
    nesting.waiting = Some(times);
    true
}

/// Goes back over the end of a group, and returns whether it may stand there.
#[tactic(auto, unfolding(crate::specs::Re2Nesting::closed))]
fn close(nesting: &mut Nesting) -> Result<bool, AllocError>
    ensures { IfOk result (λ may. MatchBool may (closed nesting.old ≡ Some nesting.new) (closed nesting.old ≡ None)) }
{
    if nesting.outer.len() >= MOST_GROUPS {
        return Ok(false);
    }
    nesting.outer.push(nesting.times)?;
    nesting.times = nesting.waiting.unwrap_or(nesting.times);
    nesting.waiting = None;
    Ok(true)
}

/// Goes back over the start of a group, and returns whether it may stand there.
#[tactic(auto, unfolding(crate::specs::Re2Nesting::opened))]
fn open(nesting: &mut Nesting) -> bool
    ensures { MatchBool result (opened nesting.old nesting.old.outer ≡ Some nesting.new) (opened nesting.old nesting.old.outer ≡ None) }
{
    if nesting.waiting.is_some() {
        return false;
    }
    match nesting.outer.pop() {
        None => false,
        Some(times) => {
            nesting.times = times;
            true
        }
    }
}

/// Goes back over a part, and returns whether it may stand there.
#[tactic(auto, unfolding(crate::specs::Re2Nesting::back_over))]
fn step(nesting: &mut Nesting, part: PatternPart) -> Result<bool, AllocError>
    ensures { IfOk result (λ may. MatchBool may (back_over part nesting.old ≡ Some nesting.new) (back_over part nesting.old ≡ None)) }
{
    match part {
        PatternPart::Repeat(most) => Ok(repeat(nesting, most)),
        PatternPart::Atom => {
            nesting.waiting = None;
            Ok(true)
        }
        PatternPart::Fixed | PatternPart::Bar => Ok(nesting.waiting.is_none()),
        PatternPart::Close => close(nesting),
        PatternPart::Open => Ok(open(nesting)),
    }
}

/// Returns the place of the first end of a group that has no start, or 0 if there is none.
fn unopened(parts: &[PatternPart]) -> usize {
    let mut depth: usize = 0;
    for (place, part) in parts.iter().enumerate() {
        match part {
            PatternPart::Open => depth = depth.saturating_add(1),
            PatternPart::Close if depth == 0 => return place,
            PatternPart::Close => depth -= 1,
            _ => {}
        }
    }
    0
}

/// Returns the place of a part that may not stand where it is, or `None` if there is none.
pub fn misplaced(alloc: Global, parts: &[PatternPart]) -> Result<Option<usize>, AllocError>
    ensures { IfOk result (λ place. MatchOption place (IsExpression 1 100 parts.now) (λ _. ¬ IsExpression 1 100 parts.now)) }
{
    let mut nesting = at_end(alloc);
    let mut left = parts;
    while let Some((part, before)) = left.split_last() {
        if !step(&mut nesting, *part)? {
            return Ok(Some(before.len()));
        }
        left = before;
    }
    if is_whole(&nesting) {
        Ok(None)
    } else {
        Ok(Some(unopened(parts)))
    }
}
