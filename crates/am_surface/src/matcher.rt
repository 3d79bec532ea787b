//! Matchers, verdicts, filters and mutes.

use crate::samples::{at, held, holds, matcher, matcher_list, silence, text};
use am_matcher::{
    BuildError, Compiled, Filter, FilterError, Ids, Label, Labels, Mutes, mutes, verdict,
};
use am_silence::Verdict;
use std::alloc::{AllocError, Global};

/// Calls everything public of am_matcher.
pub fn calls(alloc: Global) -> Option<()> {
    compiled(alloc)?;
    verdicts(alloc)?;
    filters(alloc)?;
    muted(alloc)?;
    holds(is_memory(BuildError::Memory) && is_memory_of_filter(FilterError::Memory))
}

fn compiled(alloc: Global) -> Option<()> {
    let matcher = matcher(alloc)?;
    let compiled: Result<Compiled, BuildError> = Compiled::build(alloc, &matcher);
    let mut compiled = compiled.ok()?;
    let answer: Result<bool, AllocError> = compiled.matches("x");
    holds(answer.ok()?)
}

fn verdicts(alloc: Global) -> Option<()> {
    let matchers = matcher_list(alloc)?;
    let verdict: Result<Verdict, AllocError> = verdict(alloc, &matchers);
    holds(match verdict.ok()? {
        Verdict::Fine => true,
        Verdict::Bad | Verdict::AllEmpty => false,
    })
}

fn filters(alloc: Global) -> Option<()> {
    let silence = silence(alloc)?;
    let filter: Result<Filter, FilterError> = Filter::parse(alloc, "job=x");
    let mut filter = filter.ok()?;
    let answer: Result<bool, AllocError> = filter.passes(&silence);
    holds(answer.ok()?)
}

/// Returns the labels of an alert with that job.
pub fn labels(alloc: Global) -> Option<Labels> {
    let name = text(alloc, "job")?;
    let value = text(alloc, "x")?;
    let mut labels = Vec::new(alloc);
    labels.push(Label { name, value }).ok()?;
    Some(Labels::new(labels))
}

fn muted(alloc: Global) -> Option<()> {
    let held = held(alloc)?;
    let labels = labels(alloc)?;
    let muted: Result<Mutes, AllocError> = mutes(alloc, &held, &labels, at(10));
    let Mutes { ids, broken } = muted.ok()?;
    let (ids, broken): (Ids, Ids) = (ids, broken);
    holds(ids.as_slice().len() == 1 && broken.as_slice().is_empty())
}

fn is_memory(error: BuildError) -> bool {
    match error {
        BuildError::Memory => true,
        BuildError::BadPattern => false,
    }
}

fn is_memory_of_filter(error: FilterError) -> bool {
    match error {
        FilterError::Memory => true,
        FilterError::Syntax | FilterError::BadPattern => false,
    }
}
