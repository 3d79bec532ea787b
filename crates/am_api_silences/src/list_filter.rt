//! Lists whose filters are held against their silences a stretch at a time.

ghost use Rattle.std.specs.Prelude.{◌≡◌, ◌+◌, ◌-◌, ◌<◌, ◌≤◌, ◌==◌, IfOk, OnOk, length};
ghost use Rattle.std.specs.List.{list_all};
ghost use Rattle.am_matcher.specs.Matching.{passes};
ghost use Rattle.am_api_silences.specs.ListFilters.{passing};

use am_instance::Instance;
use am_matcher::Filter;
use am_silence::{MeshSilence, State};
use am_wire::Message;
use std::alloc::{AllocError, Global};
use std::marker::Model;
use std::vec::IntoIter;

/// The number of bytes of silences against which a filter without a pattern is held in a stretch.
const STRETCH_BYTES: usize = 256 << 10;

/// The number of bytes of a compiled pattern that cost as much as a filter without one.
const PATTERN_BYTES: usize = 4 << 10;

/// The number of bytes that are counted for a state of a compiled pattern.
const STATE_BYTES: usize = 160;

/// The most steps that holding one filter against one silence may take: some seconds' work.
const MOST_STEPS: usize = 1_000_000_000;

/// The most steps that a list is judged with at once, and not in stretches: some hundredths of a second's work.
const MOST_STEPS_AT_ONCE: usize = 32 << 20;

/// The silences of a list, of which those are sought that pass all filters.
pub struct ListFilter {
    filters: Vec<Filter>,
    /// The number of steps that holding one filter against one silence takes at most.
    steps: usize,
    /// The cost of holding the filters against a byte of a silence.
    weight: usize,
    /// The silences that are still to be judged.
    left: IntoIter<(MeshSilence, State)>,
    passed: Vec<(MeshSilence, State)>,
}

// With this the crates above cite one drop, and don't prove those of everything inside.
impl Drop for ListFilter {
    fn drop(self) {
        let ListFilter {
            filters: _,
            steps: _,
            weight: _,
            left: _,
            passed: _,
        } = self;
    }
}

impl Model for ListFilter {
    ghost use Rattle.std.specs.Prelude.{◌≡◌, ◌++◌, length};
    ghost use Rattle.std.specs.Vec.Iter.{into_iter_items, into_iter_len};
    ghost use Rattle.am_api_silences.specs.ListFilters.{Sifted, passing};

    ghost Value = { Sifted };

    ghost view = { λ s. record {
      rows = s.passed.items ++ passing s.filters.items (into_iter_items s.left);
      left = length (into_iter_items s.left);
    } };

    ghost invariant = { λ s. into_iter_len s.left ≡ length (into_iter_items s.left) };
}

/// Returns the cost of holding filters against a byte of a silence: one for each filter, and more for a large pattern.
fn weight_of(filters: &[Filter]) -> usize {
    let mut weight = 0usize;
    for filter in filters {
        weight = weight.saturating_add(1 + filter.size() / PATTERN_BYTES);
    }
    weight
}

/// Returns the number of steps that holding one of the filters against one of the silences takes at most: each state of its pattern
/// at each byte.
fn steps_of(filters: &[Filter], rows: &[(MeshSilence, State)]) -> usize {
    let mut states = 0usize;
    for filter in filters {
        states = states.max(filter.size() / STATE_BYTES);
    }
    let mut bytes = 0usize;
    for row in rows {
        bytes = bytes.max(row.0.size() as usize);
    }
    states.saturating_mul(bytes)
}

/// Returns whether filters can be held against all silences of an instance at once: a step is counted for each byte of a silence,
/// and as many more as a filter's pattern has states.
pub(crate) fn are_light(filters: &[Filter], instance: &Instance) -> bool {
    let mut weight = 0usize;
    for filter in filters {
        weight = weight.saturating_add(1 + filter.size() / STATE_BYTES);
    }
    let mut left = MOST_STEPS_AT_ONCE;
    for version in instance.silences().iter() {
        let steps = weight.saturating_mul(version.size() as usize);
        if steps > left {
            return false;
        }
        left -= steps;
    }
    true
}

/// Returns whether the silence of a version passes all filters.
fn passes_all(version: &MeshSilence, filters: &mut Vec<Filter>) -> Result<bool, AllocError>
    ensures answer { IfOk result (λ yes. yes ≡ list_all (λ f. passes f version.now.silence) filters.old.items) }
    ensures same { filters.new.items ≡ filters.old.items }
{
    for filter in filters.iter_mut() {
        if !filter.passes_version(version)? {
            return Ok(false);
        }
    }
    Ok(true)
}

impl ListFilter {
    /// Begins with these silences, none of which is judged yet. Takes no memory.
    pub(crate) fn new(
        alloc: Global,
        filters: Vec<Filter>,
        rows: Vec<(MeshSilence, State)>,
    ) -> ListFilter
        ensures { result ≡ record { rows = passing filters.items rows.items; left = length rows.items } }
    {
        ListFilter {
            steps: steps_of(&filters, &rows),
            weight: weight_of(&filters),
            filters,
            left: rows.into_iter(),
            passed: Vec::new(alloc),
        }
    }

    /// Returns whether holding one of the filters against one of the silences might keep everyone waiting.
    pub(crate) fn is_too_dear(&self) -> bool {
        self.steps > MOST_STEPS
    }

    /// Returns whether all silences are judged.
    pub(crate) fn is_done(&self) -> bool
        ensures { result ≡ (self.now.left == 0) }
    {
        self.left.len() == 0
    }

    /// Judges the next silence, if one is left, and returns the cost of that.
    fn judge_next(&mut self) -> Result<usize, AllocError>
        ensures same { OnOk result (self.new.rows ≡ self.old.rows) }
        ensures fewer { OnOk result (self.new.left ≡ self.old.left - 1) }
    {
        let Some(row) = self.left.next() else {
            return Ok(0);
        };
        let cost = self.weight.saturating_mul(row.0.size() as usize);
        if passes_all(&row.0, &mut self.filters)? {
            self.passed.push(row)?;
        }
        Ok(cost)
    }

    /// Judges at most `most` more silences, and at least one: fewer than `most` if they are large or the filters have large
    /// patterns.
    ///
    /// # Errors
    ///
    /// [`AllocError`] if memory runs out.
    pub(crate) fn resume(mut self, most: usize) -> Result<ListFilter, AllocError>
        ensures same { IfOk result (λ filtered. filtered.rows ≡ self.rows) }
        ensures fewer { IfOk result (λ filtered. 0 < self.left → filtered.left < self.left) }
        ensures few { IfOk result (λ filtered. 0 < most → self.left ≤ filtered.left + most) }
    {
        let mut cost = self.judge_next()?;
        for _count in 0..most.saturating_sub(1) {
            if cost >= STRETCH_BYTES || self.is_done() {
                break;
            }
            cost = cost.saturating_add(self.judge_next()?);
        }
        Ok(self)
    }

    /// Returns the silences that pass, after all that are left are judged.
    ///
    /// # Errors
    ///
    /// [`AllocError`] if memory runs out.
    pub(crate) fn finish(mut self) -> Result<Vec<(MeshSilence, State)>, AllocError>
        ensures { IfOk result (λ rows. rows.items ≡ self.rows) }
    {
        for _count in 0..self.left.len() {
            self.judge_next()?;
        }
        let ListFilter {
            filters: _,
            steps: _,
            weight: _,
            left: _,
            passed,
        } = self;
        Ok(passed)
    }
}
