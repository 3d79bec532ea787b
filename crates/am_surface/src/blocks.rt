//! Lists in blocks compared with plain sorted lists, over runs.

ghost use Rattle.std.specs.Prelude.{◌<◌};
ghost use Rattle.std.specs.List.{AllPairs};
ghost use Rattle.std.specs.Ordering.{nat_cmp};
ghost use Rattle.am_merge.specs.Rows.{entries};

use crate::notes::mixed;
use am_merge::blocks::{Blocks, Cursor, Probe, Walk};
use std::alloc::{AllocError, Global};
use std::cmp::Ordering;

// A number to look for.
#[derive(Clone, Copy)]
struct Number(u64);

impl Probe<u64> for Number {
    ghost order = { λ probe item. nat_cmp item probe.0 };

    fn compare(&self, item: &u64) -> Ordering {
        item.cmp(&self.0)
    }
}

// Inserts a number if it isn't there.
fn put(blocks: &mut Blocks<u64>, number: u64) -> Result<(), AllocError>
    requires { AllPairs (λ x y. x < y) (entries blocks.old) }
    ensures { AllPairs (λ x y. x < y) (entries blocks.new) }
{
    blocks.reserve(1)?;
    if let Err(cursor) = blocks.search(&Number(number)) {
        blocks.insert(cursor, number);
    }
    Ok(())
}

// Removes a number if it is there.
fn take(blocks: &mut Blocks<u64>, number: u64)
    requires { AllPairs (λ x y. x < y) (entries blocks.old) }
    ensures { AllPairs (λ x y. x < y) (entries blocks.new) }
{
    if let Ok(cursor) = blocks.search(&Number(number)) {
        blocks.remove(cursor);
    }
}

// A set of numbers in blocks, and the same set as a plain sorted list.
#[derive(Drop)]
struct Twins {
    blocks: Blocks<u64>,
    plain: Vec<u64>,
    ghost rising: { AllPairs (λ x y. x < y) (entries blocks) },
}

impl Twins {
    fn new(alloc: Global) -> Self {
        Twins {
            blocks: Blocks::new(alloc),
            plain: Vec::new(alloc),
        }
    }

    fn put(&mut self, number: u64) -> Result<(), AllocError> {
        put(&mut self.blocks, number)?;
        if let Err(place) = self.plain.binary_search(&number) {
            self.plain.insert(place, number)?;
        }
        Ok(())
    }

    fn take(&mut self, number: u64) {
        take(&mut self.blocks, number);
        if let Ok(place) = self.plain.binary_search(&number) {
            self.plain.remove(place);
        }
    }

    // Returns whether a number is found at the same place near any guess and with any hint.
    fn finds_anyhow(&self, number: u64) -> bool {
        let probe = Number(number);
        let place = self.blocks.search(&probe);
        let guesses = [(0, 0), (0, 63), (3, 64), (7, 200), (900, 0)];
        guesses.iter().all(|&(block, offset)| self
            .blocks
            .search_near(Cursor { block, offset }, &probe)
            == place)
            && self.blocks.search_by(&probe, &probe) == place
            && self.blocks.search_by(&Number(1000), &probe) == place
    }

    // Returns whether the blocks have the items of the plain list from a number on, and the same first one.
    fn agree(&self, number: u64) -> bool {
        if self.blocks.first() != self.plain.first().copied() {
            return false;
        }
        let found = self.blocks.search(&Number(number));
        match (found, self.plain.binary_search(&number)) {
            (Ok(cursor), Ok(place)) => {
                self.blocks.get(cursor) == number
                    && is_walk_of(self.blocks.walk_from(cursor), &self.plain[place..])
            }
            (Err(cursor), Err(place)) => {
                is_walk_of(self.blocks.walk_from(cursor), &self.plain[place..])
            }
            _ => false,
        }
    }
}

// Returns whether a walk yields exactly these numbers.
fn is_walk_of(walk: Walk<'_, u64>, numbers: &[u64]) -> bool {
    let mut walked = 0;
    for number in walk {
        if walked >= numbers.len() || numbers[walked] != number {
            return false;
        }
        walked += 1;
    }
    walked == numbers.len()
}

// Returns the number that a step of a run inserts or removes: in run 0 those on both sides of 1000, and otherwise a drawn one.
fn number_of(run: u64, step: u64) -> u64 {
    match (run, step % 2) {
        (0, 0) => 1000 + step / 2,
        (0, _) => 1000u64.saturating_sub(step / 2),
        _ => mixed(run, step) % 2000,
    }
}

// Takes the steps of a run, of which about `puts` in 16 insert, and returns whether both lists agreed all along.
fn run(twins: &mut Twins, run: u64, steps: u64, puts: u64) -> Result<bool, AllocError> {
    let mut agreed = true;
    for step in 0..steps {
        let number = number_of(run, step);
        if mixed(step, run) % 16 < puts {
            twins.put(number)?;
        } else {
            twins.take(number);
        }
        if step % 16 == 0 {
            agreed = agreed && twins.agree(number) && twins.agree(0) && twins.finds_anyhow(number);
        }
    }
    Ok(agreed)
}

// Takes runs one after another, from an empty list on, and returns whether the lists agreed.
fn runs_agree(alloc: Global, runs: &[(u64, u64, u64)]) -> Result<bool, AllocError> {
    let mut twins = Twins::new(alloc);
    for (number, steps, puts) in runs {
        let agreed = run(&mut twins, *number, *steps, *puts)?;
        if !agreed {
            return Ok(false);
        }
    }
    Ok(true)
}

/// Returns whether lists in blocks agree with plain lists. One list grows to both sides of the middle; the other one grows to
/// some thousand numbers, stays, and shrinks to few.
pub fn agree_with_plain_lists(alloc: Global) -> Option<bool> {
    let outward = runs_agree(alloc, &[(0, 1000, 16)]).ok()?;
    let random = runs_agree(alloc, &[(1, 3000, 15), (2, 2000, 8), (3, 6000, 1)]).ok()?;
    Some(outward && random)
}
