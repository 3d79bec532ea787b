//! Sources of versions, which are read one after the other.

ghost use Rattle.std.specs.Prelude.{◌≡◌, List, [], ◌∷◌, ◌++◌, OnOk, IfOk, IfErr};
ghost use Rattle.std.specs.List.{AllZip};
ghost use Rattle.am_merge.specs.Maps.{IsMap, IsJoin};
ghost use Rattle.am_report.specs.Sources.{Source as NamedMap};
ghost use Rattle.am_commands.specs.declared.fault.SourceFault.{SourceFault};
ghost use Rattle.am_commands.specs.Opening.{wanted_by, AreOpened, StopsOpening};
ghost use Rattle.am_commands.specs.Reading.{IsRead, StopsReading};
ghost use Rattle.am_commands.specs.Folding.{IsFoldOf};

use crate::fault::{SourceFault, Stopped, add};
use crate::opened::{ReadOptions, SourceRequest};
use am_merge::Held;
use am_options::SourceWord;
use am_report::HeldSource;
use am_version_order::{Moment, Version};
use std::alloc::{AllocError, Global};

/// A source of versions, which is read once, to its end.
pub trait Source<V: Version>: Drop {
    /// Reading it may give this map.
    ghost gives: { Self → List V → Type 0 };

    /// Reading it may stop with this fault.
    ghost stops: { Self → SourceFault → Type 0 };

    /// Reads it, and returns the map that it holds.
    ///
    /// # Errors
    ///
    /// Its first fault.
    fn read(&mut self, alloc: Global) -> Result<Held<V>, SourceFault>
        ensures order { IfOk result (IsMap V.seen V.Key.cmp) }
        ensures given { IfOk result (gives self.old) }
        ensures stopped { IfErr result (stops self.old) };
}

/// A source that is to be read, and its name.
#[derive(Drop)]
pub struct Input<'n, S: Drop> {
    pub name: &'n str,
    pub source: S,
}

/// Opens the sources of words, in their order, all before one is read.
///
/// # Errors
///
/// [`Stopped::Source`] with the fault of the first source that isn't opened, and [`Stopped::Output`] if memory runs out.
pub fn inputs_of<'n, S: Drop, F: Fn(SourceRequest<'n>) -> Result<S, SourceFault>>(
    alloc: Global,
    words: &[SourceWord<'n>],
    has_logs: bool,
    reading: ReadOptions,
    source_of: F,
) -> Result<Vec<Input<'n, S>>, Stopped>
    requires { F.IsAlwaysCallable source_of }
    ensures opened { IfOk result (λ inputs. AreOpened (F.post source_of) (wanted_by words.now has_logs reading) inputs.items) }
    ensures stopped { IfErr result (StopsOpening (F.post source_of) (wanted_by words.now has_logs reading)) }
{
    let mut inputs = Vec::new(alloc);
    for word in words {
        let asked = SourceRequest {
            word: *word,
            has_logs,
            reading,
        };
        match source_of(asked) {
            Ok(source) => add(
                &mut inputs,
                Input {
                    name: word.name,
                    source,
                },
            )?,
            Err(fault) => {
                return Err(Stopped::Source {
                    number: inputs.len(),
                    fault,
                });
            }
        }
    }
    Ok(inputs)
}

/// Reads a source.
fn read_one<'n, V: Version, S: Source<V>>(
    alloc: Global,
    input: &mut Input<'n, S>,
) -> Result<HeldSource<'n, V>, SourceFault>
    ensures read { IfOk result (IsRead V.seen V.Key.cmp S.gives input.old) }
    ensures fault { IfErr result (S.stops input.old.source) }
{
    let held = input.source.read(alloc)?;
    Ok(HeldSource::new(input.name, held))
}

/// Reads sources, each to its end before the next.
///
/// # Errors
///
/// [`Stopped::Source`] with the fault of the first source that is at fault, and [`Stopped::Output`] if memory runs out.
pub fn read_sources<'n, V: Version, S: Source<V>>(
    alloc: Global,
    inputs: &mut [Input<'n, S>],
) -> Result<Vec<HeldSource<'n, V>>, Stopped>
    ensures read { IfOk result (λ replicas. AllZip (IsRead V.seen V.Key.cmp S.gives) inputs.old replicas.items) }
    ensures stopped { IfErr result (StopsReading V.seen V.Key.cmp S.gives S.stops inputs.old) }
{
    let mut replicas = Vec::with_capacity(alloc, inputs.len())?;
    for input in inputs.iter_mut() {
        match read_one(alloc, input) {
            Ok(replica) => add(&mut replicas, replica)?,
            Err(fault) => {
                return Err(Stopped::Source {
                    number: replicas.len(),
                    fault,
                });
            }
        }
    }
    Ok(replicas)
}

/// Returns the join of two maps.
fn join<V: Version>(mut all: Held<V>, more: Held<V>) -> Result<Held<V>, AllocError>
    ensures order { IfOk result (IsMap V.seen V.Key.cmp) }
    ensures joined { IfOk result (IsJoin V.seen V.Key.cmp all more) }
{
    if all.is_empty() {
        more.has_values();
        return Ok(more);
    }
    match all.merge(&more, Moment::LEAST) {
        Ok(_) => Ok(all),
        Err(_) => Err(AllocError),
    }
}

/// Reads sources, each to its end before the next, and returns their fold: of each key the greatest version that one of them
/// holds. It holds the fold of those before beside the source that is being read.
///
/// # Errors
///
/// [`Stopped::Source`] with the fault of the first source that is at fault, and [`Stopped::Output`] if memory runs out.
pub fn join_sources<V: Version, S: Source<V>>(
    alloc: Global,
    inputs: &mut [Input<'_, S>],
) -> Result<Held<V>, Stopped>
    ensures joined { IfOk result (λ held. (sources : List (NamedMap V)) ×
        AllZip (IsRead V.seen V.Key.cmp S.gives) inputs.old sources × IsFoldOf V.seen V.Key.cmp sources held) }
    ensures stopped { IfErr result (StopsReading V.seen V.Key.cmp S.gives S.stops inputs.old) }
{
    let mut all = Held::new(alloc);
    let mut number = 0;
    for input in inputs.iter_mut() {
        match input.source.read(alloc) {
            Ok(held) => all = join(all, held)?,
            Err(fault) => return Err(Stopped::Source { number, fault }),
        }
        number += 1;
    }
    Ok(all)
}
