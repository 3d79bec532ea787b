//! Writing a file anew in stretches while its state changes.
//!
//! A start has the whole state, at whatever moment a crash comes. The disk may undo what was done to names since the directory
//! was last handed to it. Write L for the old log, M for the one after it, F for the file as it stood, and G for the new one.
//! Each batch is committed to one log, and M has the batches after those of L; so L and M together end with the last version of
//! each key, as one log would.
//!
//! 1. L is renamed, M is made with a closed gate, and both are handed to the disk before M has a batch. A crash leaves F and all
//!    of L, under either name, and perhaps an empty M.
//! 2. G has, for each key, what the map had at some moment after that, and counts for nothing before it is renamed. A crash
//!    leaves F, L and M, or G, L and M. Either way the join has the last version of each key that F, L or M has, since what came
//!    after its piece was written is in M. A version that is neither in F nor in G had expired and left the map: then, if L or M
//!    has an older version of its key, it is there too, after that one.
//! 3. L goes only once G's name is on the disk, so no crash leaves F without L.
//! 4. If that is undone, L is back beside G and M, as in 2, or beside the file that M became, which is renamed onto L's name
//!    first. L is whole then: a file that has lost its name is made shorter only once the disk has the directory without that
//!    name, and no name leads to it after that, whatever crash comes. The same holds for F.
//! 5. A save of the whole state removes L, hands that to the disk, and then removes M: L never stands without M, whose ends it
//!    lacks.
//! 6. If L stands at the beginning, nothing is renamed; G has all of L and M, and the rest is as above.
//!
//! laws.rt has the theorem of all these, but for the bytes of a file that has lost its name, over any history of them.
//!
//! If the logs lack something, the compaction ends and G is removed: then a save of the whole state is due.

ghost use Rattle.std.specs.Prelude.{◌≡◌, ℕ, List, [], false, Ok, IfOk, IfErr, OnOk};
ghost use Rattle.am_store.specs.declared.stages.CompactionStage.TheVariants as stages;
ghost use Rattle.am_store.specs.Calls.{Event};
ghost use Rattle.am_store.specs.Rewrites.{Advances, Follows, IsRewritten, IsUnderWay, StopsRewriting, is_left_at, path_of, stage_of, with_piece};
ghost use Rattle.am_store.specs.Saves.{calls_of};

use crate::beside::{OLD_LOG, beside};
use crate::disk::Disk;
use crate::disk_calls::DiskCalls;
use crate::file_fault::FileFault;
use crate::rewriting::{
    end_log, hand_over, make_new, put_in_place, settle, settle_end, write_stretch,
};
use crate::spent::opened_to_go;
use crate::stages::{CompactionStage, WholeNewFile};
use crate::state::StateFile;
use crate::system::{SystemDisk, SystemFile};
use am_merge::Held;
use am_version_order::Version;
use std::fs::File;
use std::mem;
use std::rt::Files;

/// The progress of writing a file anew.
#[derive(Drop)]
pub struct Compaction<K> {
    stage: CompactionStage<K, SystemFile<File>>,
}

impl<K: Drop> Compaction<K> {
    /// Begins a compaction with nothing written yet. [`StateFile::part_logs`] has to have begun a new log before.
    pub fn new() -> Compaction<K>
        ensures { stage_of result ≡ stages.GiveBack }
    {
        Compaction {
            stage: CompactionStage::GiveBack,
        }
    }
}

/// Takes the next step, and returns whether anything is left to do. `held` is the state as it is now, and the file has at most
/// `most` bytes.
///
/// # Errors
///
/// The reason why the file isn't written anew, which ends the compaction. The old file stands as it was, or the new one does if
/// the directory couldn't be synced to the disk or the old log couldn't be removed; the logs have what they had.
pub fn compact<V: Version, R: Files<File = File> + AllocGlobal>(
    rt: &R,
    file: &mut StateFile,
    compaction: &mut Compaction<V::Key>,
    held: &Held<V>,
    most: u32,
) -> Result<bool, FileFault>
where
    V::Key: Drop,
    ensures path { path_of file.new ≡ path_of file.old }
    ensures left { IfOk result (λ is_left. is_left ≡ is_left_at (stage_of compaction.new)) }
    // PROMISE: Each step of writing a file anew is the one that follows.
    ensures next { OnOk result (Follows (stage_of compaction.old) (stage_of compaction.new)) }
    // PROMISE: It makes just the calls of its stage, and one that writes adds one piece of the state as it is then.
    ensures come { (maps : List (List V)) (before : List Event) →
        IsUnderWay V.seen V.Key.cmp (path_of file.old) most maps (stage_of compaction.old) before (calls_of file.old) →
        OnOk result (IsUnderWay V.seen V.Key.cmp (path_of file.old) most (with_piece (stage_of compaction.old) held.now maps) (stage_of compaction.new) before (calls_of file.new)) }
    // PROMISE: A file that is written anew in stretches has a piece of each state that it was written from, in order, and its calls are those of a save and then of the end of the old log.
    ensures done { (maps : List (List V)) (before : List Event) →
        IsUnderWay V.seen V.Key.cmp (path_of file.old) most maps (stage_of compaction.old) before (calls_of file.old) → result ≡ Ok false →
        IsRewritten V.seen V.Key.cmp (path_of file.old) most (with_piece (stage_of compaction.old) held.now maps) before (calls_of file.new) }
    // PROMISE: If that fails, its own new file is removed and nothing else, unless the new file has taken its place.
    ensures stopped { (maps : List (List V)) (before : List Event) →
        IsUnderWay V.seen V.Key.cmp (path_of file.old) most maps (stage_of compaction.old) before (calls_of file.old) →
        IfErr result (StopsRewriting V.seen V.Key.cmp (path_of file.old) most held.now maps before (calls_of file.new)) }
{
    let mut disk = SystemDisk::after(rt, mem::replace(&mut file.calls, DiskCalls::new()));
    let stage = mem::replace(&mut compaction.stage, CompactionStage::Done);
    let done = resume(rt, &mut disk, file, stage, held, most);
    file.calls = disk.into_calls();
    match done {
        Ok(stage) => {
            let is_left = !matches!(stage, CompactionStage::Done);
            compaction.stage = stage;
            Ok(is_left)
        }
        Err(fault) => Err(fault),
    }
}

/// Takes the next step, and returns the one after it.
fn resume<V: Version, R: Files<File = File> + AllocGlobal, D: Disk>(
    rt: &R,
    disk: &mut D,
    file: &mut StateFile,
    stage: CompactionStage<V::Key, D::File>,
    held: &Held<V>,
    most: u32,
) -> Result<CompactionStage<V::Key, D::File>, FileFault>
where
    V::Key: Drop,
    ensures path { path_of file.new ≡ path_of file.old }
    ensures advances { Advances V.seen V.Key.cmp (path_of file.old) most D.File.contents held.now stage (D.calls disk.old) result (D.calls disk.new) }
{
    match stage {
        CompactionStage::GiveBack => Ok(give_back(file)),
        CompactionStage::Make => make_new::<V, D>(disk, rt.alloc(), file.path()),
        CompactionStage::Write(new, from) => {
            write_stretch(disk, rt.alloc(), file.path(), new, from, held, most)
        }
        CompactionStage::HandOver(new) => hand_over::<V, D>(disk, file.path(), new),
        CompactionStage::Rename(new) => rename::<V, R, D>(rt, disk, file, new),
        CompactionStage::Settle(replaced) => {
            let next = settle::<V, D>(disk, file.path())?;
            file.spent.keep(replaced);
            Ok(next)
        }
        CompactionStage::EndLog => end_old_log::<V, R, D>(rt, disk, file),
        CompactionStage::SettleEnd(log) => {
            let next = settle_end::<V, D>(disk, file.path())?;
            file.spent.keep(log);
            Ok(next)
        }
        CompactionStage::Done => Ok(CompactionStage::Done),
    }
}

/// Gives back a piece of what lost its name the last time, and returns the next stage.
fn give_back<K, F>(file: &mut StateFile) -> CompactionStage<K, F>
    ensures path { path_of file.new ≡ path_of file.old }
    ensures next { Follows stages.GiveBack result }
{
    if file.spent.give_back() {
        CompactionStage::GiveBack
    } else {
        CompactionStage::Make
    }
}

/// Puts the new file in the place of the old one, whose bytes are kept until they can be given back.
fn rename<V: Version, R: Files<File = File>, D: Disk>(
    rt: &R,
    disk: &mut D,
    file: &mut StateFile,
    new: WholeNewFile,
) -> Result<CompactionStage<V::Key, D::File>, FileFault>
where
    V::Key: Drop,
    ensures path { path_of file.new ≡ path_of file.old }
    ensures advances { (most : ℕ) (map : List V) → Advances V.seen V.Key.cmp (path_of file.old) most D.File.contents map (stages.Rename new) (D.calls disk.old) result (D.calls disk.new) }
{
    let written = new.written;
    let replaced = opened_to_go(rt, file.path());
    let next = put_in_place::<V, D>(disk, file.path(), new, replaced)?;
    file.size = written;
    Ok(next)
}

/// Removes the old log, whose bytes are kept until they can be given back. Everything it had is in the file.
fn end_old_log<V: Version, R: Files<File = File> + AllocGlobal, D: Disk>(
    rt: &R,
    disk: &mut D,
    file: &mut StateFile,
) -> Result<CompactionStage<V::Key, D::File>, FileFault>
where
    V::Key: Drop,
    ensures path { path_of file.new ≡ path_of file.old }
    ensures advances { (most : ℕ) (map : List V) → Advances V.seen V.Key.cmp (path_of file.old) most D.File.contents map stages.EndLog (D.calls disk.old) result (D.calls disk.new) }
{
    let name = beside(rt.alloc(), file.path(), OLD_LOG)?;
    let log = opened_to_go(rt, &name);
    let next = end_log::<V, D>(disk, file.path(), &name, log)?;
    file.needs_save = false;
    Ok(next)
}
