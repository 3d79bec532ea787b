//! Laws about what a crash leaves of a save, of a file that is written anew in stretches, and of a history of these.

ghost use Rattle.std.specs.Prelude.{◌≡◌, ◌⊎◌, ◌<◌, ◌^◌, ℕ, false, List, [], ◌++◌, All, Contains, length, Option, Some, None, codes};
ghost use Rattle.am_version_order.specs.Versions.{IsLive};
ghost use Rattle.am_merge.specs.Maps.{IsJoin, IsMap, swept};
ghost use Rattle.am_snapshot.specs.Encodings.{row_encoding};
ghost use Rattle.am_snapshot.specs.Saving.{FitsRow};
ghost use Rattle.std.specs.declared.fs.File.{File};
ghost use Rattle.am_store.specs.declared.file_fault.FileFault.{FileFault};
ghost use Rattle.am_store.specs.declared.stages.CompactionStage.{CompactionStage};
ghost use Rattle.am_store.specs.declared.stages.CompactionStage.TheVariants as stages;
ghost use Rattle.am_store.specs.declared.system.SystemFile.{SystemFile};
ghost use Rattle.am_wire.specs.declared.unknown.Unknown.{Unknown};
ghost use Rattle.am_store.specs.Blocks.{IsBeforeOrAfter};
ghost use Rattle.am_store.specs.Calls.{Event};
ghost use Rattle.am_store.specs.Saves.{IsDirectoryOf, IsSaved, IsStopped, saving};
ghost use Rattle.am_store.specs.Crashes.{Agrees, AtLeast, Disk, Exactly, IsAmong, Names, Remains, Keeps, MayLeave, MayLeaveDuring, Runs, Stays, bytes_at, moments};
ghost use Rattle.am_store.specs.Outlasting.{HasAtLeast, InBatches, IsKept, IsKnown, IsState, Outlasts, OutlastsDuring, Stands, StartsWith, content_at};
ghost use Rattle.am_store.specs.Histories.{Act, AreOf, AreOfAll, IsKnownOf, OfStates, Rewrite};
ghost use Rattle.am_store.specs.Rewrites.{AreOfRewriting, End, IsRewritten, IsWritten, IsUnderWay, StopsRewriting, old_log, own_log};
ghost use Rattle.am_store.specs.UnsyncedSaves.{one_file, without_the_file, without_the_directory};

use am_version_order::Version;
use am_wire::Record;

/// States that a crash at any moment of a save leaves the file that was there, or none if none was, or else the new one; and
/// after a save that is done, the new one.
pub fn a_crash_leaves_the_old_file_or_the_new_one<V: Version>()
    // PROMISE: A crash at any moment of a save leaves the old file or the new one, whole.
    ensures saved { (path : List ℕ) (map : List V) (old : Option (List ℕ)) (before calls : List Event) (disk : Disk) (left : Remains) →
        Keeps disk path old → IsSaved path (row_encoding V.seen map) before (before ++ calls) →
        MayLeaveDuring calls disk left → (bytes_at left path ≡ old) ⊎ (bytes_at left path ≡ Some (row_encoding V.seen map)) }
    ensures stopped { (path : List ℕ) (map : List V) (most : ℕ) (old : Option (List ℕ)) (before calls : List Event) (fault : FileFault)
        (disk : Disk) (left : Remains) →
        Keeps disk path old → IsStopped (FitsRow V.seen most map) path (row_encoding V.seen map) before (before ++ calls) fault →
        MayLeaveDuring calls disk left → (bytes_at left path ≡ old) ⊎ (bytes_at left path ≡ Some (row_encoding V.seen map)) }
    // PROMISE: After a save that is done, a crash leaves the new file.
    ensures done { (path : List ℕ) (map : List V) (before calls : List Event) (disk new : Disk) → IsDirectoryOf path disk.directory →
        IsSaved path (row_encoding V.seen map) before (before ++ calls) → Runs calls disk new → Keeps new path (Some (row_encoding V.seen map)) }
{}

/// States that a crash at any moment of a save, or right after it, leaves the new file, or what a crash before the save might
/// have left. So after saves that stopped, too, a crash leaves the whole file of one of them, or what was there before all of
/// them.
pub fn a_save_adds_its_own_file_alone<V: Version>()
    ensures saved { (path : List ℕ) (map : List V) (before calls : List Event) (disk : Disk) (left : Remains) →
        IsSaved path (row_encoding V.seen map) before (before ++ calls) → MayLeaveDuring calls disk left →
        (bytes_at left path ≡ Some (row_encoding V.seen map))
        ⊎ ((earlier : Remains) × MayLeave disk earlier × (bytes_at earlier path ≡ bytes_at left path)) }
    ensures stopped { (path : List ℕ) (map : List V) (most : ℕ) (before calls : List Event) (fault : FileFault) (disk : Disk) (left : Remains) →
        IsStopped (FitsRow V.seen most map) path (row_encoding V.seen map) before (before ++ calls) fault → MayLeaveDuring calls disk left →
        (bytes_at left path ≡ Some (row_encoding V.seen map))
        ⊎ ((earlier : Remains) × MayLeave disk earlier × (bytes_at earlier path ≡ bytes_at left path)) }
    ensures right_after { (calls : List Event) (disk new : Disk) (left : Remains) →
        Runs calls disk new → MayLeave new left → MayLeaveDuring calls disk left }
{}

/// States that a crash leaves a file that is synced, if its directory is synced, too, and no file where none was then.
pub fn what_is_synced_is_kept()
    ensures there { (path bytes : List ℕ) (file : ℕ) (disk : Disk) → disk.earlier ≡ [] → disk.names path ≡ Some file →
        disk.known file ≡ Some (Exactly bytes) → Keeps disk path (Some bytes) }
    ensures absent { (path : List ℕ) (disk : Disk) → disk.earlier ≡ [] → disk.names path ≡ None → Keeps disk path None }
{}

/// States that a save can be made, and what a crash may leave of one that lacks a sync: without that of the new file any bytes,
/// and without that of the directory the old file.
pub fn each_sync_is_needed()
    ensures whole { (path row old : List ℕ) → (new : Disk) × Runs (saving false path (codes ".") row) (one_file path old) new }
    // PROMISE: Without either sync a crash may lose the new file: worked disks.
    ensures file { (path old found : List ℕ) → (new : Disk) × (left : Remains)
        × Runs (without_the_file path) (one_file path old) new × MayLeave new left × (bytes_at left path ≡ Some found) }
    ensures directory { (path row old : List ℕ) → (new : Disk) × (left : Remains)
        × Runs (without_the_directory path row) (one_file path old) new × MayLeave new left × (bytes_at left path ≡ Some old) }
{}

/// States that a crash at any moment while a file is written anew leaves the file that was there, or none if none was, or else
/// the new one, whole; and after the end, the new one. The calls are those of the rewriting alone.
pub fn a_crash_leaves_the_old_file_or_the_one_written_anew<V: Version>()
    // PROMISE: A crash at any moment while a file is written anew leaves the old file or the new one, whole.
    ensures rewritten { (path : List ℕ) (most : ℕ) (maps : List (List V)) (old : Option (List ℕ)) (before calls : List Event) (disk : Disk) (left : Remains) →
        Keeps disk path old → (anew : IsRewritten V.seen V.Key.cmp path most maps before (before ++ calls)) →
        MayLeaveDuring calls disk left → (bytes_at left path ≡ old) ⊎ (bytes_at left path ≡ Some anew.row) }
    ensures stopped { (path : List ℕ) (most : ℕ) (map : List V) (maps : List (List V)) (old : Option (List ℕ)) (before calls : List Event) (fault : FileFault)
        (disk : Disk) (left : Remains) →
        Keeps disk path old → (stops : StopsRewriting V.seen V.Key.cmp path most map maps before (before ++ calls) fault) →
        MayLeaveDuring calls disk left → (bytes_at left path ≡ old) ⊎ ((stops.place ≡ End) × (bytes_at left path ≡ Some stops.row)) }
    // PROMISE: After a file was written anew, a crash leaves the new file.
    ensures done { (path : List ℕ) (most : ℕ) (maps : List (List V)) (before calls : List Event) (disk new : Disk) → IsDirectoryOf path disk.directory →
        (anew : IsRewritten V.seen V.Key.cmp path most maps before (before ++ calls)) → Runs calls disk new → Keeps new path (Some anew.row) }
{}

/// States that a crash while a file is written anew leaves the old log or the new file: what the old file lacks isn't lost.
pub fn no_crash_leaves_the_old_file_without_the_old_log<V: Version>()
    // PROMISE: No crash while a file is written anew leaves the old file without the old log.
    ensures rewritten { (path : List ℕ) (most : ℕ) (maps : List (List V)) (before calls : List Event) (disk : Disk) (left : Remains) →
        IsDirectoryOf path disk.directory → Stays disk (old_log path) → (anew : IsRewritten V.seen V.Key.cmp path most maps before (before ++ calls)) →
        MayLeaveDuring calls disk left → bytes_at left (old_log path) ≡ None → bytes_at left path ≡ Some anew.row }
    ensures stopped { (path : List ℕ) (most : ℕ) (map : List V) (maps : List (List V)) (before calls : List Event) (fault : FileFault) (disk : Disk) (left : Remains) →
        IsDirectoryOf path disk.directory → Stays disk (old_log path) → (stops : StopsRewriting V.seen V.Key.cmp path most map maps before (before ++ calls) fault) →
        MayLeaveDuring calls disk left → bytes_at left (old_log path) ≡ None → (stops.place ≡ End) × (bytes_at left path ≡ Some stops.row) }
{}

/// States that pieces of a map that doesn't change are its row.
pub fn pieces_of_one_map_are_its_row<V: Version>()
    // PROMISE: A state that doesn't change while its file is written anew is in the new file as a save writes it.
    ensures { (map : List V) (maps : List (List V)) (row : List ℕ) → IsMap V.seen V.Key.cmp map → All (λ (other : List V). other ≡ map) maps →
        IsWritten V.seen V.Key.cmp maps row End → row ≡ row_encoding V.seen map }
{}

/// States that no crash loses a version over a history of acts: files are saved and their logs begun anew, logs are parted, and
/// files written anew, one behind the other, and each may stop. To have a version is to have it, or a greater one of its key. What
/// stands in the file or a log after any crash outlasts a crash; and what outlasts one before a history outlasts one while it is
/// made, and after it, if each state has it that is saved, or from which the file is written. Of a log that is written meanwhile
/// these disks know at most that it has the batches that it had acknowledged before.
pub fn no_crash_loses_a_version<V: Record>()
    ensures stands { (unknown : Unknown) (path : List ℕ) (v : V) (left : Remains) →
        Stands V.seen (V.reads unknown) path v left → IsKept V.seen (V.reads unknown) path v left }
    // PROMISE: After any crash, a start that succeeds has each version that a log acknowledged, or a greater one of its key.
    ensures acknowledged { (unknown : Unknown) (path : List ℕ) (batches : List (List ℕ)) (batch : List ℕ) (v : V) (left : Remains) →
        InBatches V.seen (V.reads unknown) batches v → IsBeforeOrAfter batches batch (content_at left (own_log path)) →
        IsKept V.seen (V.reads unknown) path v left }
    ensures appended { (batches : List (List ℕ)) (batch file : List ℕ) → IsBeforeOrAfter batches batch file → Agrees (AtLeast batches) file }
    // PROMISE: What a log acknowledged outlasts a crash, as long as its file has the log's name, whatever is appended to it.
    ensures logged { (unknown : Unknown) (path : List ℕ) (batches : List (List ℕ)) (file : ℕ) (disk : Disk) (v : V) →
        InBatches V.seen (V.reads unknown) batches v → disk.known file ≡ Some (AtLeast batches) →
        ((names : Names) → IsAmong names (moments disk) → names (own_log path) ≡ Some file) → Outlasts V.seen (V.reads unknown) path v disk }
    // PROMISE: Over a whole history of saves, partings and rewritings, each done or stopped, one behind the other, a crash at any moment loses no version that no crash before would have lost, and that each state has that is saved or rewritten meanwhile: a start that succeeds has it, or a greater one of its key.
    ensures outlasts { (unknown : Unknown) (path : List ℕ) (most : ℕ) (acts : List (Act V)) (before calls : List Event) (disk : Disk) (v : V) →
        most < 2 ^ 32 → IsDirectoryOf path disk.directory → OfStates (λ (state : List V). length (row_encoding V.seen state) < 2 ^ 64) acts →
        OfStates (IsState V.seen V.Key.cmp V.Version.is_value V.plain unknown) acts →
        AreOfAll V.seen V.Key.cmp path most acts before (before ++ calls) →
        Outlasts V.seen (V.reads unknown) path v disk → OfStates (HasAtLeast V.seen v) acts →
        OutlastsDuring V.seen (V.reads unknown) path v calls disk }
    // PROMISE: After a crash at any moment of such a history a start has no version that never was: each is in a log that is left, or was in the file before, or is in a state that is saved or rewritten meanwhile.
    ensures nothing_new { (unknown : Unknown) (path : List ℕ) (most : ℕ) (acts : List (Act V)) (before calls : List Event) (disk : Disk) (left : Remains)
        (map : List V) (v : V) →
        most < 2 ^ 32 → IsDirectoryOf path disk.directory → OfStates (λ (state : List V). length (row_encoding V.seen state) < 2 ^ 64) acts →
        OfStates (IsState V.seen V.Key.cmp V.Version.is_value V.plain unknown) acts →
        AreOfAll V.seen V.Key.cmp path most acts before (before ++ calls) → MayLeaveDuring calls disk left →
        StartsWith V.seen (V.reads unknown) path left map → Contains map v → IsKnownOf V.seen (V.reads unknown) path acts disk left v }
    // PROMISE: After a crash while a file is written anew a start has no version that never was: each is in the log, or was in the file or its old log, or in a state from which the file is written.
    ensures nothing_rewritten_new { (unknown : Unknown) (path : List ℕ) (most : ℕ) (states : List (List V)) (before calls : List Event) (disk : Disk) (left : Remains)
        (map : List V) (v : V) →
        most < 2 ^ 32 → IsDirectoryOf path disk.directory → All (IsState V.seen V.Key.cmp V.Version.is_value V.plain unknown) states →
        AreOfRewriting V.seen V.Key.cmp path most states before (before ++ calls) → MayLeaveDuring calls disk left →
        StartsWith V.seen (V.reads unknown) path left map → Contains map v →
        IsKnown V.seen (V.reads unknown) path states disk left v }
    ensures after { (unknown : Unknown) (path : List ℕ) (calls : List Event) (disk new : Disk) (v : V) →
        Runs calls disk new → OutlastsDuring V.seen (V.reads unknown) path v calls disk → Outlasts V.seen (V.reads unknown) path v new }
{}

/// States that a rewriting begins with nothing written and nothing called, and is an act of a history, however far it has come.
pub fn a_rewriting_is_an_act<V: Version>()
    // PROMISE: However far the rewriting of a file has come, it is an act of a history, behind what was done before it began.
    ensures begins { (path : List ℕ) (most : ℕ) (before : List Event) → IsUnderWay V.seen V.Key.cmp path most [] stages.GiveBack before before }
    ensures under_way { (path : List ℕ) (most : ℕ) (maps : List (List V)) (stage : CompactionStage V.Key (SystemFile File)) (before after : List Event) →
        IsUnderWay V.seen V.Key.cmp path most maps stage before after → AreOf V.seen V.Key.cmp path most (Rewrite maps) before after }
    ensures done { (path : List ℕ) (most : ℕ) (maps : List (List V)) (before after : List Event) →
        IsRewritten V.seen V.Key.cmp path most maps before after → AreOf V.seen V.Key.cmp path most (Rewrite maps) before after }
    ensures stopped { (path : List ℕ) (most : ℕ) (map : List V) (maps : List (List V)) (before after : List Event) (fault : FileFault) →
        StopsRewriting V.seen V.Key.cmp path most map maps before after fault → AreOf V.seen V.Key.cmp path most (Rewrite maps) before after }
{}

/// States that a state keeps a version, or a greater one of its key, as it takes others and is swept, unless the one that it
/// had has expired.
pub fn a_state_keeps_what_it_has<V: Version>()
    ensures joined { (state other joined : List V) (v : V) → IsMap V.seen V.Key.cmp state →
        IsJoin V.seen V.Key.cmp state other joined → HasAtLeast V.seen v state → HasAtLeast V.seen v joined }
    ensures swept { (now : ℕ) (state : List V) (v : V) (has : HasAtLeast V.seen v state) →
        IsLive now (V.seen has.version) → HasAtLeast V.seen v (swept V.seen now state) }
{}
