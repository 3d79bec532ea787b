//! The stages of writing a file anew, in their order.

use std::fs::File;

/// A new file beside the one that is written anew, as far as it is written.
#[derive(Drop)]
pub struct NewFile<F> {
    /// Its path.
    pub name: String,
    pub file: F,
    /// The number of bytes written to it.
    pub written: u64,
}

/// A new file that is whole and on the disk.
#[derive(Drop)]
pub struct WholeNewFile {
    /// Its path.
    pub name: String,
    /// The number of its bytes.
    pub written: u64,
}

/// The next stage of a compaction.
#[derive(Drop)]
pub enum CompactionStage<K, F> {
    /// The bytes of files that lost their names the last time are given back.
    GiveBack,
    /// The new file is made.
    Make,
    /// The versions from a key on, or all of them, are written into the new file.
    Write(NewFile<F>, Option<K>),
    /// The new file has everything, and is synced to the disk.
    HandOver(NewFile<F>),
    /// The new file takes the place of the old one.
    Rename(WholeNewFile),
    /// The directory is synced to the disk, without a name for the file that was replaced.
    Settle(Option<File>),
    /// The old log is removed.
    EndLog,
    /// The directory is synced to the disk, without a name for the old log.
    SettleEnd(Option<File>),
    /// Nothing is left to do.
    Done,
}
