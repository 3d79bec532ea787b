//! Compaction of the files of a member that keeps logs: they are written anew while it serves, a stage in a turn of the loop, one
//! file at a time.

ghost use Rattle.std.specs.Prelude.{◌≡◌};
ghost use Rattle.am_store.specs.Appending.{log_of};
ghost use Rattle.am_backend.specs.Stores.{store_of};

use crate::system_backend::{SystemBackend, sooner};
use am_diagnostics::Fault;
use am_instance::{Config, Instance};
use am_metrics::SavedState;
use am_nflog::LogKey;
use am_store::{Compaction, FileFault, compact};
use am_wire::Text;
use std::fs::File;
use std::mem;
use std::rt::{Clock, Files};
use std::time::{Duration, Instant};

/// The least time in milliseconds after which a compaction that failed is begun again.
const AGAIN_AFTER: u64 = 1_000;

/// The wish to write a file anew, and the time from which that may begin.
#[derive(Clone, Copy)]
struct Want {
    is_wanted: bool,
    /// The moment before which it isn't begun, since it failed.
    not_before: Option<Instant>,
}

/// The file that is being written anew.
#[derive(Drop)]
enum CompactionWork {
    Nothing,
    Silences(Compaction<Text>),
    Log(Compaction<LogKey>),
}

/// The files that are to be written anew, and the one that is.
#[derive(Drop)]
pub struct Compacting {
    silences: Want,
    log: Want,
    work: CompactionWork,
}

impl Want {
    /// Returns a file that isn't to be written anew.
    fn none() -> Want {
        Want {
            is_wanted: false,
            not_before: None,
        }
    }

    /// Returns the time until the file is to be begun, if it is wanted.
    fn left(&self, now: Instant) -> Option<Duration> {
        if !self.is_wanted {
            return None;
        }
        match self.not_before {
            Some(moment) => Some(moment.saturating_duration_since(now)),
            None => Some(Duration::ZERO),
        }
    }

    /// Returns whether the file is to be begun. If so, it is no longer wanted.
    fn begins(&mut self, now: Instant) -> bool {
        let begins = self.left(now) == Some(Duration::ZERO);
        if begins {
            self.is_wanted = false;
        }
        begins
    }

    /// Notes that it failed: it is wanted again, but not before a second is over.
    fn fails(&mut self, now: Instant) {
        self.is_wanted = true;
        self.not_before = now.checked_add(Duration::from_millis(AGAIN_AFTER));
    }
}

impl Compacting {
    /// Returns a state in which no file is written anew, or wanted.
    pub fn new() -> Compacting {
        Compacting {
            silences: Want::none(),
            log: Want::none(),
            work: CompactionWork::Nothing,
        }
    }

    /// Sets the file that is written anew from now on.
    fn resume(&mut self, work: CompactionWork) {
        self.work = work;
    }

    /// Returns the time until something is to be done.
    pub(crate) fn left(&self, now: Instant) -> Option<Duration> {
        match self.work {
            CompactionWork::Nothing => sooner(self.silences.left(now), self.log.left(now)),
            CompactionWork::Silences(_) | CompactionWork::Log(_) => Some(Duration::ZERO),
        }
    }
}

impl<R> SystemBackend<'_, R> {
    /// Has both files written anew.
    pub(crate) fn want_both(&mut self)
        ensures store { store_of self.new ≡ store_of self.old }
        ensures queue { self.new.queue ≡ self.old.queue }
        ensures lock { self.new.lock ≡ self.old.lock }
    {
        self.compacting.silences.is_wanted = true;
        self.compacting.log.is_wanted = true;
        self.is_changed = false;
    }

    /// Has each file written anew whose log has outgrown it.
    pub(crate) fn want_outgrown(&mut self)
        ensures store { store_of self.new ≡ store_of self.old }
        ensures queue { self.new.queue ≡ self.old.queue }
        ensures lock { self.new.lock ≡ self.old.lock }
    {
        self.compacting.silences.is_wanted |= self.silences.is_outgrown();
        self.compacting.log.is_wanted |= self.log.is_outgrown();
    }
}

impl<R: Files<File = File> + AllocGlobal> SystemBackend<'_, R> {
    /// Gives up writing files anew, since both are saved.
    pub(crate) fn give_up_compaction(&mut self)
        ensures commit_state { self.new.commit_state ≡ self.old.commit_state }
        ensures silences { log_of self.new.silences ≡ log_of self.old.silences }
        ensures log { log_of self.new.log ≡ log_of self.old.log }
        ensures queue { self.new.queue ≡ self.old.queue }
        ensures lock { self.new.lock ≡ self.old.lock }
    {
        match self.compacting.work {
            CompactionWork::Nothing => {}
            CompactionWork::Silences(_) => self.silences.drop_new(self.rt),
            CompactionWork::Log(_) => self.log.drop_new(self.rt),
        }
        self.compacting = Compacting::new();
    }
}

impl<R: Clock + Eprint> SystemBackend<'_, R> {
    /// Tells why the silences aren't written anew. If the log of their rows isn't trusted any more, that lacks what comes.
    fn fail_silences(&mut self, config: &Config, fault: FileFault, now: Instant)
        ensures queue { self.new.queue ≡ self.old.queue }
        ensures lock { self.new.lock ≡ self.old.lock }
    {
        self.compacting.silences.fails(now);
        self.count_save_failed(SavedState::Silences);
        self.tell_uncompacted(config, Fault::Silences(fault));
        if !self.silences.is_trusted() {
            self.commit_state.lose();
        }
    }

    /// Tells why the notification log isn't written anew. If the log of its rows isn't trusted any more, that lacks what comes.
    fn fail_log(&mut self, config: &Config, fault: FileFault, now: Instant)
        ensures queue { self.new.queue ≡ self.old.queue }
        ensures lock { self.new.lock ≡ self.old.lock }
    {
        self.compacting.log.fails(now);
        self.count_save_failed(SavedState::Log);
        self.tell_uncompacted(config, Fault::Log(fault));
        if !self.log.is_trusted() {
            self.commit_state.lose();
        }
    }

    /// Tells why a file isn't written anew, and notes that both are to be saved.
    fn tell_uncompacted(&mut self, config: &Config, fault: Fault)
        ensures queue { self.new.queue ≡ self.old.queue }
        ensures lock { self.new.lock ≡ self.old.lock }
    {
        self.is_changed = true;
        self.tell(config, fault);
    }
}

impl<R: AllocGlobal + Clock + Eprint + Files<File = File>> SystemBackend<'_, R> {
    /// Does the next stage of the file that is being written anew.
    pub(crate) fn compact_on(&mut self, instance: &Instance, now: Instant)
        ensures queue { self.new.queue ≡ self.old.queue }
        ensures lock { self.new.lock ≡ self.old.lock }
    {
        match mem::replace(&mut self.compacting.work, CompactionWork::Nothing) {
            CompactionWork::Nothing => self.begin_compaction(instance, now),
            CompactionWork::Silences(left) => self.compact_silences(instance, left, now),
            CompactionWork::Log(left) => self.compact_log(instance, left, now),
        }
    }

    /// Begins to write a file anew that is wanted: the silences first.
    fn begin_compaction(&mut self, instance: &Instance, now: Instant)
        ensures queue { self.new.queue ≡ self.old.queue }
        ensures lock { self.new.lock ≡ self.old.lock }
    {
        if self.compacting.silences.begins(now) {
            self.begin_silences(instance, now);
        } else if self.compacting.log.begins(now) {
            self.begin_log(instance, now);
        }
    }

    fn begin_silences(&mut self, instance: &Instance, now: Instant)
        ensures queue { self.new.queue ≡ self.old.queue }
        ensures lock { self.new.lock ≡ self.old.lock }
    {
        self.count_save_begun(SavedState::Silences);
        let most = self.options.most_bytes;
        match self.silences.part_logs(self.rt, instance.silences(), most) {
            Ok(bytes) => {
                self.silences_room.is_counted(bytes);
                self.compacting
                    .resume(CompactionWork::Silences(Compaction::new()));
            }
            Err(fault) => self.fail_silences(instance.config(), fault, now),
        }
    }

    fn begin_log(&mut self, instance: &Instance, now: Instant)
        ensures queue { self.new.queue ≡ self.old.queue }
        ensures lock { self.new.lock ≡ self.old.lock }
    {
        self.count_save_begun(SavedState::Log);
        let most = self.options.most_bytes;
        match self.log.part_logs(self.rt, instance.log(), most) {
            Ok(bytes) => {
                self.log_room.is_counted(bytes);
                self.compacting
                    .resume(CompactionWork::Log(Compaction::new()));
            }
            Err(fault) => self.fail_log(instance.config(), fault, now),
        }
    }

    fn compact_silences(&mut self, instance: &Instance, mut left: Compaction<Text>, now: Instant)
        ensures queue { self.new.queue ≡ self.old.queue }
        ensures lock { self.new.lock ≡ self.old.lock }
    {
        let most = self.options.most_bytes;
        let held = instance.silences();
        match compact(self.rt, &mut self.silences, &mut left, held, most) {
            Ok(true) => self.compacting.resume(CompactionWork::Silences(left)),
            Ok(false) => self.count_save_done(SavedState::Silences),
            Err(fault) => self.fail_silences(instance.config(), fault, now),
        }
    }

    fn compact_log(&mut self, instance: &Instance, mut left: Compaction<LogKey>, now: Instant)
        ensures queue { self.new.queue ≡ self.old.queue }
        ensures lock { self.new.lock ≡ self.old.lock }
    {
        let most = self.options.most_bytes;
        let held = instance.log();
        match compact(self.rt, &mut self.log, &mut left, held, most) {
            Ok(true) => self.compacting.resume(CompactionWork::Log(left)),
            Ok(false) => self.count_save_done(SavedState::Log),
            Err(fault) => self.fail_log(instance.config(), fault, now),
        }
    }
}
