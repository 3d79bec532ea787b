//! The saves of both states while everybody waits, and when they are made.

ghost use Rattle.std.specs.Prelude.{◌≡◌, IfNone};
ghost use Rattle.am_nflog.specs.Mesh.{mesh_version as entry_version};
ghost use Rattle.am_silence.specs.Mesh.{mesh_version};
ghost use Rattle.am_snapshot.specs.Encodings.{row_encoding};
ghost use Rattle.am_store.specs.Appending.{IsBegunAnew, log_of};
ghost use Rattle.am_backend.specs.CommitStates.{disk_of};
ghost use Rattle.am_backend.specs.Stores.{HasSaved, HoldsRow, MaySave, saved_file, store_of};

use crate::system_backend::SystemBackend;
use am_diagnostics::Fault;
use am_instance::Instance;
use am_metrics::SavedState;
use std::fs::File;
use std::rt::{Clock, Files};
use std::time::Instant;

impl<R: AllocGlobal + Clock + Eprint + Files<File = File>> SystemBackend<'_, R> {
    /// Saves the silences, and then the log, while everybody waits. Returns the first fault; each is told.
    pub(crate) fn save(&mut self, instance: &Instance) -> Option<Fault>
        ensures saved { HasSaved instance.now result (store_of self.old) (store_of self.new) }
        ensures disk { disk_of self.new.commit_state ≡ disk_of self.old.commit_state }
        ensures queue { self.new.queue ≡ self.old.queue }
        ensures lock { self.new.lock ≡ self.old.lock }
    {
        self.give_up_compaction();
        let silences = self.save_silences(instance);
        let log = self.save_log(instance);
        match silences.or(log) {
            None => {
                self.is_changed = false;
                self.commit_state.is_saved();
                None
            }
            Some(fault) => {
                self.is_changed = true;
                Some(fault)
            }
        }
    }

    /// Saves the silences, and returns the reason why they are not saved, if they aren't, which is told.
    fn save_silences(&mut self, instance: &Instance) -> Option<Fault>
        ensures saved { IfNone result (HoldsRow (row_encoding mesh_version instance.now.silences) (log_of self.new.silences) (saved_file self.new.silences)) }
        ensures anew { IfNone result (IsBegunAnew (log_of self.new.silences)) }
        ensures commit_state { self.new.commit_state ≡ self.old.commit_state }
        ensures log { log_of self.new.log ≡ log_of self.old.log }
        ensures log_file { saved_file self.new.log ≡ saved_file self.old.log }
        ensures queue { self.new.queue ≡ self.old.queue }
        ensures lock { self.new.lock ≡ self.old.lock }
    {
        let most = self.options.most_bytes;
        self.count_save_begun(SavedState::Silences);
        match self.silences.save(self.rt, instance.silences(), most) {
            Ok(bytes) => {
                self.count_save_done(SavedState::Silences);
                self.silences_room.is_counted(bytes);
                None
            }
            Err(fault) => {
                self.count_save_failed(SavedState::Silences);
                self.tell(instance.config(), Fault::Silences(fault));
                Some(Fault::Silences(fault))
            }
        }
    }

    /// Saves the log, and returns the reason why it is not saved, if it isn't, which is told.
    fn save_log(&mut self, instance: &Instance) -> Option<Fault>
        ensures saved { IfNone result (HoldsRow (row_encoding entry_version instance.now.log) (log_of self.new.log) (saved_file self.new.log)) }
        ensures anew { IfNone result (IsBegunAnew (log_of self.new.log)) }
        ensures commit_state { self.new.commit_state ≡ self.old.commit_state }
        ensures silences { log_of self.new.silences ≡ log_of self.old.silences }
        ensures silences_file { saved_file self.new.silences ≡ saved_file self.old.silences }
        ensures queue { self.new.queue ≡ self.old.queue }
        ensures lock { self.new.lock ≡ self.old.lock }
    {
        let most = self.options.most_bytes;
        self.count_save_begun(SavedState::Log);
        match self.log.save(self.rt, instance.log(), most) {
            Ok(bytes) => {
                self.count_save_done(SavedState::Log);
                self.log_room.is_counted(bytes);
                None
            }
            Err(fault) => {
                self.count_save_failed(SavedState::Log);
                self.tell(instance.config(), Fault::Log(fault));
                Some(Fault::Log(fault))
            }
        }
    }

    /// Saves both states: at once or, if logs are kept, after the duties and while the member serves.
    pub(crate) fn save_in_turn(&mut self, instance: &Instance)
        ensures disk { disk_of self.new.commit_state ≡ disk_of self.old.commit_state }
        ensures queue { self.new.queue ≡ self.old.queue }
        ensures lock { self.new.lock ≡ self.old.lock }
    {
        if self.commit_state.is_on() {
            self.want_both();
        } else {
            self.save(instance);
        }
    }

    /// Saves both states if the logs lack something, unless the last such save was less than a second ago.
    pub(crate) fn save_behind(&mut self, instance: &Instance)
        ensures saved { MaySave instance.now (store_of self.old) (store_of self.new) }
        ensures queue { self.new.queue ≡ self.old.queue }
        ensures lock { self.new.lock ≡ self.old.lock }
    {
        if !self.commit_state.is_behind() {
            return;
        }
        let Ok(now) = Instant::now(self.rt) else {
            return;
        };
        if !self.commit_state.may_save(now) {
            return;
        }
        self.save(instance);
    }
}
