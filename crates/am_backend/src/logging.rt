//! The log of what a member has taken, on the disk before it is answered.
//!
//! The disk is told as a peer is: it has a name of its own, after those of all members, so each version that changes a map is
//! sent to it too, and what is sent to it goes into the logs.

ghost use Rattle.std.specs.Prelude.{◌≡◌, [], ◌∷◌, is_some, true, IfSome};
ghost use Rattle.am_gossip.specs.declared.frame.StateKey.TheVariants.{Sil, Nfl};
ghost use Rattle.am_store.specs.Appending.{log_of};
ghost use Rattle.am_peers.specs.Queues.{frames_beside, frames_for};
ghost use Rattle.am_backend.specs.CommitStates.{disk_of, keeps_logs};
ghost use Rattle.am_backend.specs.Outbound.{for_peers, outbound_of};
ghost use Rattle.am_backend.specs.Stores.{AreLogged, GoesOn, HasCommitted, IsLogged, lost_if, rows_if, store_of};

use crate::system_backend::SystemBackend;
use am_diagnostics::Fault;
use am_gossip::{Frame, Part, StateKey};
use am_instance::{Config, Place};
use std::rt::Clock;

/// Removes the frames for a place.
fn drop_frames_for(frames: &mut Vec<(Place, Frame)>, place: Place)
    ensures { frames.new.items ≡ frames_beside place frames.old.items }
{
    frames.retain(|queued| queued.0 != place);
}

impl<R: Clock + Eprint> SystemBackend<'_, R> {
    /// Tells why the logs lack something, if they do.
    pub(crate) fn tell_behind(&mut self, config: &Config, fault: Option<Fault>)
        ensures store { store_of self.new ≡ lost_if (is_some fault) (store_of self.old) }
        ensures outbound { outbound_of self.new ≡ outbound_of self.old }
        ensures queue { self.new.queue ≡ self.old.queue }
        ensures lock { self.new.lock ≡ self.old.lock }
    {
        if let Some(fault) = fault {
            self.commit_state.lose();
            self.tell(config, fault);
        }
    }
}

impl<R: AllocGlobal + Clock + Eprint> SystemBackend<'_, R> {
    /// Puts the frames for the disk into the logs, and returns those for peers. Nothing is allocated for these.
    pub(crate) fn log_frames(
        &mut self,
        config: &Config,
        frames: Vec<(Place, Frame)>,
    ) -> Vec<(Place, Frame)>
        ensures peers { result.items ≡ for_peers (disk_of self.old.commit_state) frames.items }
        ensures outbound { outbound_of self.new ≡ outbound_of self.old }
        ensures logged { IfSome (disk_of self.old.commit_state) (λ disk. IsLogged (frames_for disk frames.items) (store_of self.old) (store_of self.new)) }
        ensures goes_on { GoesOn self.old.commit_state self.new.commit_state }
        ensures lock { self.new.lock ≡ self.old.lock }
    {
        let Some(disk) = self.commit_state.disk() else {
            return frames;
        };
        let mut frames = frames;
        for queued in &frames {
            self.log_queued(config, disk, queued);
        }
        drop_frames_for(&mut frames, disk);
        frames
    }

    /// Puts the version of a frame into the log of its state if the frame is for the disk.
    fn log_queued(&mut self, config: &Config, disk: Place, queued: &(Place, Frame))
        ensures logged { IsLogged (frames_for disk (queued.now ∷ [])) (store_of self.old) (store_of self.new) }
        ensures outbound { outbound_of self.new ≡ outbound_of self.old }
        ensures lock { self.new.lock ≡ self.old.lock }
    {
        if queued.0 == disk {
            self.log_frame(config, &queued.1);
        }
    }

    /// Puts a version into the log of its state.
    fn log_frame(&mut self, config: &Config, frame: &Frame)
        ensures logged { IsLogged (frame.now ∷ []) (store_of self.old) (store_of self.new) }
        ensures outbound { outbound_of self.new ≡ outbound_of self.old }
        ensures lock { self.new.lock ≡ self.old.lock }
    {
        if let Frame::Delta(part) = frame {
            self.commit_state.add();
            self.log_part(config, part);
        }
    }

    /// Puts rows into the log of their state. If that fails, it is told, and the logs lack something.
    fn log_part(&mut self, config: &Config, part: &Part)
        ensures rows { keeps_logs self.old.commit_state ≡ true → AreLogged (rows_if Sil part.now.key part.now.bytes) (rows_if Nfl part.now.key part.now.bytes)
            (store_of self.old) (store_of self.new) }
        ensures goes_on { GoesOn self.old.commit_state self.new.commit_state }
        ensures outbound { outbound_of self.new ≡ outbound_of self.old }
        ensures lock { self.new.lock ≡ self.old.lock }
    {
        let alloc = self.rt.alloc();
        let rows = part.bytes.as_slice();
        let failed = match part.key {
            StateKey::Sil => self.silences.append(alloc, rows).err().map(Fault::Silences),
            StateKey::Nfl => self.log.append(alloc, rows).err().map(Fault::Log),
        };
        self.tell_behind(config, failed);
    }
    /// Hands the rows of silences that wait to the disk. If that fails, it is told, and the logs lack something.
    pub(crate) fn commit_silences(&mut self, config: &Config)
        ensures committed { HasCommitted self.old.commit_state self.new.commit_state (log_of self.old.silences) (log_of self.old.log) (log_of self.new.silences) (log_of self.new.log) }
        ensures queue { self.new.queue ≡ self.old.queue }
        ensures lock { self.new.lock ≡ self.old.lock }
    {
        let committed = self.silences.commit(self.rt.alloc());
        self.tell_behind(config, committed.err().map(Fault::Silences));
    }

    /// Hands the rows of the log that wait to the disk. If that fails, it is told, and the logs lack something.
    pub(crate) fn commit_log(&mut self, config: &Config)
        ensures committed { HasCommitted self.old.commit_state self.new.commit_state (log_of self.old.log) (log_of self.old.silences) (log_of self.new.log) (log_of self.new.silences) }
        ensures queue { self.new.queue ≡ self.old.queue }
        ensures lock { self.new.lock ≡ self.old.lock }
    {
        let committed = self.log.commit(self.rt.alloc());
        self.tell_behind(config, committed.err().map(Fault::Log));
    }
}
