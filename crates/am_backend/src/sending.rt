//! The frames that wait for peers.

ghost use Rattle.std.specs.Prelude.{◌≡◌, ◌⊎◌, IfSome, length};
ghost use Rattle.am_peers.specs.Queues.{frames_for};
ghost use Rattle.am_backend.specs.CommitStates.{disk_of};
ghost use Rattle.am_backend.specs.Outbound.{IsEncodingFor, for_peers, left_out, outbound_of, with_queued};
ghost use Rattle.am_backend.specs.Stores.{GoesOn, IsLogged, store_of};

use crate::system_backend::SystemBackend;
use am_diagnostics::{Diagnostic, Fault};
use am_gossip::Frame;
use am_instance::{Config, Place};
use am_options::Options;
use am_peer_auth::{Lock, Secret, Sequence, sealed_encoding};
use am_peers::frames_encoding;
use std::rt::Clock;

/// Returns the lock by which members of a cluster know one another: the secret, if they have one, and the name of this one.
pub fn lock_of<'a>(options: &Options<'a>, secret: &'a Option<Secret>) -> Option<Lock<'a>> {
    match secret {
        Some(secret) => Some(Lock {
            secret: secret.bytes.as_slice(),
            name: options.name,
        }),
        None => None,
    }
}

impl<R: AllocGlobal> SystemBackend<'_, R> {
    /// Returns the bytes of frames for a peer, sealed from a place in its connection on if members have a secret: then there
    /// are none without a place. If there is no memory for them, there are none.
    pub(crate) fn bytes_for(
        &self,
        config: &Config,
        peer: Place,
        from: Option<Sequence>,
        frames: &[Frame],
    ) -> Option<Vec<u8>>
        ensures { IfSome result (λ bytes. IsEncodingFor self.now.lock config.now peer from frames.now bytes.items) }
    {
        let alloc = self.rt.alloc();
        let Some(lock) = self.lock else {
            return frames_encoding(alloc, frames).ok();
        };
        let name = config.members().get(peer as usize)?;
        match sealed_encoding(alloc, lock, name.as_str(), from?, frames) {
            Ok(sealed) => Some(sealed.encoding),
            Err(_) => None,
        }
    }
}

impl<R: AllocGlobal + Clock + Eprint> SystemBackend<'_, R> {
    /// Has frames wait to be handed out.
    pub(crate) fn queue_frames(&mut self, config: &Config, frames: Vec<(Place, Frame)>)
        ensures logged { IfSome (disk_of self.old.commit_state) (λ disk. IsLogged (frames_for disk frames.items) (store_of self.old) (store_of self.new)) }
        ensures goes_on { GoesOn self.old.commit_state self.new.commit_state }
        ensures queued { let peers = for_peers (disk_of self.old.commit_state) frames.items in
            (outbound_of self.new ≡ with_queued peers (outbound_of self.old)) ⊎ (outbound_of self.new ≡ left_out (length peers) (outbound_of self.old)) }
        ensures lock { self.new.lock ≡ self.old.lock }
    {
        let mut frames = self.log_frames(config, frames);
        if self.queue.append(&mut frames).is_err() {
            self.tell_left_out(config, None, frames.len());
        }
    }

    /// Counts frames that aren't sent for want of memory, and prints how many.
    pub(crate) fn tell_left_out(&mut self, config: &Config, peer: Option<Place>, count: usize)
        ensures store { store_of self.new ≡ store_of self.old }
        ensures outbound { outbound_of self.new ≡ left_out count (outbound_of self.old) }
        ensures lock { self.new.lock ≡ self.old.lock }
    {
        let unsent = self.figures.unsent_memory;
        self.figures.unsent_memory = unsent.saturating_add(count as u64);
        let fault = Fault::UnsentMemory(count);
        self.lines
            .tell(self.rt, config.members(), Diagnostic { fault, peer });
    }
}
