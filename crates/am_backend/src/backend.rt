//! The backend of a member, as those who make its steps see it.

ghost use Rattle.std.specs.Prelude.{◌≡◌, ◌≤◌, ◌↔◌, [], length, Option, is_some, IfNone, IfSome, IsTrue, Result};
ghost use Rattle.am_instance.specs.OneStep.{IsStep};
ghost use Rattle.am_instance.specs.declared.event.Event.TheVariants as events;
ghost use Rattle.am_instance.specs.declared.reply.Outcome.{Outcome};
ghost use Rattle.am_gossip.specs.declared.refusals.StepError.{StepError};
ghost use Rattle.am_instance.specs.Sendings.{Sent};
ghost use Rattle.am_peer_auth.specs.declared.seal.Lock.{Lock};
ghost use Rattle.am_backend.specs.CommitStates.{disk_of};
ghost use Rattle.am_backend.specs.Outbound.{AreGone, IsQueued, IsTaken, IsEncodingFor, left_out, outbound_of};
ghost use Rattle.am_backend.specs.Stores.{IsFollowed, IsKept, Store, store_of as backend_store};

use crate::commit_state::CommitState;
use crate::counting::{Counted, cause_of, count, count_handed};
use crate::system_backend::SystemBackend;
use am_diagnostics::{Diagnostic, Fault, TickVerdict, signals};
use am_gossip::Frame;
use am_instance::{Config, Event, FrameSender, Instance, Place};
use am_metrics::{Metrics, StepLabel};
use am_options::{Options, Process};
use am_peer_auth::Sequence;
use am_peers::{ConnectionFault, SplitQueue, split_by_peer};
use am_reactor::LinkFault;
use am_version_order::Moment;
use std::fs::File;
use std::mem;
use std::rt::{Clock, Files};
use std::time::{Duration, Instant};

/// The most bytes by which a silence grows when it ends.
const FOR_AN_END: u64 = 64;

/// Returns the most bytes by which this many silences and one more may grow when they end.
fn bytes_for_ends(silences: usize) -> u64 {
    FOR_AN_END.saturating_mul((silences as u64).saturating_add(1))
}

/// The size of what comes: a request, frames or a notice.
#[derive(Clone, Copy)]
pub struct Incoming {
    /// The most bytes that it adds to the silences.
    pub silences: u64,
    /// The most bytes that it adds to the log.
    pub log: u64,
    /// True if it may change what is held.
    pub may_change: bool,
}

/// The backend of a member: its files and logs, the lines that it prints, what it counts, and the frames that wait for peers.
/// Whoever makes the steps of a member relies on this trait alone.
pub trait Backend {
    /// The store: the state of what is to be on the disk, and the rows of the logs.
    ghost store_of: { Self → Store };

    /// The frames that wait for peers, each with the place of its peer, and the numbers of those that aren't sent.
    ghost outbound: { Self → Sent };

    /// The lock by which frames are sealed, if members have a secret.
    ghost sealed_by: { Self → Option Lock };

    /// Returns the options that the member was started with.
    fn options(&self) -> &Options<'_>;

    /// Returns the moment of the monotonic clock, if it can be read.
    fn now(&self) -> Option<Instant>;

    /// Returns what the clock says, as the time since 1970, or 0 if it can't be read.
    fn since_1970(&self) -> Duration;

    /// Returns the moment of the next event; `last` is that of the last one.
    fn next_moment(&self, last: Moment) -> Moment
        ensures { last ≤ result };

    /// Returns whether the process is told to end.
    fn is_told_to_end(&self) -> bool;

    /// Returns the resources that the process takes.
    fn process(&self) -> Process;

    /// Adds to the figures what happened, beside what is sent.
    fn count(&mut self, counted: Counted<'_>)
        ensures store { store_of self.new ≡ store_of self.old }
        ensures outbound { outbound self.new ≡ outbound self.old }
        ensures lock { sealed_by self.new ≡ sealed_by self.old };

    /// Returns the figures.
    fn counted(&self) -> &Metrics;

    /// Returns the state of what is to be on the disk.
    fn commit_state(&self) -> CommitState
        ensures { result ≡ (store_of self.now).commit_state };

    /// Notes what comes.
    fn take(&mut self, incoming: Incoming)
        ensures store { store_of self.new ≡ store_of self.old }
        ensures outbound { outbound self.new ≡ outbound self.old }
        ensures lock { sealed_by self.new ≡ sealed_by self.old };

    /// Returns whether there is room for `post` bytes of a post, and for the ends of all silences. If there doesn't seem to be,
    /// the silences are counted anew, once a second.
    fn has_room_for_post(&mut self, instance: &Instance, post: u64) -> bool
        ensures store { store_of self.new ≡ store_of self.old }
        ensures outbound { outbound self.new ≡ outbound self.old }
        ensures lock { sealed_by self.new ≡ sealed_by self.old };

    /// Returns whether the log has room for `notice` bytes of a notice. If it doesn't seem to, it is counted anew, once a
    /// second.
    fn has_room_for_notice(&mut self, instance: &Instance, notice: u64) -> bool
        ensures store { store_of self.new ≡ store_of self.old }
        ensures outbound { outbound self.new ≡ outbound self.old }
        ensures lock { sealed_by self.new ≡ sealed_by self.old };

    /// Returns the moment of a Tick after the last event, unless that is too far ahead of the time that has passed, and the
    /// clock isn't trusted.
    fn moment_of_tick(&self, last: Moment) -> Option<Moment>
        ensures { IfSome result (λ moment. last ≤ moment) };

    /// Drops what has expired at a moment, and saves both states.
    fn tick(&mut self, instance: &mut Instance, moment: Moment)
        ensures step { (answer : Result Outcome StepError) × IsStep instance.old events.Tick moment answer instance.new }
        ensures disk { disk_of (store_of self.new).commit_state ≡ disk_of (store_of self.old).commit_state }
        ensures queue { (outbound self.new).frames ≡ (outbound self.old).frames }
        ensures lock { sealed_by self.new ≡ sealed_by self.old };

    /// Saves both states, if something may have changed since the last save: when a save is due, and at the start, if a log
    /// stands that is to go. Without logs that is before anything comes: what ended a version that such a log has would be in
    /// no log, and could have gone before the log does.
    fn save_owed(&mut self, instance: &Instance)
        ensures disk { disk_of (store_of self.new).commit_state ≡ disk_of (store_of self.old).commit_state }
        ensures queue { (outbound self.new).frames ≡ (outbound self.old).frames }
        ensures lock { sealed_by self.new ≡ sealed_by self.old };

    /// Makes sure of what was done so far: it is in the logs or, if they lack something, in the files.
    fn keep(&mut self, instance: &Instance)
        // PROMISE: With logs, a commit has kept everything only if both logs have all their rows on the disk and lacked nothing, or both states were saved, each whole and in its own file.
        ensures kept { IsKept instance.now (store_of self.old) (store_of self.new) }
        ensures queue { (outbound self.new).frames ≡ (outbound self.old).frames }
        ensures lock { sealed_by self.new ≡ sealed_by self.old };

    /// Does the next stage of the file that is being written anew, if the logs lack nothing, and returns the time until the
    /// next one.
    fn compact(&mut self, instance: &Instance, now: Instant) -> Option<Duration>
        ensures queue { (outbound self.new).frames ≡ (outbound self.old).frames }
        ensures lock { sealed_by self.new ≡ sealed_by self.old };

    /// Tells that the clock is behind the moment of the last event, and that it no longer is; and that it went far ahead,
    /// unless it is trusted.
    fn look_at_clock(&mut self, instance: &Instance, now: Instant)
        ensures store { store_of self.new ≡ store_of self.old }
        ensures outbound { outbound self.new ≡ outbound self.old }
        ensures lock { sealed_by self.new ≡ sealed_by self.old };

    /// Returns whether there is room for a line.
    fn has_room_for_line(&mut self) -> bool
        ensures store { store_of self.new ≡ store_of self.old }
        ensures outbound { outbound self.new ≡ outbound self.old }
        ensures lock { sealed_by self.new ≡ sealed_by self.old };

    /// Prints how many bytes were cut off from the logs, if any were.
    fn tell_torn(&mut self, config: &Config)
        ensures store { store_of self.new ≡ store_of self.old }
        ensures outbound { outbound self.new ≡ outbound self.old }
        ensures lock { sealed_by self.new ≡ sealed_by self.old };

    /// Prints a fault that is about a peer, if its place is known.
    fn tell_of(&mut self, config: &Config, peer: Option<Place>, fault: Fault)
        ensures store { store_of self.new ≡ store_of self.old }
        ensures outbound { outbound self.new ≡ outbound self.old }
        ensures lock { sealed_by self.new ≡ sealed_by self.old };

    /// Prints how many lines were left out of each kind for which that is due.
    fn settle_due_lines(&mut self, config: &Config, now: Instant)
        ensures store { store_of self.new ≡ store_of self.old }
        ensures outbound { outbound self.new ≡ outbound self.old }
        ensures lock { sealed_by self.new ≡ sealed_by self.old };

    /// Returns the time until that is due for a kind.
    fn lines_left(&self, now: Instant) -> Option<Duration>;

    /// Follows up the steps of a connection, perhaps of a peer: sends their frames, and tells why no more is heard of it.
    fn follow(
        &mut self,
        config: &Config,
        peer: Option<Place>,
        outbox: FrameSender,
        fault: Option<ConnectionFault>,
    )
        // PROMISE: With logs, each version that a step sends to the place of the disk is added to the log of its state, or the logs are known to lack it; and the next commit is due.
        ensures followed { IsFollowed outbox (store_of self.old) (store_of self.new) }
        // PROMISE: What a step sends to peers waits behind what waited before, in order, or memory ran out, and just those frames are counted as not sent.
        ensures queued { IsQueued (disk_of (store_of self.old).commit_state) outbox (outbound self.old) (outbound self.new) }
        ensures lock { sealed_by self.new ≡ sealed_by self.old };

    /// Returns whether no frame waits.
    fn sends_nothing(&self) -> bool
        ensures { IsTrue result ↔ ((outbound self.now).frames ≡ []) };

    /// Takes out the frames that wait for the peer of the first of them, with its place. If there is no memory for that, all
    /// that wait are told unsent.
    fn next_frames(&mut self, config: &Config) -> Option<(Place, Vec<Frame>)>
        // PROMISE: The frames that wait for a peer are taken out at once, in order, and those for others wait on.
        ensures taken { IfSome result (λ taken. IsTaken taken.0 taken.1.items (outbound self.old) (outbound self.new)) }
        ensures gone { IfNone result (AreGone (outbound self.old) (outbound self.new)) }
        ensures lock { sealed_by self.new ≡ sealed_by self.old };

    /// Returns whether members have a secret, so that frames go out sealed.
    fn is_sealed(&self) -> bool
        ensures { result ≡ is_some (sealed_by self.now) };

    /// Returns the encoding of frames for a peer, sealed from a place in its connection on if members have a secret. If there is
    /// none, the frames are told unsent.
    fn encoding_of(
        &mut self,
        config: &Config,
        peer: Place,
        from: Option<Sequence>,
        frames: &[Frame],
    ) -> Option<Vec<u8>>
        // PROMISE: The bytes for a peer are the encoding of just the frames that go to it, in order, or what is sealed for its name.
        ensures encoding { IfSome result (λ bytes. IsEncodingFor (sealed_by self.old) config.now peer from frames.now bytes.items) }
        ensures queue { (outbound self.new).frames ≡ (outbound self.old).frames }
        ensures unsent { IfNone result (outbound self.new ≡ left_out (length frames.now) (outbound self.old)) }
        ensures lock { sealed_by self.new ≡ sealed_by self.old };

    /// Counts frames that aren't sent for want of memory, and prints how many.
    fn leave_out(&mut self, config: &Config, peer: Option<Place>, count: usize)
        ensures outbound { outbound self.new ≡ left_out count (outbound self.old) }
        ensures lock { sealed_by self.new ≡ sealed_by self.old };

    /// Counts the frames of a lost link to a peer, this many of which are dropped before they are sealed.
    fn drop_frames(&mut self, peer: usize, count: usize, fault: LinkFault)
        ensures outbound { outbound self.new ≡ outbound self.old }
        ensures lock { sealed_by self.new ≡ sealed_by self.old };

    /// Counts that everything has gone out that was given for the link to a peer.
    fn count_all_out(&mut self, peer: usize)
        ensures outbound { outbound self.new ≡ outbound self.old }
        ensures lock { sealed_by self.new ≡ sealed_by self.old };

    /// Saves both states, now that nobody is served any more, be it because the listener failed. Returns the fault with which
    /// the member ends: that of the listener, or else the reason why a state isn't saved, which is told.
    fn end(&mut self, instance: &Instance, failed: Option<Fault>) -> Option<Fault>
        ensures queue { (outbound self.new).frames ≡ (outbound self.old).frames }
        ensures lock { sealed_by self.new ≡ sealed_by self.old };
}

impl<R: AllocGlobal + Clock + Eprint + Files<File = File>> Backend for SystemBackend<'_, R> {
    ghost store_of = { λ backend. backend_store backend };

    ghost outbound = { λ backend. outbound_of backend };

    ghost sealed_by = { λ backend. backend.lock };

    fn options(&self) -> &Options<'_> {
        self.options
    }

    fn now(&self) -> Option<Instant> {
        Instant::now(self.rt).ok()
    }

    fn since_1970(&self) -> Duration {
        crate::counting::since_1970(self.rt)
    }

    fn next_moment(&self, last: Moment) -> Moment {
        am_peers::next_moment(self.rt, last)
    }

    fn is_told_to_end(&self) -> bool {
        signals::is_told_to_end(self.rt)
    }

    fn process(&self) -> Process {
        Process::now(self.rt)
    }

    fn count(&mut self, counted: Counted<'_>) {
        count(&mut self.figures, counted);
    }

    fn counted(&self) -> &Metrics {
        &self.figures
    }

    fn commit_state(&self) -> CommitState {
        self.commit_state
    }

    fn take(&mut self, incoming: Incoming) {
        let Incoming {
            silences,
            log,
            may_change,
        } = incoming;
        self.silences_room.add(silences);
        self.log_room.add(log);
        self.is_changed |= may_change;
    }

    fn has_room_for_post(&mut self, instance: &Instance, post: u64) -> bool {
        let silences = instance.silences();
        let bytes = post.saturating_add(bytes_for_ends(silences.len()));
        self.silences_room.makes(self.rt, silences, bytes)
    }

    fn has_room_for_notice(&mut self, instance: &Instance, notice: u64) -> bool {
        self.log_room.makes(self.rt, instance.log(), notice)
    }

    fn moment_of_tick(&self, last: Moment) -> Option<Moment> {
        let moment = self.next_moment(last);
        if self.options.trusts_clock {
            return Some(moment);
        }
        let now = self.now()?;
        match self.advance.judge(moment, now) {
            TickVerdict::Made => Some(moment),
            TickVerdict::HeldBack => None,
        }
    }

    fn tick(&mut self, instance: &mut Instance, moment: Moment) {
        if self.step(instance, Event::Tick, moment) {
            self.figures.step(StepLabel::Tick, 1);
            self.save_in_turn(instance);
        }
    }

    fn save_owed(&mut self, instance: &Instance) {
        if self.is_changed {
            self.save_in_turn(instance);
        }
    }

    fn keep(&mut self, instance: &Instance) {
        self.commit_silences(instance.config());
        self.commit_log(instance.config());
        self.commit_state.begin_commit();
        self.save_behind(instance);
        self.commit_state.end_commit();
        self.want_outgrown();
    }

    fn compact(&mut self, instance: &Instance, now: Instant) -> Option<Duration> {
        if self.commit_state.is_behind() {
            self.give_up_compaction();
            return None;
        }
        self.compact_on(instance, now);
        self.compacting.left(now)
    }

    fn look_at_clock(&mut self, instance: &Instance, now: Instant) {
        let Ok(since_1970) = self.rt.since_1970() else {
            return;
        };
        if let Some(fault) = self.watch.look(since_1970, instance.last(), now) {
            self.tell(instance.config(), fault);
        }
        self.look_far(instance, since_1970);
    }

    fn has_room_for_line(&mut self) -> bool {
        self.lines.has_room()
    }

    fn tell_torn(&mut self, config: &Config) {
        let silences = self.silences.torn();
        if silences > 0 {
            self.tell(config, Fault::SilencesTorn(silences));
        }
        let log = self.log.torn();
        if log > 0 {
            self.tell(config, Fault::LogTorn(log));
        }
    }

    fn tell_of(&mut self, config: &Config, peer: Option<Place>, fault: Fault) {
        self.lines
            .tell(self.rt, config.members(), Diagnostic { fault, peer });
    }

    fn settle_due_lines(&mut self, config: &Config, now: Instant) {
        self.lines.settle(self.rt, config.members(), now);
    }

    fn lines_left(&self, now: Instant) -> Option<Duration> {
        self.lines.left(now)
    }

    fn follow(
        &mut self,
        config: &Config,
        peer: Option<Place>,
        outbox: FrameSender,
        fault: Option<ConnectionFault>,
    ) {
        if let Some(fault) = fault {
            self.tell_of(config, peer, Fault::Connection(fault));
        }
        self.follow_step(config, outbox);
    }

    fn sends_nothing(&self) -> bool {
        self.queue.is_empty()
    }

    fn next_frames(&mut self, config: &Config) -> Option<(Place, Vec<Frame>)> {
        let place = self.queue.first()?.0;
        let alloc = self.rt.alloc();
        let frames = mem::replace(&mut self.queue, Vec::new(alloc));
        let count = frames.len();
        let Ok(SplitQueue { own, others }) = split_by_peer(alloc, place, frames) else {
            self.tell_left_out(config, None, count);
            return None;
        };
        self.queue = others;
        Some((place, own))
    }

    fn is_sealed(&self) -> bool {
        self.lock.is_some()
    }

    fn encoding_of(
        &mut self,
        config: &Config,
        peer: Place,
        from: Option<Sequence>,
        frames: &[Frame],
    ) -> Option<Vec<u8>> {
        match self.bytes_for(config, peer, from, frames) {
            Some(bytes) => {
                count_handed(&mut self.figures, peer, frames);
                Some(bytes)
            }
            None => {
                self.tell_left_out(config, Some(peer), frames.len());
                None
            }
        }
    }

    fn leave_out(&mut self, config: &Config, peer: Option<Place>, count: usize) {
        self.tell_left_out(config, peer, count);
    }

    fn drop_frames(&mut self, peer: usize, count: usize, fault: LinkFault) {
        if count > 0 {
            self.figures.heard.hand_on(peer, count as u64);
        }
        self.figures.heard.lose(peer, cause_of(fault));
    }

    fn count_all_out(&mut self, peer: usize) {
        self.figures.heard.all_out(peer);
    }

    fn end(&mut self, instance: &Instance, failed: Option<Fault>) -> Option<Fault> {
        let unsaved = self.save(instance);
        self.settle_lines(instance.config());
        failed.or(unsaved)
    }
}
