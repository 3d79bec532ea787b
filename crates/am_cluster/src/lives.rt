//! Saves, stops and starts of members.

ghost use Rattle.std.specs.Prelude.{◌<◌, length};
ghost use Rattle.am_cluster.specs.Lives.{CanBegin, IsSave, IsStart, IsStop, OfMember};

use crate::cluster::Cluster;
use crate::error::ClusterError;
use crate::journal::Mark;
use am_instance::Reply;
use am_version_order::Moment;

impl Cluster {
    /// Saves the member at a place.
    pub(crate) fn save_at(&mut self, place: usize, line: u64) -> Result<Reply, ClusterError>
        requires { place < length self.old.replicas }
        ensures { OfMember self.old place (λ replica. IsSave self.old place replica line result self.new) }
    {
        if !self.members[place].runs {
            return Err(ClusterError::Stopped);
        }
        let copy = self.members[place].copy()?;
        self.journal.make_room(1)?;
        self.members[place].keep(copy);
        self.journal.mark(Mark::Saved { place }, line);
        Ok(Reply::Nothing)
    }

    /// Stops the member at a place.
    pub(crate) fn stop_at(&mut self, place: usize, line: u64) -> Result<Reply, ClusterError>
        requires { place < length self.old.replicas }
        ensures { OfMember self.old place (λ replica. IsStop self.old place replica line result self.new) }
    {
        if !self.members[place].runs {
            return Err(ClusterError::Stopped);
        }
        self.journal.make_room(1)?;
        self.members[place].stop();
        self.journal.mark(Mark::Stopped { place }, line);
        Ok(Reply::Nothing)
    }

    /// Starts the member at a place, which is stopped, from its last save.
    pub(crate) fn start_at(
        &mut self,
        place: usize,
        now: Moment,
        line: u64,
    ) -> Result<Reply, ClusterError>
        requires within { place < length self.old.replicas }
        requires ready { OfMember self.old place (λ replica. CanBegin replica now) }
        ensures { OfMember self.old place (λ replica. IsStart self.old place replica now line result self.new) }
    {
        let instance = self.members[place].revived(now)?;
        self.journal.make_room(1)?;
        self.members[place].begin(instance);
        self.journal.mark(Mark::Started { place, now }, line);
        Ok(Reply::Nothing)
    }
}
