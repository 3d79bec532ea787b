//! Observers, which watch while a schedule is played.

use crate::refusal::LineRefusal;
use am_cluster::Cluster;
use am_dedup::Decision;
use am_instance::Reply;
use am_schedule::Line;
use std::alloc::AllocError;

/// The outcome of a line, as a word.
#[derive(Clone, Copy)]
pub enum LineAnswer {
    /// The line has no outcome in one word.
    Nothing,
    /// True if a notification changed the log, a silence mutes, or the run is timely.
    Is(bool),
    Decided(Decision),
    Refused(LineRefusal),
}

impl LineAnswer {
    pub(crate) fn of_reply(reply: &Reply) -> LineAnswer {
        match reply {
            Reply::Logged(changed) => LineAnswer::Is(*changed),
            Reply::Muted(mutes) => LineAnswer::Is(!mutes.ids.as_slice().is_empty()),
            Reply::Decided(decision) => LineAnswer::Decided(*decision),
            Reply::Refused(error) => LineAnswer::Refused(LineRefusal::from(*error)),
            _ => LineAnswer::Nothing,
        }
    }
}

/// An observer that watches while a schedule is played. It has no influence on the steps and their output, except that both
/// end if it runs out of memory.
pub trait Observer {
    /// Notes that `lines` of all lines have been played.
    fn is_at(&mut self, lines: usize, all: usize);

    /// Notes that the line with this number was played. The cluster is given as that line left it.
    ///
    /// # Errors
    ///
    /// [`AllocError`] if memory runs out.
    fn saw(
        &mut self,
        _cluster: &Cluster,
        _line: &Line,
        _number: u64,
        _answer: LineAnswer,
    ) -> Result<(), AllocError> {
        Ok(())
    }

    /// Notes that all lines were played. The cluster is given as the last line left it.
    ///
    /// # Errors
    ///
    /// [`AllocError`] if memory runs out.
    fn saw_end(&mut self, _cluster: &Cluster) -> Result<(), AllocError> {
        Ok(())
    }
}

/// An observer that ignores everything.
#[derive(Clone, Copy)]
pub struct Nobody;

impl Observer for Nobody {
    fn is_at(&mut self, _lines: usize, _all: usize) {}
}
