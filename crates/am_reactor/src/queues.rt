//! The queues of what is to be done for connections and for peers.

use crate::queue::Queue;
use std::alloc::{AllocError, Global};

/// The queues of connections, by their keys.
#[derive(Drop)]
pub struct ConnectionQueues {
    /// The connections whose time counts, in the order in which it is over.
    pub by_end: Queue,
    /// The connections that leave, in the order in which their quiet time is over.
    pub by_quiet: Queue,
    /// The connections for which there is more to do at once.
    pub busy: Queue,
    /// The connections whose session waits, the one that waits longest first.
    pub waiting: Queue,
    /// The connections of which a reply waits for the next commit.
    pub held_back: Queue,
    /// The connections of which a reply waits for its moment, in the order in which they began to wait. Their time doesn't count.
    /// Some of them wait for something expensive, too.
    pub deferred: Queue,
    /// The connections whose session waits for nothing, the one on which nothing has moved for longest first.
    pub by_motion: Queue,
}

impl ConnectionQueues {
    /// Returns empty queues with room for the keys below a number.
    pub fn new(alloc: Global, keys: u16) -> Result<ConnectionQueues, AllocError> {
        Ok(ConnectionQueues {
            by_end: Queue::new(alloc, keys)?,
            by_quiet: Queue::new(alloc, keys)?,
            busy: Queue::new(alloc, keys)?,
            waiting: Queue::new(alloc, keys)?,
            held_back: Queue::new(alloc, keys)?,
            deferred: Queue::new(alloc, keys)?,
            by_motion: Queue::new(alloc, keys)?,
        })
    }

    /// Removes a connection from all queues.
    pub fn remove_everywhere(&mut self, key: usize) {
        self.by_end.remove(key);
        self.by_quiet.remove(key);
        self.busy.remove(key);
        self.waiting.remove(key);
        self.held_back.remove(key);
        self.deferred.remove(key);
        self.by_motion.remove(key);
    }
}

/// The queues of peers to which a link or an exchange is open.
#[derive(Drop)]
pub struct PeerQueues {
    /// All of them, in the order in which the time of their link or exchange is over.
    pub by_end: Queue,
    /// The peers for which there is more to do at once.
    pub busy: Queue,
}

impl PeerQueues {
    /// Returns empty queues with room for a number of peers.
    pub fn new(alloc: Global, peers: u16) -> Result<PeerQueues, AllocError> {
        Ok(PeerQueues {
            by_end: Queue::new(alloc, peers)?,
            busy: Queue::new(alloc, peers)?,
        })
    }

    /// Removes a peer from both queues.
    pub fn remove_everywhere(&mut self, peer: usize) {
        self.by_end.remove(peer);
        self.busy.remove(peer);
    }
}
