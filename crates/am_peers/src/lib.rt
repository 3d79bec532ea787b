//! The peers of a member and the servers of API v2: their addresses, the bytes that go there and come back, and the moments of
//! events.
#![tactic(auto)]

mod address;
pub mod asking;
mod beside;
mod clock;
mod error;
mod fault;
mod fetching;
mod number;
mod peer;
mod queue;
mod reply;
mod shown;
mod timed;
mod times;
mod writing;

pub use address::{AddressWord, address_of, is_loopback};
pub use beside::{name_beside, shown_name};
pub use clock::{is_behind, later_moment, next_moment};
pub use error::ServerFault;
pub use fault::ConnectionFault;
pub use fetching::{HttpServer, ask, fetch, server_of};
pub use number::{number_within, port_of};
pub use peer::{Peer, peer_of};
pub use queue::{SplitQueue, split_by_peer};
pub use reply::body_of;
pub use shown::{held_of, shown_of_row};
pub use times::{Times, times_of};
pub use writing::{frames_encoding, greeting};
