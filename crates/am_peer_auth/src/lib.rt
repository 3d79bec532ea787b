//! Rules for the connections, requests and frames that a member accepts: the protocols of an entrance, and, if members have a
//! secret, frames that are sealed with it, each after a sum of the challenge of its connection, its number there, its sender,
//! its addressee and its bytes.
#![tactic(auto)]

mod authenticator;
mod fault;
pub mod laws;
mod mac;
mod opening;
mod passing;
mod seal;
mod sealed;
mod secret;
mod sequence;
mod summing;

pub use authenticator::Authenticator;
pub use fault::AuthFault;
pub use mac::{Mac, SUM, hmac_sha256};
pub use opening::{MOST_TEXT, Opened, SEALED, Waiting, open_piece};
pub use passing::{AcceptedProtocols, Heard};
pub use seal::{Lock, Origin, SealError, sealed_encoding, sum_of};
pub use secret::{Secret, SecretFault, read_secret};
pub use sequence::{CHALLENGE, Sequence};
