//! The messages between peers: frames, and the stream in which they are sent; and why a configuration or a step is refused.
#![tactic(auto)]

mod encode;
mod error;
mod feeder;
mod frame;
mod groups;
mod head;
mod header;
mod hello;
mod kind;
pub mod laws;
mod length;
mod payload;
mod reading;
mod refusals;

pub use am_wire::Bytes;
pub use encode::{append_frame, delta_fits, encode_frame, frame_fits, states_fit};
pub use error::FrameError;
pub use feeder::{Fed, Feeder};
pub use frame::{Frame, FullState, Part, StateKey};
pub use hello::{MOST_NAME_BYTES, read_hello};
pub use kind::FrameKind;
pub use refusals::{ConfigError, Place, StepError};
