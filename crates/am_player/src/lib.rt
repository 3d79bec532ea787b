//! Plays a schedule: prints what members answer, and draws it as SVG.
#![tactic(auto)]

mod again;
mod arrows;
mod drawing;
mod ends;
mod escape;
mod lanes;
mod layout;
mod mark;
mod marks;
mod painter;
mod picture;
mod play;
mod progress;
mod scene;
mod schedule_fault;
mod sheet;
mod times;

pub use drawing::{Drawing, picture_of};
pub use escape::{append_escaped, append_shortened};
pub use play::{PlayerRuntime, run_replay};
