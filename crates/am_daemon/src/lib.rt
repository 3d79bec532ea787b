//! A member as a process: its start, its files, what it answers, what it does by itself, and the lines that it prints.
#![tactic(auto)]

mod laws;
mod live;
mod member;
mod running;

pub use member::run;
