//! Patterns of RE2 (Go's `regexp`), which Alertmanager reads, as patterns of `regex` that match the same texts.

mod braces;
mod classes;
mod escapes;
mod groups;
mod names;
mod nesting;
mod outside;
mod pieces;
mod reading;
mod repeats;
mod runs;
mod spelling;
mod translation;

pub use translation::{Re2Error, re2_of};
