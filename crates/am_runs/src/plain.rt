//! The test of calm as plain loops over steps, with which tests compare the answers of a `Run`.

pub use crate::calm::first_fault;
