//! The parts that all cases share: their words, the printing of values, and calls over readers and writers that fail.

mod bytes;
mod case;
mod tries;
mod versions;
mod words;

pub use crate::common::case::{Case, CaseFault};
pub use crate::common::tries::{Brittle, Cut, How, Pieces, TriedCall};
pub use crate::common::versions::{CaseVersion, Printed, Spelled};
pub use crate::common::words::{behind, cut, first, moment_of, phrase};
