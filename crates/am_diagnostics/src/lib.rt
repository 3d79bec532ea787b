//! The program's standard error: the line, the sentence and the exit status of each fault, and lines at a bounded
//! rate; the clock and signals.
#![tactic(auto)]

mod advance;
mod audience;
mod clock;
mod diagnostic;
mod fault;
mod occasion;
mod short_id;
pub mod signals;
mod standard_error;
pub mod status;

pub use advance::{Advance, TickVerdict, judge_tick};
pub use audience::{Audience, HasAudience, Remark};
pub use clock::ClockWatch;
pub use diagnostic::{Diagnostic, DiagnosticPrinter};
pub use fault::{Fault, print, print_count, report, report_source};
pub use occasion::Occasion;
pub use short_id::ShortId;
