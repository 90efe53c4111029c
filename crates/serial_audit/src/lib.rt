//! A finished run checked without scheduler, locks or journal: the commits of its report are run again, one after
//! another, on the store that it began with; and which lines an activation of it touched (docs/MODEL.md).
#![tactic(auto)]

mod answer;
mod auditing;
mod bundle;
mod bundle_law;
mod index;
mod run_again;
mod touch;
mod touch_trace;
mod trace_law;
mod traced_run;

pub use answer::{Trace, TraceFault};
pub use auditing::{KeptStore, Progress, Verdict, audit, audit_lines};
pub use bundle::{Bundle, Span, split_bundle};
pub use bundle_law::a_bundle_has_one_splitting;
pub use index::Allowance;
pub use touch::Touch;
pub use touch_trace::trace;
pub use trace_law::a_trace_is_enough;
