//! The events of a schedule, one after another, and their report (docs/MODEL.md, "The report").
#![tactic(auto)]

mod answer_lines;
mod events;
mod quietly;

pub use events::{Replayed, replay};
pub use quietly::{LastPrinted, Quiet, run_quiet};
