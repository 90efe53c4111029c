//! A job that is stopped at each of its writes in turn, in memory: the word `drill`.
#![tactic(auto)]

mod drill;
mod job_copy;
mod stopping_disk;
mod stops;

pub use drill::drill_source;
pub use stops::{Stop, drill_stop};
