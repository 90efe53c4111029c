//! Programs that run side by side over frames and locks: who sits where, what each has, and how it begins, does its rows, waits,
//! commits and ends (docs/MODEL.md, "Activations"). Pages come from a store that is open; who calls commits to it.
#![tactic(auto)]

pub mod access_laws;
mod activations;
mod attempts;
mod commit_record;
mod contest;
mod endings;
mod fetching;
mod granting;
mod instructions;
mod live;
mod refused_pages;
mod store_pages;
mod tally;
mod touched_lines;
mod touching;
mod turns;

pub use activations::Activations;
pub use live::Live;
pub use tally::Tally;
pub use touched_lines::TouchedLines;
