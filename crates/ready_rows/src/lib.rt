//! Rows made ready, kept by their addresses, so that none is fetched and decoded anew at each attempt (docs/MODEL.md).
#![tactic(auto)]

mod place;
mod rows;

pub use rows::ReadyRows;
