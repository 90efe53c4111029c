//! The processor: one attempt of one instruction over a storage that may refuse.
#![tactic(auto)]

mod cpu;
mod segments;
mod storage;

pub use cpu::{Attempt, Cpu};
pub use segments::registers_of;
pub use storage::{Access, Fault, Probe, Storage};
