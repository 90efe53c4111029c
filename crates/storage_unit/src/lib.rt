//! The storage unit: frames, page table and look-aside buffer, as the storage that a processor runs over (docs/MODEL.md).
#![tactic(auto)]

mod answering;
mod copying;
mod incoming;
mod page_moves;
pub mod pool_laws;
mod private;
mod sizes;
mod storage;
mod stored_over;
mod unit;
mod unit_model;

pub use incoming::Pages;
pub use private::PRIVATE;
pub use unit::Unit;
pub use unit_model::Reach;
