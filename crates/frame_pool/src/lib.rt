//! Frames for pages: what they hold, which pages are resident, which lines are marked as written, and those kept outside
//! the frames (docs/MODEL.md).
#![tactic(auto)]

mod arrivals;
mod frame_bytes;
mod frame_places;
mod pool;
mod pool_model;
mod sizes;

pub use arrivals::Resident;
pub use pool::{FramePool, Slot};
pub use pool_model::Pool;
pub use sizes::private_frames;
