//! Sixteen seats for those that are active: who sits in each, which lines each holds, to read and to write, page by page,
//! what it waits for, and who waits for whom, with the shown cycle of waits (docs/MODEL.md).
#![tactic(auto)]

mod line_locks;
mod request;
mod seat;
mod seat_lines;
mod seats;
mod wait_cycles;
mod waiting;

pub use line_locks::Locks;
pub use request::{Request, Want};
pub use seat::Seat;
pub use seats::Seats;
pub use wait_cycles::shown_cycle;
