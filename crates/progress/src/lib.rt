//! Who is spared where waits close a cycle, and that all are gone after rounds enough. The crate has definitions (docs/MODEL.md), lemmas, and
//! laws that call nothing.
#![tactic(auto)]

mod rounds;
mod spared;

pub use rounds::rounds_end_all;
pub use spared::{contests_spare_the_oldest, turns_spare_the_oldest, victims_have_elders};
