//! Lines of a store and of its pages: how a directory divides segments into them, sets of lines, what of them conflicts and who may
//! touch them, the resident pages, cycles of waits, and the list of bytes that a store is (docs/MODEL.md).
#![tactic(auto)]

mod line_geometry;
mod line_set;
mod owned_list;

pub use line_geometry::{Directory, DirectoryFault, PageSize};
pub use line_set::{LineSet, LinesOf};
pub use owned_list::OwnedList;
