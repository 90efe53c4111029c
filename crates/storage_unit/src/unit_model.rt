// What contracts see of a unit.
use frame_pool::Pool;
use lines::{Directory, OwnedList};
use page_table::{Authority, SegmentRegs};

/// A unit, as contracts see it: the pool; the entry of each page of the store; which of sixteen seats are begun; the
/// directory of the store; and the segment registers and the identifier of the seat that is selected. The identifier is a
/// seat's number and one more, and 0 where none is selected.
#[derive(Drop)]
pub struct Reach {
    pub pool: Pool,
    pub entries: OwnedList<Authority>,
    pub begun: [bool; 16],
    pub directory: Directory,
    pub registers: SegmentRegs,
    pub runner: u8,
}
