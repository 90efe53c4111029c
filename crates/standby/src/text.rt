// What a ship text holds.
ghost use Rattle.std.specs.Prelude.{◌≡◌};
ghost use Rattle.standby.specs.declared.text.ShipFault.TheVariants.{Memory as memory_fault};

use std::alloc::{AllocError, AllocFailed};

/// A record: the numbers of its lines, ascending, and their bytes, one line after another.
#[derive(Drop)]
pub struct ShipRecord {
    pub lines: Vec<u32>,
    pub bytes: Vec<u8>,
}

/// A ship text: the bytes of a line of the store and the number of its lines, the number from which the records go on,
/// and the records (docs/FORMATS.md, "Ship text").
#[derive(Drop)]
pub struct Ship {
    pub line_bytes: u16,
    pub lines: u32,
    pub start: u64,
    pub records: Vec<ShipRecord>,
}

/// Why a text is no ship text.
#[derive(Clone, Copy)]
pub enum ShipFault {
    /// The first line, counted from 1, with which no ship text goes on from the lines before it; the one after the last
    /// where the text ends too early.
    Bad(u32),
    /// There is no memory.
    Memory,
}

impl From<AllocError> for ShipFault {
    ghost from_gives = { λ _ fault. fault ≡ memory_fault };

    fn from(_error: AllocError) -> Self {
        ShipFault::Memory
    }
}

impl<T: Drop> From<AllocFailed<T>> for ShipFault {
    ghost from_gives = { λ _ fault. fault ≡ memory_fault };

    fn from(_error: AllocFailed<T>) -> Self {
        ShipFault::Memory
    }
}
