ghost use Rattle.std.specs.Prelude.{◌≡◌};
ghost use Rattle.store.specs.declared.open_fault.OpenFault.TheVariants.{Memory as memory_fault};

use std::alloc::AllocError;
use thiserror::Error;

/// Why a store, or a bank of it, wasn't opened (docs/FORMATS.md, "What an image stands for").
#[derive(Debug, Clone, Copy, PartialEq, Eq, Error)]
pub enum OpenFault {
    /// What the disk holds is no store from this byte on.
    #[error("no store: byte {0}")]
    NotAStore(u64),
    /// The records of the bank are wrong at this byte.
    #[error("damaged: byte {0}")]
    Damaged(u64),
    /// The disk failed.
    #[error("the disk failed")]
    DiskFault,
    /// There was no memory.
    #[error("out of memory")]
    Memory,
}

impl From<AllocError> for OpenFault {
    ghost from_gives = { λ _ fault. fault ≡ memory_fault };

    fn from(_error: AllocError) -> Self {
        OpenFault::Memory
    }
}

/// Why a bank wasn't read again.
#[derive(Debug, Clone, Copy, PartialEq, Eq, Error)]
pub enum ReopenFault {
    /// The records of the bank are wrong at this byte.
    #[error("damaged: byte {0}")]
    Damaged(u64),
    /// The disk failed.
    #[error("the disk failed")]
    DiskFault,
}
