ghost use Rattle.std.specs.Prelude.{◌≡◌};
ghost use Rattle.asm_parse.specs.declared.asm_fault.AsmFault.TheVariants as asm;
ghost use Rattle.asm_parse.specs.declared.asm_fault.LineFault.TheVariants as line;

use std::alloc::{AllocError, AllocFailed};

/// What stands where a mnemonic is due is none.
pub(crate) const MNEMONIC: u8 = 2;
/// The operands aren't those of the mnemonic.
pub(crate) const OPERANDS: u8 = 3;

/// Why a text is no program (docs/FORMATS.md, "Assembler").
#[derive(Clone, Copy)]
pub enum AsmFault {
    /// The line with the first fault, counted from 1, and its kind, 1 to 9.
    Fault { line: u32, kind: u8 },
    /// There is no memory.
    Memory,
}

/// Why a line is no statement (docs/FORMATS.md, "Assembler").
#[derive(Clone, Copy)]
pub enum LineFault {
    /// The kind of the line's fault, 1 to 4.
    Kind(u8),
    /// There is no memory.
    Memory,
}

impl From<AllocError> for AsmFault {
    ghost from_gives = { λ _ fault. fault ≡ asm.Memory };

    fn from(_error: AllocError) -> Self {
        AsmFault::Memory
    }
}

impl<T: Drop> From<AllocFailed<T>> for AsmFault {
    ghost from_gives = { λ _ fault. fault ≡ asm.Memory };

    fn from(_error: AllocFailed<T>) -> Self {
        AsmFault::Memory
    }
}

impl From<AllocError> for LineFault {
    ghost from_gives = { λ _ fault. fault ≡ line.Memory };

    fn from(_error: AllocError) -> Self {
        LineFault::Memory
    }
}

impl<T: Drop> From<AllocFailed<T>> for LineFault {
    ghost from_gives = { λ _ fault. fault ≡ line.Memory };

    fn from(_error: AllocFailed<T>) -> Self {
        LineFault::Memory
    }
}
