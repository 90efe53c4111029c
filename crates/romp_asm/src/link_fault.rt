ghost use Rattle.std.specs.Prelude.{◌≡◌};
ghost use Rattle.romp_asm.specs.declared.link_fault.LinkFault.TheVariants.{Memory};
ghost use Rattle.romp_asm.specs.LinkAnswers.{link_fault};

use asm_parse::AsmFault;
use std::alloc::AllocError;

/// Why sources make no program (docs/FORMATS.md, "Programs of several sources").
#[derive(Clone, Copy)]
pub enum LinkFault {
    /// The line with the first fault, counted from 1, and its kind: 5 to 9, 15 or 16.
    Fault { line: u32, kind: u8 },
    /// There is no memory.
    Memory,
}

impl From<AllocError> for LinkFault {
    ghost from_gives = { λ _ fault. fault ≡ Memory };

    fn from(_error: AllocError) -> Self {
        LinkFault::Memory
    }
}

impl From<AsmFault> for LinkFault {
    ghost from_gives = { λ fault told. told ≡ link_fault fault };

    fn from(fault: AsmFault) -> Self {
        match fault {
            AsmFault::Fault { line, kind } => LinkFault::Fault { line, kind },
            AsmFault::Memory => LinkFault::Memory,
        }
    }
}
