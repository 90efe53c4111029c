ghost use Rattle.std.specs.Prelude.{◌≡◌};
ghost use Rattle.job_text.specs.declared.job.JobFault.TheVariants.{Memory};
ghost use Rattle.job_text.specs.Faults.{job_fault};

use arrayvec::ArrayVec;
use desk::Event;
use flat_machine::Program;
use romp_asm::LinkFault;
use std::alloc::{AllocError, AllocFailed};

/// The name of a program: 1 to 31 bytes.
pub type Name = ArrayVec<u8, 31>;

/// A job: the frames for store pages, the programs with their names, and the events of its schedule in order
/// (docs/FORMATS.md, "Job").
#[derive(Drop)]
pub struct Job {
    pub frames: u16,
    pub names: Vec<Name>,
    pub programs: Vec<Program>,
    pub events: Vec<Event>,
}

/// Why a text is no job.
#[derive(Debug, Clone, Copy)]
pub enum JobFault {
    /// The line with the first fault, counted from 1, and its kind (docs/FORMATS.md, "Job").
    Fault { line: u32, kind: u8 },
    /// There is no memory.
    Memory,
}

impl From<AllocError> for JobFault {
    ghost from_gives = { λ _ fault. fault ≡ Memory };

    fn from(_error: AllocError) -> Self {
        JobFault::Memory
    }
}

impl<T: Drop> From<AllocFailed<T>> for JobFault {
    ghost from_gives = { λ _ fault. fault ≡ Memory };

    fn from(_error: AllocFailed<T>) -> Self {
        JobFault::Memory
    }
}

impl From<LinkFault> for JobFault {
    ghost from_gives = { λ fault told. told ≡ job_fault fault };

    fn from(fault: LinkFault) -> Self {
        match fault {
            LinkFault::Fault { line, kind } => JobFault::Fault { line, kind },
            LinkFault::Memory => JobFault::Memory,
        }
    }
}
