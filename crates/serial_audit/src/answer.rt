// What a trace is, and why there is none.
ghost use Rattle.std.specs.Prelude.{◌≡◌};
ghost use Rattle.serial_audit.specs.declared.answer.TraceFault.TheVariants as fault;

use super::touch::Touch;
use std::alloc::AllocError;

/// What an activation touches up to its commit: how many steps it does, and each line that one of them touches, step by
/// step; of a step first the lines that it reads and then those that it writes, both ascending.
#[derive(Drop)]
pub struct Trace {
    pub steps: u64,
    pub touches: Vec<Touch>,
}

/// Why there is no trace.
#[derive(Clone, Copy)]
pub enum TraceFault {
    /// No commit line is the activation's.
    NoCommit,
    /// The first commit line that isn't sound, counted from 1, up to the activation's and with it.
    NotSerial(u32),
    /// There is no memory.
    Memory,
}

impl From<AllocError> for TraceFault {
    ghost from_gives = { λ _ told. told ≡ fault.Memory };

    fn from(_error: AllocError) -> Self {
        TraceFault::Memory
    }
}
