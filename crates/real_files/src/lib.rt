//! Real files, screens and sources that tell what they hold, print and give: each call that may change one is noted, at no cost.
#![tactic(auto)]

mod absent_disk;
mod file_trace;
mod identity;
mod kept_disk;
mod memory_file;
mod noted_calls;
mod noted_screen;
mod opener;
mod raw_file;
mod raw_screen;
mod read_source;
mod std_file;
mod std_out;
mod whole;

ghost use Rattle.std.specs.Prelude.{IsErr};
ghost use Rattle.outside.specs.Causes.{FailsOnlyCounted};

pub use absent_disk::AbsentDisk;
pub use file_trace::{FileTrace, SYNCED, TORE, WROTE};
pub use identity::may_spoil;
pub use kept_disk::KeptDisk;
pub use memory_file::MemoryFile;
pub use noted_screen::NotedScreen;
pub use opener::{Opener, StdOpener, Unopened};
use outside::Failed;
pub use raw_file::RawFile;
pub use raw_screen::RawScreen;
pub use read_source::ReadSource;
pub use std_file::{FileUse, StdFile};
pub use std_out::StdOut;
pub use whole::{outside_of, raw_of};

// Counts a fault.
pub(crate) fn fault<T>(faults: &mut u64) -> Result<T, Failed>
    ensures fails { IsErr result }
    ensures cause { FailsOnlyCounted faults.old faults.new result }
{
    *faults = faults.saturating_add(1);
    Err(Failed)
}
