// A file in memory alone.
ghost use Rattle.std.specs.Prelude.{◌≡◌, [], count_by};
ghost use Rattle.real_files.specs.Deeds.{deed_failed};
ghost use Rattle.real_files.specs.Found.{found_by};

use crate::RawFile;
use crate::file_trace::{FileTrace, SYNCED, WROTE};
use outside::Failed;

/// A file that isn't there: what is asked of it is noted as of any file, and never fails. Its bytes are those that a disk over it keeps, which is then
/// a disk in memory that remembers no call (docs/MODEL.md).
#[derive(Drop)]
pub struct MemoryFile {
    found: FileTrace,
    trace: FileTrace,
    ghost unfailed: { count_by deed_failed trace.deeds ≡ 0 },
}

impl MemoryFile {
    /// The file that gives these bytes.
    pub fn new(bytes: &[u8]) -> MemoryFile
        ensures first { ⟦<MemoryFile as RawFile>⟧.first result ≡ bytes.now }
        ensures deeds { ⟦<MemoryFile as RawFile>⟧.deeds result ≡ [] }
    {
        let mut found = FileTrace::new();
        found.note(&[WROTE, 0], bytes);
        MemoryFile {
            found,
            trace: FileTrace::new(),
        }
    }

    /// Is done with: none of its calls failed.
    pub fn close(self)
        ensures { count_by deed_failed (⟦<MemoryFile as RawFile>⟧.deeds self) ≡ 0 }
    {}
}

impl RawFile for MemoryFile {
    ghost first = { λ file. found_by file.found.deeds };

    ghost deeds = { λ file. file.trace.deeds };

    fn write_at(&mut self, at: u64, bytes: &[u8]) -> Result<(), Failed> {
        self.trace.note(&[WROTE, at], bytes);
        Ok(())
    }

    fn sync(&mut self) -> Result<(), Failed> {
        self.trace.note(&[SYNCED, 0], &[]);
        Ok(())
    }
}
