// What opens files by their paths.
ghost use Rattle.std.specs.Prelude.{◌≡◌, ◌↔◌, ◌++◌, [], ◌∷◌, Err, List, map, length, suc, ℕ, IfOk};
ghost use Rattle.real_files.specs.Opened.{opening_of};
ghost use Rattle.real_files.specs.declared.opener.Unopened.TheVariants.{Memory, Refused};
ghost use Rattle.real_files.specs.declared.std_file.FileUse.{FileUse};

use crate::file_trace::{FileTrace, WROTE};
use crate::{FileUse, RawFile, StdFile};
use std::alloc::AllocError;
use std::fs::File;
use std::io;
use std::rt::Files;

/// Why a file isn't open.
#[derive(Clone, Copy)]
pub enum Unopened {
    /// It isn't there, or it may not be had so.
    Refused,
    /// There is no memory.
    Memory,
}

impl From<AllocError> for Unopened {
    ghost from_gives = { λ _ why. why ≡ Memory };

    fn from(_error: AllocError) -> Self {
        Unopened::Memory
    }
}

/// Opens files by their paths. It says which it was asked for, what for, and how many it couldn't have so.
pub trait Opener {
    type Opened: RawFile;

    /// The paths that it was asked to open, each with what for, in order.
    ghost asked: { Self → List (List ℕ × FileUse) };

    /// How many of them were refused.
    ghost refusals: { Self → ℕ };

    /// Opens the file at this path, and gives the bytes that it read of it.
    ///
    /// # Errors
    ///
    /// Where it can't be had so, or there is no memory.
    fn open(&mut self, path: &str, wanted: FileUse) -> Result<(Self::Opened, Vec<u8>), Unopened>
        ensures asked { asked self.new ≡ asked self.old ++ (path.now, wanted) ∷ [] }
        ensures refused { (result ≡ Err Refused) ↔ (refusals self.new ≡ suc (refusals self.old)) }
        ensures first { IfOk result (λ opened. Self.Opened.first opened.0 ≡ opened.1.items) }
        ensures deeds { IfOk result (λ opened. Self.Opened.deeds opened.0 ≡ []) };
}

/// Opens files of the system, as [`StdFile::open`] does.
#[derive(Drop)]
pub struct StdOpener<R: Files<File = File> + AllocGlobal> {
    rt: R,
    trace: FileTrace,
    refused: FileTrace,
}

impl<R: Files<File = File> + AllocGlobal + Clone + Drop> StdOpener<R> {
    /// One that was asked for nothing yet.
    pub fn new(rt: R) -> Self
        ensures { ⟦<StdOpener<R> as Opener>⟧.asked result ≡ [] }
    {
        StdOpener {
            rt,
            trace: FileTrace::new(),
            refused: FileTrace::new(),
        }
    }
}

impl<R: Files<File = File> + AllocGlobal + Clone + Drop> Opener for StdOpener<R> {
    type Opened = StdFile<R>;

    ghost asked = { λ opener. map opening_of opener.trace.deeds };

    ghost refusals = { λ opener. length opener.refused.deeds };

    fn open(&mut self, path: &str, wanted: FileUse) -> Result<(StdFile<R>, Vec<u8>), Unopened> {
        self.trace.note(&[WROTE, wanted.number()], path.as_bytes());
        let named = String::from_str(self.rt.alloc(), path)?;
        match StdFile::open(self.rt.clone()?, named, wanted) {
            Ok(opened) => Ok(opened),
            Err(error) if error.kind() == io::ErrorKind::OutOfMemory => Err(Unopened::Memory),
            Err(_) => {
                self.refused
                    .note(&[WROTE, wanted.number()], path.as_bytes());
                Err(Unopened::Refused)
            }
        }
    }
}
