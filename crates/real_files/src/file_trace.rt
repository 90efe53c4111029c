// What was asked of a file, which clauses alone read.
ghost use Rattle.std.specs.Prelude.{◌≡◌, ◌++◌, [], ◌∷◌, List, ℕ};
ghost use Rattle.std.specs.Borrow.{ftrue};
ghost use Rattle.std.specs.Coded.{coded_list};
ghost use Rattle.real_files.specs.Deeds.{Deed, coded_deed, deed_of};

use std::marker::{Model, PhantomData};

/// The kind of a note: a write.
pub const WROTE: u64 = 0;

/// A write that failed.
pub const TORE: u64 = 1;

/// A sync.
pub const SYNCED: u64 = 2;

pub(crate) const UNSYNCED: u64 = 3;

/// What was asked of a file, in order. It has no bytes.
#[derive(Drop)]
pub struct FileTrace {
    marker: PhantomData<u8>,
    pub ghost deeds: { List Deed } by { coded_list coded_deed },
}

impl Model for FileTrace {
    ghost also_owns = { λ _. ftrue };
}

impl FileTrace {
    /// Nothing so far.
    pub fn new() -> FileTrace
        ensures { result.deeds ≡ [] }
    {
        FileTrace {
            marker: PhantomData,
        }
    }

    /// One more: the numbers are its kind and an offset.
    pub fn note(&mut self, _numbers: &[u64], _bytes: &[u8])
        ensures { self.new.deeds ≡ self.old.deeds ++ deed_of _numbers.now _bytes.now ∷ [] }
    {}
}
