// A file as the system has it.
ghost use Rattle.std.specs.Prelude.{◌≡◌, ◌++◌, [], ◌∷◌, List, ℕ, OnOk, OnErr};
ghost use Rattle.real_files.specs.Deeds.{Deed};
ghost use Rattle.real_files.specs.Deeds as deed;

use outside::Failed;

/// An open file. It says what was asked of it that may change it, and how it answered.
pub trait RawFile {
    /// The bytes that it gave when it was opened.
    ghost first: { Self → List ℕ };

    /// What was asked of it since.
    ghost deeds: { Self → List Deed };

    /// Writes at an offset.
    fn write_at(&mut self, at: u64, bytes: &[u8]) -> Result<(), Failed>
        ensures first { first self.new ≡ first self.old }
        ensures done { OnOk result (deeds self.new ≡ deeds self.old ++ deed.Wrote at bytes.now ∷ []) }
        ensures failed { OnErr result (deeds self.new ≡ deeds self.old ++ deed.Tore at bytes.now ∷ []) };

    /// Puts all that was written on the disk.
    fn sync(&mut self) -> Result<(), Failed>
        ensures first { first self.new ≡ first self.old }
        ensures done { OnOk result (deeds self.new ≡ deeds self.old ++ deed.Synced ∷ []) }
        ensures failed { OnErr result (deeds self.new ≡ deeds self.old ++ deed.Unsynced ∷ []) };
}
