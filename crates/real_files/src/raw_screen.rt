// A screen as the system has it.
ghost use Rattle.std.specs.Prelude.{◌≡◌, ◌++◌, [], ◌∷◌, List, ℕ, take, OnOk, OnErr};
ghost use Rattle.real_files.specs.Deeds.{Deed};
ghost use Rattle.real_files.specs.Deeds as deed;

use outside::Failed;

/// A place to print. It says which bytes were handed to it, put by put, each at a number that the caller gives.
pub trait RawScreen {
    /// What was printed, each put at its number.
    ghost puts: { Self → List Deed };

    /// Prints the bytes, or a prefix of them where it fails.
    fn put(&mut self, bytes: &[u8], at: u64) -> Result<(), Failed>
        ensures done { OnOk result (puts self.new ≡ puts self.old ++ deed.Wrote at bytes.now ∷ []) }
        ensures failed { OnErr result ((count : ℕ) × (puts self.new ≡ puts self.old ++ deed.Tore at (take count bytes.now) ∷ [])) };
}
