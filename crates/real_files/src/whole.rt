// A file and a screen as one outside.
ghost use Rattle.std.specs.Prelude.{◌≡◌, ◌↔◌, ℕ, List, [], length, None, Some, IsTrue, count_by, false};
ghost use Rattle.outside.specs.Runs.{Leaves};
ghost use Rattle.outside.specs.Moments.{Moment};
ghost use Rattle.real_files.specs.Deeds.{StopsAtFailure, deed_failed};
ghost use Rattle.real_files.specs.Shown.{printed_of, LeftBy};

use crate::{KeptDisk, NotedScreen, RawFile, RawScreen};
use outside::{Joint, Outside};

/// A file and a screen of which nothing was asked yet, as one outside. It is honest and tells its bytes, which are those that the file
/// gave, and a crash leaves these and nothing printed: no premise is left but what they stand for.
pub fn outside_of<F: RawFile, R: RawScreen>(
    file: F,
    bytes: Vec<u8>,
    screen: R,
) -> Joint<KeptDisk<F>, NotedScreen<R>>
    requires first { F.first file ≡ bytes.items }
    requires deeds { F.deeds file ≡ [] }
    requires puts { R.puts screen ≡ [] }
    ensures file { result.disk.file ≡ file }
    ensures screen { result.screen.screen ≡ screen }
    ensures faults { ⟦<Joint<KeptDisk<F>, NotedScreen<R>> as Outside>⟧.disk_faults result ≡ 0 }
    ensures put_faults { ⟦<Joint<KeptDisk<F>, NotedScreen<R>> as Outside>⟧.put_faults result ≡ 0 }
    ensures honest { IsTrue (⟦<Joint<KeptDisk<F>, NotedScreen<R>> as Outside>⟧.is_honest result) }
    ensures held { ⟦<Joint<KeptDisk<F>, NotedScreen<R>> as Outside>⟧.held result ≡ Some bytes.items }
    ensures printed { ⟦<Joint<KeptDisk<F>, NotedScreen<R>> as Outside>⟧.printed result ≡ Some [] }
    ensures moment { ⟦<Joint<KeptDisk<F>, NotedScreen<R>> as Outside>⟧.moment result ≡ record { calls = 0; puts = 0; origin = record { first = bytes.items; stop = None } } }
    ensures left { Leaves ⟦<Joint<KeptDisk<F>, NotedScreen<R>> as Outside>⟧ (λ image seen. image ≡ bytes.items) result result }
{
    Joint::new(KeptDisk::new(file, bytes), NotedScreen::new(screen))
}

/// The file and the screen of an outside, and whether its disk is starved: what a crash may have left of it is what the deeds of the one and
/// the puts of the other say.
pub fn raw_of<F: RawFile, R: RawScreen>(outside: Joint<KeptDisk<F>, NotedScreen<R>>) -> (F, R, bool)
    ensures file { result.0 ≡ outside.disk.file }
    ensures screen { result.1 ≡ outside.screen.screen }
    ensures disk_calm { result.2 ≡ false → count_by deed_failed (F.deeds result.0) ≡ 0 → ⟦<Joint<KeptDisk<F>, NotedScreen<R>> as Outside>⟧.disk_faults outside ≡ 0 }
    ensures put_calm { count_by deed_failed (R.puts result.1) ≡ 0 → ⟦<Joint<KeptDisk<F>, NotedScreen<R>> as Outside>⟧.put_faults outside ≡ 0 }
    ensures starved { result.2 ≡ outside.disk.is_starved }
    ensures stops { StopsAtFailure (F.deeds result.0) }
    ensures printed { ⟦<Joint<KeptDisk<F>, NotedScreen<R>> as Outside>⟧.printed outside ≡ Some (printed_of (R.puts result.1)) }
    ensures origin { (⟦<Joint<KeptDisk<F>, NotedScreen<R>> as Outside>⟧.moment outside).origin ≡ record { first = F.first result.0; stop = None } }
    ensures left { (t : Moment) (image seen : List ℕ) → ⟦<Joint<KeptDisk<F>, NotedScreen<R>> as Outside>⟧.left_since outside t image seen ↔ LeftBy (F.first result.0) (F.deeds result.0) (R.puts result.1) t image seen }
{
    let (disk, screen) = outside.into_parts();
    let (file, starved) = disk.into_file();
    (file, screen.into_screen(), starved)
}
