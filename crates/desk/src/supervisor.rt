ghost use Rattle.std.specs.Prelude.{◌≡◌, ◌≤◌, ◌<◌, ◌^◌, List, ℕ, length, map};
ghost use Rattle.desk.specs.Desk.{Desk};
ghost use Rattle.desk.specs.Holdings.{numbers};
ghost use Rattle.desk.specs.Report.{number_after};
ghost use Rattle.desk.specs.Kept.{HoldsStore};
ghost use Rattle.desk.specs.Told.{HasBegun, HasCrashed, HasStored, HasTurned, OfShown, TellsDesk, Told};

use super::answers::{Begun, Committed, Reopened, Stored, Turn, TurnEnd};
use arrayvec::ArrayVec;
use outside::Outside;

/// What answers the events of a schedule as the desk does (docs/MODEL.md, "The desk"). Committed bytes are on the disk, so it
/// shows a desk only over the bytes that the disk holds.
pub trait Supervisor {
    /// It is open, and over a disk that holds these bytes it is this desk.
    ghost shows: { Self → List ℕ → Desk → Type 0 };

    /// What it tells of itself.
    ghost told: { Self → Told };

    /// The program with this place begins with four values.
    fn begin(&mut self, program: u16, args: [u32; 4]) -> Begun
        requires program { program < length (told self.old).fixed.programs }
        requires room { (told self.old).given < (told self.old).fixed.begins }
        ensures { HasBegun shows told program args self.old self.new result };

    /// A turn of an activation with at most so many rows, a million at most.
    fn turn<W: Outside>(&mut self, outside: &mut W, activation: u32, limit: u32) -> Turn
        requires limit { limit ≤ 1000000 }
        requires turns { (told self.old).turns < 2 ^ 32 }
        requires bytes { HoldsStore W.Outside (told self.old).fixed.header outside.old }
        ensures { HasTurned shows told W.Outside activation limit
            self.old self.new outside.old outside.new result };

    /// Brings the store home, so that its journal begins again.
    fn checkpoint<W: Outside>(&mut self, outside: &mut W) -> Stored
        requires bytes { HoldsStore W.Outside (told self.old).fixed.header outside.old }
        ensures { HasStored shows told W.Outside self.old self.new outside.old outside.new result };

    /// A crash: it forgets all that isn't on the disk, and reads the store again. It only asks the disk.
    fn forget<W: Outside>(&mut self, outside: &mut W) -> Reopened
        requires bytes { HoldsStore W.Outside (told self.old).fixed.header outside.old }
        ensures { HasCrashed shows told W.Outside self.old self.new outside.old outside.new result };

    /// The store's number, where it shows a desk.
    fn number(&self) -> u64
        ensures { OfShown (shows self.now) (λ it. result ≡ number_after (told self.now).fixed.opened it) };

    /// The numbers of those that are active, ascending, where it shows a desk.
    fn active(&self) -> ArrayVec<u32, 16>
        ensures { OfShown (shows self.now) (λ desk. result.items ≡ numbers desk) };

    /// What the activation of the last turn that ended by a commit had printed.
    fn printed(&self) -> &[u8]
        ensures bytes { result.now ≡ (told self.now).printed }
        ensures few { length result.now ≤ 4096 };

    /// The commits, in order, with one in doubt at most at the end.
    fn order(&self) -> &[Committed]
        ensures { map (λ commit. (commit.activation, commit.steps)) result.now ≡ (told self.now).order };

    /// What it tells while it shows a desk is that desk's.
    ghost shown_told: { (self_now : Self) (held : List ℕ) (desk : Desk) → shows self_now held desk → TellsDesk (told self_now) held desk };
}
