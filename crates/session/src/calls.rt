// The session as a supervisor: what each call does, and why each answer comes.
ghost use Rattle.std.specs.Prelude.{◌≡◌, ◌≤◌, ◌<◌, ◌^◌, length, map};
ghost use Rattle.session.specs.Below.{HasBegun, HoldsStore, number_after, numbers, OfShown};
ghost use Rattle.session.specs.Causes.{turn_answer};

use super::session::Session;
use activations::Tally;
use arrayvec::ArrayVec;
use desk::{Begun, Committed, Reopened, Stored, Supervisor, Turn, TurnEnd};
use outside::{Failed, Outside};
use store::ReopenFault;

/// What is told of a turn that was counted so and ended so.
fn told(tally: Tally, end: TurnEnd) -> Turn
    ensures { result ≡ turn_answer tally end }
{
    Turn {
        ran: tally.ran,
        pages: tally.pages,
        locks: tally.locks,
        cycles: tally.cycles,
        end,
    }
}

impl Supervisor for Session {
    ghost use Rattle.session.specs.Session.{activity, order_of, fixed_of, session_told, session_number};
    ghost use Rattle.session.specs.Shown.{ShowsDesk};
    ghost use Rattle.session.specs.Causes.{AnswersBegin, SessionCheckpoint, SessionCrash, SessionTurn};
    ghost use Rattle.session.specs.ShownLaws.{shown-told};
    ghost use Rattle.seats.specs.Seating.{numbers_seated};

    ghost shows = { ShowsDesk };

    ghost told = { session_told };

    ghost shown_told = { shown-told };

    /// The program with this place begins with four values.
    fn begin(&mut self, program: u16, args: [u32; 4]) -> Begun
        requires program { program < length (fixed_of self.old).programs }
        requires room { (session_told self.old).given < (fixed_of self.old).begins }
        ensures begun { HasBegun ShowsDesk session_told program args self.old self.new result }
        ensures answer { AnswersBegin self.old program result }
    {
        if self.state.closed {
            return Begun::Shut;
        }
        let begun = self.state.activations.begin(program, args);
        self.state.activations.sound();
        begun
    }

    /// A turn of an activation with at most so many rows, a million at most.
    fn turn<W: Outside>(&mut self, outside: &mut W, activation: u32, limit: u32) -> Turn
        requires limit { limit ≤ 1000000 }
        requires turns { (session_told self.old).turns < 2 ^ 32 }
        requires bytes { HoldsStore W.Outside (fixed_of self.old).header outside.old }
        ensures { SessionTurn W.Outside activation limit self.old self.new outside.old outside.new result }
    {
        let mut tally = Tally::new();
        if self.state.closed {
            return told(tally, TurnEnd::Shut);
        }
        self.state.turns += 1;
        let end = self
            .state
            .end_of_turn(outside, activation, limit, &mut tally);
        told(tally, end)
    }

    /// Brings the store home, so that its journal begins again.
    fn checkpoint<W: Outside>(&mut self, outside: &mut W) -> Stored
        requires bytes { HoldsStore W.Outside (fixed_of self.old).header outside.old }
        ensures { SessionCheckpoint W.Outside self.old self.new outside.old outside.new result }
    {
        if self.state.closed {
            return Stored::Shut;
        }
        match self.state.store.checkpoint(outside) {
            Ok(()) => Stored::Number(self.state.store.number()),
            Err(Failed) => {
                self.state.closed = true;
                Stored::Closed
            }
        }
    }

    /// A crash: it forgets all that isn't on the disk, and reads the store again. It asks one sync of the disk.
    fn forget<W: Outside>(&mut self, outside: &mut W) -> Reopened
        requires bytes { HoldsStore W.Outside (fixed_of self.old).header outside.old }
        ensures { SessionCrash W.Outside self.old self.new outside.old outside.new result }
    {
        if self.state.closed {
            return Reopened::Shut;
        }
        self.state.activations.forget();
        self.state.activations.sound();
        match self.state.store.reopen(outside) {
            Ok(()) => Reopened::Number(self.state.store.number()),
            Err(ReopenFault::Damaged(offset)) => {
                self.state.closed = true;
                Reopened::Damaged(offset)
            }
            Err(ReopenFault::DiskFault) => {
                self.state.closed = true;
                Reopened::DiskFault
            }
        }
    }

    /// The store's number.
    fn number(&self) -> u64
        ensures number { result ≡ session_number self.now }
        ensures shown { OfShown (ShowsDesk self.now) (λ it. result ≡ number_after (fixed_of self.now).opened it) }
    {
        self.state.store.number()
    }

    /// The numbers of those that are active, ascending.
    fn active(&self) -> ArrayVec<u32, 16>
        ensures active { result.items ≡ numbers_seated (activity self.now).seating }
        ensures shown { OfShown (ShowsDesk self.now) (λ desk. result.items ≡ numbers desk) }
    {
        self.state.activations.active()
    }

    /// What the activation of the last turn that ended by a commit had printed.
    fn printed(&self) -> &[u8]
        ensures bytes { result.now ≡ (session_told self.now).printed }
        ensures few { length result.now ≤ 4096 }
    {
        self.state.printed.as_slice()
    }

    /// The commits, in order, with one in doubt at most at the end.
    fn order(&self) -> &[Committed]
        ensures order { map (λ commit. (commit.activation, commit.steps)) result.now ≡ order_of self.now }
        ensures few { length result.now ≤ (fixed_of self.now).begins }
    {
        &self.state.order
    }
}
