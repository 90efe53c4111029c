// The commit call of who sits in a seat.
ghost use Rattle.std.specs.Prelude.{◌≡◌, ◌+◌, ◌<◌, ◌≤◌, ◌++◌, ◌∷◌, [], true, false, vec_len, vec_capacity};
ghost use Rattle.session.specs.Below.{has, HoldsStore, number_in, sitter};

use super::session::SessionState;
use activations::Tally;
use desk::{Committed, TurnEnd};
use outside::Outside;
use store::Kept;

impl SessionState {
    ghost use Rattle.session.specs.Session.{IsSessionSound, activity};
    ghost use Rattle.session.specs.Went.{HasCommitCall};

    /// The commit call of who sits in a seat: his record, and the end of the turn.
    pub(super) fn commit<W: Outside>(
        &mut self,
        outside: &mut W,
        seat: u8,
        tally: &mut Tally,
    ) -> TurnEnd
        requires sound { IsSessionSound self.old }
        requires taken { has (activity self.old).seating.taken seat ≡ true }
        requires tally { tally.old.ran ≤ 1000000 }
        requires open { self.old.closed ≡ false }
        requires bytes { HoldsStore W.Outside self.old.store.header outside.old }
        ensures { HasCommitCall W.Outside seat result self.old self.new
            tally.old tally.new outside.old outside.new }
    {
        if let Err(end) = self.activations.record(seat, &mut self.store) {
            self.activations.sound();
            return end;
        }
        let number = self.store.number().wrapping_add(1);
        let committed = self.committed_in(seat);
        match self.store.commit(outside) {
            Kept::Done => {
                self.enter_order(committed);
                self.activations.commit(seat);
                self.activations.swap_printed(seat, &mut self.printed);
                self.activations.sound();
                tally.ran += 1;
                TurnEnd::Committed(number, committed.steps)
            }
            Kept::Doubt => {
                self.enter_order(committed);
                self.closed = true;
                let doubt = Some(committed.activation);
                TurnEnd::Closed { doubt, number }
            }
            Kept::Unwritten => {
                self.closed = true;
                let doubt = None;
                TurnEnd::Closed { doubt, number }
            }
        }
    }

    /// Who sits in a seat, and how many rows he has done with his commit call.
    fn committed_in(&self, seat: u8) -> Committed
        requires sound { IsSessionSound self.now }
        requires seat { seat < 16 }
        ensures activation { result.activation ≡ number_in (activity self.now).seating seat }
        ensures steps { result.steps ≡ (sitter (activity self.now).seating seat).rows + 1 }
    {
        let who = self.activations.sitter(seat);
        Committed {
            activation: who.number,
            steps: who.rows + 1,
        }
    }

    /// A commit enters the order, for which there is room.
    fn enter_order(&mut self, committed: Committed)
        requires { vec_len self.old.order < vec_capacity self.old.order }
        ensures others { self.new ≡ record self.old { order = self.new.order } }
        ensures room { vec_capacity self.old.order ≤ vec_capacity self.new.order }
        ensures order { self.new.order.items ≡ self.old.order.items ++ committed ∷ [] }
    {
        let _ = self.order.push(committed);
    }
}
