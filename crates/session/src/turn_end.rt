// A turn of an activation.
ghost use Rattle.std.specs.Prelude.{◌≡◌, ◌+◌, ◌*◌, ◌-◌, ◌<◌, ◌≤◌, [], false};
ghost use Rattle.session.specs.Below.{HoldsStore};

use super::session::SessionState;
use activations::Tally;
use desk::TurnEnd;
use outside::Outside;

impl SessionState {
    ghost use Rattle.session.specs.Below.{AreRowsWithin};
    ghost use Rattle.session.specs.Session.{IsSessionSound, activity};
    ghost use Rattle.session.specs.Went.{HasTurnEnd};

    /// A turn of an activation, in which nothing is counted yet: how it ended.
    pub(super) fn end_of_turn<W: Outside>(
        &mut self,
        outside: &mut W,
        activation: u32,
        limit: u32,
        tally: &mut Tally,
    ) -> TurnEnd
        requires sound { IsSessionSound self.old }
        requires limit { limit ≤ 1000000 }
        requires turns { 0 < self.old.turns }
        requires rows { AreRowsWithin (activity self.old) ((self.old.turns - 1) * 1000000) }
        requires open { self.old.closed ≡ false }
        requires bytes { HoldsStore W.Outside self.old.store.header outside.old }
        requires tally { tally.old.ran + tally.old.pages + tally.old.locks ≡ 0 }
        requires cycles { tally.old.cycles.items ≡ [] }
        ensures { HasTurnEnd W.Outside activation limit result self.old self.new
            tally.new outside.old outside.new }
    {
        let Some(seat) = self.activations.seat_of(activation) else {
            return TurnEnd::Idle;
        };
        match self
            .activations
            .run(&self.store, outside, seat, limit, tally)
        {
            Err(end) => {
                self.activations.sound();
                end
            }
            Ok(()) => {
                self.activations.sound();
                self.commit(outside, seat, tally)
            }
        }
    }
}
