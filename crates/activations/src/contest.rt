// Who waits for whom, and the cycles that are broken.
ghost use Rattle.std.specs.Prelude.{◌≡◌, ◌≤◌, ◌+◌, true, length, IsSome, ◌<◌};
ghost use Rattle.std.specs.Option.{option_map};
ghost use Rattle.activations.specs.Below.{array_vec_len, cycle_of, has, sitter, victim_of};

use super::activations::Activations;
use super::tally::Tally;
use arrayvec::ArrayVec;
use desk::{Cycle, TurnEnd};

impl Activations {
    ghost use Rattle.activations.specs.Words.{AreAwaited, Disputes, IsActivitySound, Settles};

    /// Who sits in a seat waits, and each cycle of waits from it is broken by rolling its victim back. Nothing is returned
    /// where nobody holds any more what it asks for.
    pub fn contend(&mut self, seat: u8, tally: &mut Tally) -> Result<(), TurnEnd>
        requires taken { has self.old.seating.taken seat ≡ true }
        requires waits { IsSome (sitter self.old.seating seat).waits }
        requires room { array_vec_len tally.old.cycles + length self.old.seating.taken ≤ 16 }
        ensures { Disputes (Settles seat) seat self.old self.new tally.old tally.new result }
    {
        self.sound();
        let number = self.sitter(seat).number;
        while let Some(members) = self.cycle_from(seat) {
            let victim = greatest(&members);
            let Some(loser) = self.seat_of(victim) else {
                break;
            };
            tally.cycles.push(Cycle { members });
            self.roll_back(loser);
            if victim == number {
                return Err(TurnEnd::Victim);
            }
        }
        let holders = self.awaited(seat);
        if holders.is_empty() {
            Ok(())
        } else {
            Err(TurnEnd::Waits(number, holders))
        }
    }

    /// The numbers along the cycle of waits from a taken seat, if there is one.
    fn cycle_from(&self, seat: u8) -> Option<ArrayVec<u32, 17>>
        requires { has self.now.seating.taken seat ≡ true }
        ensures cycle { option_map (λ cycle. cycle.items) result ≡ cycle_of self.now.seating seat }
        ensures sound { IsActivitySound self.now }
    {
        self.seats.cycle_from(seat)
    }

    /// The numbers of those that who sits in a seat waits for, ascending.
    fn awaited(&self, seat: u8) -> ArrayVec<u32, 16>
        requires seat { seat < 16 }
        ensures { AreAwaited self.now seat result.items }
    {
        match &self.seats.sitter(seat).waits {
            Some(request) => self.seats.holders(seat, request),
            None => ArrayVec::new(),
        }
    }
}

/// The greatest of some numbers: the victim of a cycle.
fn greatest(numbers: &ArrayVec<u32, 17>) -> u32
    ensures { result ≡ victim_of numbers.now.items }
{
    let mut greatest = 0;
    for number in numbers.as_slice() {
        if *number > greatest {
            greatest = *number;
        }
    }
    greatest
}
