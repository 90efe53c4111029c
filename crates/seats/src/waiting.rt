// Who waits for whom.
ghost use Rattle.std.specs.Prelude.{◌≡◌, ◌<◌, true, length, map};
ghost use Rattle.std.specs.Option.{option_map};
ghost use Rattle.lines.specs.Sets.{has};
ghost use Rattle.seats.specs.Rows.{AreOn, is_on};
ghost use Rattle.seats.specs.Held.{AreWithin};
ghost use Rattle.seats.specs.Seating.{IsSeating};
ghost use Rattle.seats.specs.Waiting.{AreWaits, holders, seat_waits, cycle_of, seat_at};

use super::request::Request;
use super::seats::Seats;
use super::wait_cycles::shown_cycle;
use arrayvec::ArrayVec;

impl Seats {
    /// The numbers of the activations with which a request of a seat conflicts, ascending.
    #[inline]
    pub fn holders(&self, seat: u8, request: &Request) -> ArrayVec<u32, 16>
        requires { AreWithin self.now.holding.pages request.now.wants.items }
        ensures { result.items ≡ holders self.now seat request.now.wants.items }
    {
        let mut holders = ArrayVec::new();
        for other in self.taken() {
            if self.locks().is_in_conflict(*other, seat, request) {
                holders.push(self.sitter(*other).number);
            }
        }
        holders
    }

    /// The shown cycle of waits from a taken seat, as the numbers of the activations in it: it begins with that one's, and
    /// ends with it where every cycle of waits goes through it. None exactly where no waits lead from it to itself.
    pub fn cycle_from(&self, seat: u8) -> Option<ArrayVec<u32, 17>>
        requires { has self.now.taken seat ≡ true }
        ensures { option_map (λ cycle. cycle.items) result ≡ cycle_of self.now seat }
    {
        let taken = self.taken();
        let places = shown_cycle(self.place_of(seat), &self.rows_of_waits())?;
        let mut cycle = ArrayVec::new();
        for place in places.as_slice() {
            cycle.push(self.sitter(taken[usize::from(*place)]).number);
        }
        Some(cycle)
    }

    /// The place of a taken seat among those that are taken.
    fn place_of(&self, seat: u8) -> u8
        requires { has self.now.taken seat ≡ true }
        ensures within { result < length self.now.taken }
        ensures there { seat_at self.now result ≡ seat }
    {
        let mut place = 0;
        for other in self.taken() {
            if *other == seat {
                return place;
            }
            place += 1;
        }
        place
    }

    /// For each place among the taken seats the bits of the places that the one there waits for.
    fn rows_of_waits(&self) -> ArrayVec<u16, 16>
        ensures long { length result.items ≡ length self.now.taken }
        ensures rows { AreWaits self.now result.items }
    {
        let mut rows = ArrayVec::new();
        for seat in self.taken() {
            rows.push(self.places_awaited(*seat));
        }
        rows
    }

    /// The bits of the places that the one in a seat waits for.
    fn places_awaited(&self, seat: u8) -> u16
        requires seat { seat < 16 }
        requires sound { IsSeating self.now }
        ensures { AreOn result self.now.taken (λ place. seat_waits self.now seat (seat_at self.now place)) }
    {
        match &self.sitter(seat).waits {
            Some(request) => self.places_of(self.locks().conflicts(seat, request)),
            None => 0,
        }
    }

    /// The bits of the places at which seats stand whose bits are on.
    fn places_of(&self, seats: u16) -> u16
        ensures { AreOn result self.now.taken (λ place. is_on seats (seat_at self.now place)) }
    {
        let mut places = 0;
        for (place, seat) in self.taken().iter().enumerate() {
            if is_on(seats, *seat) {
                places |= 1 << place;
            }
        }
        places
    }
}

/// Whether the bit of a seat is on.
fn is_on(bits: u16, seat: u8) -> bool
    requires { seat < 16 }
    ensures { result ≡ is_on bits seat }
{
    (bits >> seat) & 1 == 1
}
