ghost use Rattle.std.specs.Prelude.{◌≡◌, ◌+◌, ◌<◌, ◌≤◌, ◌^◌, ◌↔◌, None, length, All, IfOk, true};
ghost use Rattle.std.specs.Option.{option_map_or};
ghost use Rattle.lines.specs.Sets.{has};
ghost use Rattle.seats.specs.Held.{AreWithin};
ghost use Rattle.seats.specs.Holding.{IsWholeHolding, nothing_held};
ghost use Rattle.seats.specs.Seating.{IsSeating, newcomer, sitter, number_in, numbers_seated, seat_of, nobody_sits, next_seat, seated, seat_left, went_on, waiting_for, took};

use super::line_locks::Locks;
use super::request::Request;
use super::seat::Seat;
use arrayvec::ArrayVec;
use std::alloc::{AllocError, Global};
use std::marker::Model;

/// The number of seats.
const SEATS: u8 = 16;

/// Sixteen seats, seen as those that are taken in the order in which their activations began, who sits in each, and what
/// each holds (docs/MODEL.md).
#[derive(Drop)]
pub struct Seats {
    taken: ArrayVec<u8, 16>,
    sitters: Vec<Seat>,
    locks: Locks,
}

impl Model for Seats {
    ghost use Rattle.seats.specs.Seating.{Seating, IsSeating};

    ghost Value = { Seating };

    ghost view = { λ seats. record { taken = seats.taken.items; sitters = seats.sitters.items; holding = seats.locks } };

    ghost invariant = { λ seats. IsSeating (record { taken = seats.taken.items; sitters = seats.sitters.items; holding = seats.locks }) };
}

impl Seats {
    /// Sixteen free seats for a store with so many pages. It takes all memory that they will need, or fails for want of it.
    pub fn new(alloc: Global, pages: u16) -> Result<Seats, AllocError>
        ensures { IfOk result (λ seats. seats ≡ nobody_sits pages) }
    {
        let mut sitters = Vec::with_capacity(alloc, usize::from(SEATS))?;
        for _ in 0..SEATS {
            sitters.push(Seat::newcomer(0, 0, [0; 4]))?;
        }
        Ok(Seats {
            taken: ArrayVec::new(),
            sitters,
            locks: Locks::new(alloc, pages)?,
        })
    }

    /// The seats that are taken, in the order in which their activations began.
    #[inline(always)]
    pub fn taken(&self) -> &[u8]
        ensures taken { result.now ≡ self.now.taken }
        ensures sound { IsSeating self.now }
    {
        &self.taken
    }

    /// Who sits in a seat.
    #[inline(always)]
    pub fn sitter(&self, seat: u8) -> &Seat
        requires { seat < 16 }
        ensures { result.now ≡ sitter self.now seat }
    {
        &self.sitters[usize::from(seat)]
    }

    /// What each seat holds.
    #[inline(always)]
    pub fn locks(&self) -> &Locks
        ensures { result.now ≡ self.now.holding }
    {
        &self.locks
    }

    /// The numbers of the activations in the taken seats, ascending.
    pub fn numbers(&self) -> ArrayVec<u32, 16>
        ensures { result.items ≡ numbers_seated self.now }
    {
        let mut numbers = ArrayVec::new();
        for seat in self.taken() {
            numbers.push(self.sitter(*seat).number);
        }
        numbers
    }

    /// The taken seat in which the activation with this number sits. None exactly where no such activation is active.
    pub fn seat_of(&self, number: u32) -> Option<u8>
        ensures { result ≡ seat_of self.now number }
    {
        for seat in self.taken() {
            if self.sitter(*seat).number == number {
                return Some(*seat);
            }
        }
        None
    }

    /// An activation begins in the lowest free seat. None, and nothing changes, exactly where all sixteen are taken.
    pub fn sit(&mut self, number: u32, program: u16, args: [u32; 4]) -> Option<u8>
        requires { All (λ seat. number_in self.old seat < number) self.old.taken }
        ensures seat { result ≡ next_seat self.old }
        ensures full { (result ≡ None) ↔ (16 ≤ length self.old.taken) }
        ensures seated { self.new ≡ option_map_or (λ seat. seated self.old seat (newcomer number program args)) result self.old }
    {
        let seat = self.next_seat()?;
        self.sitters[usize::from(seat)] = Seat::newcomer(number, program, args);
        self.taken.push(seat);
        Some(seat)
    }

    /// The lowest free seat.
    fn next_seat(&self) -> Option<u8>
        ensures { result ≡ next_seat self.now }
    {
        for seat in 0..SEATS {
            if !self.taken.contains(&seat) {
                return Some(seat);
            }
        }
        None
    }

    /// Who sits in a seat leaves it, and holds nothing any more.
    pub fn leave(&mut self, seat: u8)
        requires { seat < 16 }
        ensures { self.new ≡ seat_left self.old seat }
    {
        self.taken.retain(|other| *other != seat);
        self.locks.release(seat);
    }

    /// Who sits in a seat has done so many rows more, and waits for nothing.
    #[inline]
    pub fn go_on(&mut self, seat: u8, rows: u32)
        requires seat { seat < 16 }
        requires rows { (sitter self.old seat).rows + rows < 2 ^ 64 }
        ensures { self.new ≡ went_on self.old seat rows }
    {
        let who = &mut self.sitters[usize::from(seat)];
        who.rows += u64::from(rows);
        who.waits = None;
    }

    /// Who sits in a seat waits for this.
    pub fn wait(&mut self, seat: u8, request: Request)
        requires seat { seat < 16 }
        requires pages { AreWithin self.old.holding.pages request.wants.items }
        ensures { self.new ≡ waiting_for self.old seat request }
    {
        self.sitters[usize::from(seat)].waits = Some(request);
    }

    /// A taken seat holds what a request wants too.
    #[inline(always)]
    pub fn take(&mut self, seat: u8, request: &Request)
        requires taken { has self.old.taken seat ≡ true }
        requires pages { AreWithin self.old.holding.pages request.now.wants.items }
        ensures { self.new ≡ took self.old seat request.now.wants.items }
    {
        self.locks.take(seat, request);
    }
}
