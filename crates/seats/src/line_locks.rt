ghost use Rattle.std.specs.Prelude.{◌≡◌, ◌<◌, ℕ, length, IfOk};
ghost use Rattle.lines.specs.Sets.{has, size};
ghost use Rattle.seats.specs.Counted.{Ascend};
ghost use Rattle.seats.specs.Held.{holds_some, write_count, AreWithin};
ghost use Rattle.seats.specs.Holding.{IsWholeHolding, of_seat, nothing_held, held_at, is_in_conflict, bits_of_seats, taken, released};
ghost use Rattle.lines.specs.LineSets.{passing};

use super::request::Request;
use super::seat_lines::SeatLines;
use lines::LineSet;
use std::alloc::{AllocError, Global};
use std::marker::Model;

/// The number of seats.
const SEATS: u8 = 16;

/// The lines of a store that each of sixteen seats holds, seen as the number of the store's pages and, seat by seat, what it
/// holds of each page (docs/MODEL.md).
#[derive(Drop)]
pub struct Locks {
    pages: u16,
    seats: Vec<SeatLines>,
}

impl Model for Locks {
    ghost use Rattle.seats.specs.Holding.{Holding, IsWholeHolding};

    ghost Value = { Holding };

    ghost view = { λ locks. record { pages = locks.pages; seats = locks.seats.items } };

    ghost invariant = { λ locks. IsWholeHolding (record { pages = locks.pages; seats = locks.seats.items }) };
}

impl Locks {
    /// Sixteen seats that hold nothing of a store with so many pages. It takes all memory that the locks will need,
    /// or fails for want of it.
    pub fn new(alloc: Global, pages: u16) -> Result<Locks, AllocError>
        ensures { IfOk result (λ locks. locks ≡ nothing_held pages) }
    {
        let mut seats = Vec::with_capacity(alloc, usize::from(SEATS))?;
        for _ in 0..SEATS {
            seats.push(SeatLines::new(alloc, pages)?)?;
        }
        Ok(Locks { pages, seats })
    }

    /// The number of the store's pages.
    pub fn pages(&self) -> u16
        ensures value { result ≡ self.now.pages }
        ensures whole { IsWholeHolding self.now }
    {
        self.pages
    }

    /// The lines of a page that a seat holds: those to read and those to write.
    #[inline(always)]
    pub fn held(&self, seat: u8, page: u16) -> (LineSet, LineSet)
        requires seat { seat < 16 }
        requires page { page < self.now.pages }
        ensures { result ≡ held_at self.now seat page }
    {
        self.seats[usize::from(seat)].held(page)
    }

    /// The pages of which a seat holds something, ascending.
    pub fn held_pages(&self, seat: u8) -> &[u16]
        requires { seat < 16 }
        ensures each { (page : ℕ) → has result.now page ≡ holds_some (held_at self.now seat page) }
        ensures once { size result.now ≡ length result.now }
        ensures ascending { Ascend result.now }
    {
        self.seats[usize::from(seat)].held_pages()
    }

    /// The other seats with which a request of a seat conflicts, as the number in which their bits are on.
    pub fn conflicts(&self, seat: u8, request: &Request) -> u16
        requires { AreWithin self.now.pages request.now.wants.items }
        ensures { result ≡ bits_of_seats (passing 16 (is_in_conflict self.now seat request.now.wants.items)) }
    {
        let mut bits = 0;
        for other in 0..SEATS {
            if self.is_in_conflict(other, seat, request) {
                bits |= 1 << other;
            }
        }
        bits
    }

    /// Whether a seat is another than the one that asks, and holds something with which its request conflicts.
    #[inline(always)]
    pub fn is_in_conflict(&self, other: u8, seat: u8, request: &Request) -> bool
        requires other { other < 16 }
        requires pages { AreWithin self.now.pages request.now.wants.items }
        ensures { result ≡ is_in_conflict self.now seat request.now.wants.items other }
    {
        other != seat && self.seats[usize::from(other)].conflicts(request)
    }

    /// A seat holds what a request wants too, also where that conflicts.
    #[inline(always)]
    pub fn take(&mut self, seat: u8, request: &Request)
        requires seat { seat < 16 }
        requires pages { AreWithin self.old.pages request.now.wants.items }
        ensures { self.new ≡ taken self.old seat request.now.wants.items }
    {
        self.seats[usize::from(seat)].take(request);
    }

    /// A seat holds nothing any more.
    pub fn release(&mut self, seat: u8)
        requires { seat < 16 }
        ensures { self.new ≡ released self.old seat }
    {
        self.seats[usize::from(seat)].release();
    }

    /// The number of lines that a seat holds to write, over all pages. It is kept, and not counted anew.
    #[inline(always)]
    pub fn written_lines(&self, seat: u8) -> u32
        requires { seat < 16 }
        ensures { result ≡ write_count (of_seat self.now seat) }
    {
        self.seats[usize::from(seat)].written()
    }
}
