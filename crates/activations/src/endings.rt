// How an activation ends.
ghost use Rattle.std.specs.Prelude.{◌≡◌, ◌<◌, true, false};
ghost use Rattle.activations.specs.Below.{has, IsWholeHolding, numbers_seated, page_count, reach_of, seat_of, sitter};
ghost use Rattle.activations.specs.Words.{EndsWritten, IsDeserted, IsRestarted, KeepsDesk, LeavesRolled, LeavesWritten, live_in, OverDesk, reprinted};

use super::activations::Activations;
use arrayvec::ArrayVec;
use flat_machine::Printed;
use seats::{Seat, Seats};
use std::mem::swap;
use storage_unit::Unit;

impl Activations {
    /// Who sits in a seat is rolled back: the pages that he wrote into go out, and the lines that he wrote are forgotten.
    pub fn roll_back(&mut self, seat: u8)
        requires taken { has self.old.seating.taken seat ≡ true }
        ensures { LeavesRolled self.old seat self.new }
    {
        self.end(seat, false);
    }

    /// What was written in a seat is committed now, and who sat in it has ended.
    pub fn commit(&mut self, seat: u8)
        requires taken { has self.old.seating.taken seat ≡ true }
        ensures { LeavesWritten self.old seat self.new }
    {
        self.end(seat, true);
    }

    /// All are rolled back, and no page is resident.
    pub fn forget(&mut self)
        ensures deserted { IsDeserted self.old self.new }
        ensures restarts { OverDesk self.old (IsRestarted self.old self.new) }
    {
        for seat in 0..16 {
            if self.seats.taken().contains(&seat) {
                self.roll_back(seat);
            }
        }
        self.unit.empty();
    }

    /// The numbers of those that are active, in the order in which they began.
    pub fn active(&self) -> ArrayVec<u32, 16>
        ensures { result.items ≡ numbers_seated self.now.seating }
    {
        self.seats.numbers()
    }

    /// The seat in which an activation sits. None exactly where it isn't active.
    pub fn seat_of(&self, activation: u32) -> Option<u8>
        ensures { result ≡ seat_of self.now.seating activation }
    {
        self.seats.seat_of(activation)
    }

    /// Who sits in a seat.
    pub fn sitter(&self, seat: u8) -> &Seat
        requires { seat < 16 }
        ensures { result.now ≡ sitter self.now.seating seat }
    {
        self.seats.sitter(seat)
    }

    /// Hands out what was printed in a seat in which nobody sits any more, for other bytes that stand there then.
    pub fn swap_printed(&mut self, seat: u8, out: &mut Printed)
        requires seat { seat < 16 }
        requires free { has self.old.seating.taken seat ≡ false }
        ensures out { out.new ≡ (live_in self.old seat).out }
        ensures left { self.new ≡ reprinted self.old seat out.old }
        ensures follows { OverDesk self.old (KeepsDesk self.new) }
    {
        swap(&mut self.live[usize::from(seat)].out, out);
    }

    /// Who sits in a seat has ended, with what he wrote committed or forgotten: the seat is free, its pages are nobody's, and
    /// its locks are released.
    #[inline(always)]
    fn end(&mut self, seat: u8, committed: bool)
        requires taken { has self.old.seating.taken seat ≡ true }
        ensures rolls { committed ≡ false → LeavesRolled self.old seat self.new }
        ensures commits { committed ≡ true → LeavesWritten self.old seat self.new }
    {
        self.is_seat(seat);
        end_written(&self.seats, &mut self.unit, seat, committed);
        let held = self.seats.locks().held_pages(seat);
        self.unit.clear_among(seat + 1, held);
        self.unit.end(seat);
        self.seats.leave(seat);
    }
}

/// The lines that a seat holds to write are marked no more where they are committed; else they are forgotten, and their
/// pages go out of their frames.
#[inline(always)]
fn end_written(seats: &Seats, unit: &mut Unit, seat: u8, committed: bool)
    requires seat { seat < 16 }
    requires whole { IsWholeHolding seats.now.holding }
    requires pages { seats.now.holding.pages ≡ page_count (reach_of unit.old).directory }
    ensures { EndsWritten committed seats.now.holding seat (reach_of unit.old) (reach_of unit.new) }
{
    let locks = seats.locks();
    for page in locks.held_pages(seat) {
        let (_, writes) = locks.held(seat, *page);
        if writes.is_empty() {
            continue;
        }
        if committed {
            unit.settle(*page, writes);
        } else {
            unit.undo(*page, writes);
        }
    }
}
