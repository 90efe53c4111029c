// The lines of the store that an access touches, and the most that are written.
ghost use Rattle.std.specs.Prelude.{◌≡◌, ◌<◌, ◌≤◌, true, length};
ghost use Rattle.activations.specs.Below.{difference, has, lines_wanted, located_by, page_count};
ghost use Rattle.activations.specs.Words.{AreWanted, held_to_write, IsActivitySound, KeepsLimit, lines_accessed, lines_with, live_in, wants_of, wrote};

use super::activations::Activations;
use super::touched_lines::TouchedLines;
use desk::TurnEnd;
use page_table::{Check, Virtual};
use romp_cpu::Access;
use seats::Want;
use storage_unit::PRIVATE;

impl Activations {
    /// The lines of the store that an access of who sits in a seat touches.
    #[inline(always)]
    pub(super) fn touch_of(&self, seat: u8, access: Access) -> TouchedLines
        requires taken { has self.now.seating.taken seat ≡ true }
        requires some { 0 < access.bytes }
        requires few { access.bytes ≤ 64 }
        ensures lines { lines_wanted (wants_of result) ≡ lines_accessed self.now seat access }
        ensures wanted { AreWanted self.now.reach.directory (wants_of result) }
        ensures sound { IsActivitySound self.now }
    {
        let directory = self.unit.directory();
        let Ok(first) = self.locate(seat, access) else {
            return TouchedLines::Nothing;
        };
        if first.segment >= PRIVATE {
            TouchedLines::Nothing
        } else {
            let place = directory.start_of(first.segment) + access.address % 0x1000_0000;
            let end = place + u32::from(access.bytes) - 1;
            TouchedLines::between(
                directory.line_of(place),
                directory.line_of(end),
                access.store,
            )
        }
    }

    /// Where an access of who sits in a seat lies.
    #[inline(always)]
    pub(super) fn locate(&self, seat: u8, access: Access) -> Result<Virtual, Check>
        requires taken { has self.now.seating.taken seat ≡ true }
        ensures { result ≡ located_by (live_in self.now seat).registers access.address access.bytes access.store }
    {
        self.is_seat(seat);
        let registers = &self.live[usize::from(seat)].registers;
        registers.locate(access.address, u32::from(access.bytes), access.store)
    }

    /// Who sits in a seat is rolled back where his record would have too many lines.
    ///
    /// # Errors
    ///
    /// [`TurnEnd::Journal`] exactly where they are more than a record may have.
    #[inline(always)]
    pub(super) fn keep_limit(&mut self, seat: u8, touch: &TouchedLines) -> Result<(), TurnEnd>
        requires taken { has self.old.seating.taken seat ≡ true }
        requires wanted { AreWanted self.old.reach.directory (wants_of touch.now) }
        ensures { KeepsLimit seat (wants_of touch.now) self.old self.new result }
    {
        let most = self.most_lines;
        let lines = self.lines_with(seat, touch);
        if lines > most {
            self.roll_back(seat);
            Err(TurnEnd::Journal(lines, most))
        } else {
            Ok(())
        }
    }

    /// How many lines who sits in a seat will have written, with those of a touch.
    #[inline(always)]
    fn lines_with(&self, seat: u8, touch: &TouchedLines) -> u32
        requires seat { seat < 16 }
        requires wanted { AreWanted self.now.reach.directory (wants_of touch.now) }
        ensures { result ≡ lines_with self.now seat (wants_of touch.now) }
    {
        let held = self.held_lines(seat);
        match touch {
            TouchedLines::Nothing => held,
            TouchedLines::One(only) => held + self.new_lines(seat, only),
            TouchedLines::Two(first, second) => {
                held + (self.new_lines(seat, first) + self.new_lines(seat, second))
            }
        }
    }

    /// How many lines a seat holds to write.
    #[inline(always)]
    fn held_lines(&self, seat: u8) -> u32
        requires seat { seat < 16 }
        ensures value { result ≡ held_to_write self.now seat }
        ensures few { result ≤ 16384 }
        ensures sound { IsActivitySound self.now }
    {
        self.seats.locks().written_lines(seat)
    }

    /// How many of the lines that are wanted of a page to write a seat doesn't hold to write yet.
    #[inline(always)]
    fn new_lines(&self, seat: u8, want: &Want) -> u32
        requires seat { seat < 16 }
        requires page { want.now.page < page_count self.now.reach.directory }
        ensures value { result ≡ length (difference want.now.writes (wrote self.now seat want.now.page)) }
        ensures few { result ≤ 16 }
    {
        let (_, writes) = self.seats.locks().held(seat, want.page);
        want.writes.difference(writes).count()
    }
}
