// The record of a commit.
ghost use Rattle.std.specs.Prelude.{[], ◌≡◌, ◌+◌, ◌*◌, ◌<◌, ◌≤◌, All, length, true, Some, IsSome, IsOk, OnOk, OnErr, IfErr};
ghost use Rattle.activations.specs.Below.{begun_of, flat_lines, has, most_lines, page_count, size, with_begun};
ghost use Rattle.activations.specs.Words.{HasWritten, held_to_write, IsItsStore, IsOver, IsRecordOf, LaidIsCommitted, locks_in, OverDesk, rolled, with_lines};

use super::activations::Activations;
use super::touched_lines::TouchedLines;
use desk::TurnEnd;
use frame_pool::FramePool;
use lines::LineSet;
use store::Durable;

impl Activations {
    /// Begins a record of the lines that who sits in a seat holds to write, ascending, with the bytes that all see there.
    ///
    /// # Errors
    ///
    /// [`TurnEnd::Journal`] exactly where they are more than a record may have: he is rolled back then, and the store is left
    /// alone.
    pub fn record(&mut self, seat: u8, store: &mut Durable) -> Result<(), TurnEnd>
        requires taken { has self.old.seating.taken seat ≡ true }
        requires store { IsItsStore store.old.header self.old }
        ensures kept { OnOk result (self.new ≡ self.old) }
        ensures begun { OnOk result (store.new ≡ with_begun store.old (begun_of store.new.bank)) }
        ensures record { OnOk result (IsRecordOf self.old seat (begun_of store.new.bank)) }
        ensures count { OnOk result (length (begun_of store.new.bank) ≡ held_to_write self.old seat) }
        ensures few { OnOk result (length (begun_of store.new.bank) ≤ self.old.most_lines) }
        ensures laid { OnOk result (LaidIsCommitted self.old seat (begun_of store.new.bank)) }
        ensures journal { IfErr result (IsOver (held_to_write self.old seat) self.old.most_lines) }
        ensures rolled { OnErr result (self.new ≡ rolled self.old seat self.new.reach.pool) }
        ensures unwritten { OnErr result (store.new ≡ store.old) }
        ensures never { OverDesk self.old (λ committed. IsOk result) }
    {
        let _ = &self.unit;
        match self.keep_limit(seat, &TouchedLines::Nothing) {
            Err(end) => Err(end),
            Ok(()) => {
                store.record_start();
                self.record_written(seat, store);
                Ok(())
            }
        }
    }

    /// The lines that a seat holds to write come into the record that is begun, page by page.
    fn record_written(&self, seat: u8, store: &mut Durable)
        requires seat { seat < 16 }
        requires directory { store.old.header.directory ≡ self.now.reach.directory }
        requires begun { store.old.bank.begun ≡ Some [] }
        requires few { size (locks_in self.now seat).writes ≤ most_lines store.old.header }
        ensures { HasWritten self.now seat store.old store.new }
    {
        let locks = self.seats.locks();
        for page in locks.held_pages(seat) {
            let (_, writes) = locks.held(seat, *page);
            record_lines(self.unit.pool(), *page, writes, store);
        }
    }
}

/// These lines of a page come into the record that is begun.
fn record_lines(pool: &FramePool, page: u16, lines: LineSet, store: &mut Durable)
    requires page { page < length pool.now.frame_of }
    requires size { pool.now.page ≡ store.old.header.directory.page }
    requires below { page < page_count store.old.header.directory }
    requires begun { IsSome store.old.bank.begun }
    requires before { All (λ one. one.line < page * 16) (begun_of store.old.bank) }
    requires room { length (begun_of store.old.bank) + length lines ≤ most_lines store.old.header }
    ensures { store.new ≡ with_lines pool.now (flat_lines page lines) store.old }
{
    for line in lines.lines() {
        store.record_line(
            u32::from(page) * 16 + u32::from(line),
            pool.written_line(page, line),
        );
    }
}
