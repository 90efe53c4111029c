// The private storage of sixteen seats, and which of them is selected.
ghost use Rattle.std.specs.Prelude.{◌≡◌, ℕ, List, None, ◌+◌, ◌<◌, ◌≤◌, ◌-◌, ◌++◌, false, true, length, slice_index, slice_index_or, replicate};
ghost use Rattle.storage_unit.specs.Below.{IsOfTable, key_in, key_to, look_up, Pair};
ghost use Rattle.storage_unit.specs.Held.{AreReached, first_keys, with_keys};

use super::page_moves::clear_frame;
use super::sizes::{first_frame, seat_pages};
use super::stored_over::forget_unless;
use super::unit::Unit;
use page_table::{SegmentRegs, Table, Tlb};

/// The segment of the private storage of seat 0; those of a store are below it.
pub const PRIVATE: u16 = 3840;

impl Unit {
    ghost use Rattle.storage_unit.specs.Served.{seat_begun, seat_ended, selected};
    ghost use Rattle.storage_unit.specs.View.{reach_of};

    /// A seat that isn't begun is begun: its private storage is an image and zeros after it.
    pub fn begin(&mut self, seat: u8, image: &[u8])
        requires seat { seat < 16 }
        requires image { length image.now ≤ 16384 }
        requires fresh { slice_index_or (reach_of self.old).begun seat true ≡ false }
        ensures { reach_of self.new ≡ seat_begun (reach_of self.old) seat image.now }
    {
        let page = self.directory.page();
        enter_pages(
            &mut self.table,
            first_frame(page, seat),
            seat_pages(page),
            PRIVATE + u16::from(seat),
        );
        self.rows.forget();
        self.lines.forget();
        let place = usize::from(seat);
        let used = self.used[place] as usize;
        lay_image(self.pool.private_mut(seat), image, used);
        self.used[place] = image.len() as u32;
        self.begun[place] = true;
    }

    /// A seat is begun no more. If it was selected, no address is reached until the next one is.
    pub fn end(&mut self, seat: u8)
        requires { seat < 16 }
        ensures { reach_of self.new ≡ seat_ended (reach_of self.old) seat }
    {
        let page = self.directory.page();
        leave_pages(
            &mut self.table,
            &mut self.buffer,
            first_frame(page, seat),
            seat_pages(page),
        );
        self.lines.forget();
        self.begun[usize::from(seat)] = false;
        if self.runner == seat + 1 {
            self.rows.forget();
            self.registers = SegmentRegs::none(page);
            self.runner = 0;
        }
    }

    /// From now on the unit is, as a storage, what a seat that is begun reaches through these registers, with its number and
    /// one more as its identifier.
    pub fn select(&mut self, seat: u8, regs: &SegmentRegs)
        requires seat { seat < 16 }
        requires begun { slice_index_or (reach_of self.old).begun seat false ≡ true }
        requires registers { AreReached (reach_of self.old).directory seat regs.now }
        ensures { reach_of self.new ≡ selected (reach_of self.old) seat regs.now }
    {
        forget_unless(&mut self.rows, &mut self.lines, self.runner == seat + 1);
        self.registers = *regs;
        self.runner = seat + 1;
    }
}

/// So many pages of a private segment are in the table, in frames from a first on.
fn enter_pages(table: &mut Table, first: u16, count: u16, segment: u16)
    requires few { (first ≤ 120) × (count ≤ 8) }
    requires room { first + count ≤ length table.old.keys }
    requires free { (index : ℕ) → index < count → key_in table.old.keys (first + index) ≡ None }
    requires absent { (page : ℕ) → page < count → look_up table.old.keys (key_to segment page) ≡ None }
    ensures table { table.new ≡ with_keys table.old first (first_keys segment count) }
    ensures of_table { (classes : List (List Pair)) → IsOfTable classes table.old.keys → IsOfTable classes table.new.keys }
{
    for index in 0..count {
        table.enter(first + index, segment, u32::from(index));
    }
}

/// So many frames from a first on hold nothing, and the buffer forgets them.
fn leave_pages(table: &mut Table, buffer: &mut Tlb, first: u16, count: u16)
    requires few { (first ≤ 120) × (count ≤ 8) }
    requires room { first + count ≤ length table.old.keys }
    requires of_table { IsOfTable buffer.old table.old.keys }
    ensures table { table.new ≡ with_keys table.old first (replicate count None) }
    ensures of_table { IsOfTable buffer.new table.new.keys }
{
    for index in 0..count {
        clear_frame(table, buffer, first + index);
    }
}

/// Bytes become those of an image, and zeros after it. After those that were used they are zeros already.
fn lay_image(bytes: &mut [u8], image: &[u8], used: usize)
    requires image { length image.now ≤ length bytes.old }
    requires used { used ≤ length bytes.old }
    requires clear { (offset : ℕ) → used ≤ offset → slice_index bytes.old offset ≡ 0 }
    ensures { bytes.new ≡ image.now ++ replicate (length bytes.old - length image.now) 0 }
{
    let (front, back) = bytes.split_at_mut(image.len());
    front.copy_from_slice(image);
    clear_front(back, used.saturating_sub(image.len()));
}

/// Bytes become zeros, of which so many may be others.
fn clear_front(bytes: &mut [u8], count: usize)
    requires few { count ≤ length bytes.old }
    requires clear { (offset : ℕ) → count ≤ offset → slice_index bytes.old offset ≡ 0 }
    ensures { bytes.new ≡ replicate (length bytes.old) 0 }
{
    bytes[..count].fill(0);
}
