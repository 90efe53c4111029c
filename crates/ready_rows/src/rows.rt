ghost use Rattle.std.specs.Prelude.{◌≡◌, ◌≢◌, ℕ, ◌+◌, ◌≤◌, ◌<◌, Some, option_map, vec_len, IfOk};
ghost use Rattle.flat_machine.specs.declared.ready.Ready.{Ready};
ghost use Rattle.ready_rows.specs.Places.{overlaps, row_in, row_place};

use super::place::Place;
use flat_machine::{Doing, Ready};
use std::alloc::{AllocError, Global};

/// Rows made ready, each at one of 512 places by its address. No row that is known is behind the top.
#[derive(Drop)]
pub struct ReadyRows {
    places: Vec<Place>,
    top: u32,
    ghost sized: { vec_len places ≡ 512 },
    ghost below: { (address : ℕ) (row : Ready) → row_in places.items address ≡ Some row → address < top },
}

impl ReadyRows {
    ghost use Rattle.ready_rows.specs.Known.{known, KnowsNoRow, unless_met, with_row, with_place, without_place};

    /// No row is known. It takes all memory that will be needed.
    ///
    /// # Errors
    ///
    /// There is no memory.
    #[tactic(auto, unfolding(crate::specs::Known::known))]
    pub fn new(alloc: Global) -> Result<ReadyRows, AllocError>
        ensures { IfOk result KnowsNoRow }
    {
        let row = Ready {
            doing: Doing::Stay,
            bytes: 2,
            b: 0,
            c: 0,
            i: 0,
        };
        let mut places = vec![in alloc; Place { row, at: 0 }; 512]?;
        places[0].at = elsewhere(0);
        Ok(ReadyRows { places, top: 0 })
    }

    /// The row that is known at an address.
    #[tactic(auto, unfolding(crate::specs::Known::known))]
    #[inline(always)]
    pub fn at(&self, address: u32) -> Option<&Ready>
        ensures { option_map (λ row. row.now) result ≡ known self.now address }
    {
        let place = &self.places[(address / 2 % 512) as usize];
        if place.at == u64::from(address) {
            Some(&place.row)
        } else {
            None
        }
    }

    /// A row is known at an address from now on. The one that was at its place is forgotten.
    #[tactic(auto, unfolding(crate::specs::Known::known))]
    #[inline]
    pub fn keep(&mut self, address: u32, row: Ready)
        requires { address < 16384 }
        ensures { (other : ℕ) → known self.new other ≡ with_row address row other (known self.old other) }
    {
        let at = u64::from(address);
        self.places[(address / 2 % 512) as usize] = Place { row, at };
        self.top = self.top.max(address + 1);
    }

    /// No row is known any more.
    #[tactic(auto, unfolding(crate::specs::Known::known))]
    #[inline]
    pub fn forget(&mut self)
        ensures { KnowsNoRow self.new }
    {
        if self.top == 0 {
            return;
        }
        let used = (self.top / 2 + 1).min(512);
        for index in 0..used {
            self.empty(index);
        }
        self.top = 0;
    }

    /// The rows that have one of so many bytes from an offset on are known no more; all others stay.
    #[inline(always)]
    pub fn drop_at(&mut self, offset: u32, bytes: u32)
        requires { offset + bytes ≤ 16384 }
        ensures { (address : ℕ) → known self.new address ≡ unless_met offset bytes address (known self.old address) }
    {
        let low = offset.saturating_sub(3);
        if low >= self.top {
            return;
        }
        self.drop_met(offset, bytes);
    }

    /// The same, place by place.
    #[inline(never)]
    fn drop_met(&mut self, offset: u32, bytes: u32)
        requires { offset + bytes ≤ 16384 }
        ensures { (address : ℕ) → known self.new address ≡ unless_met offset bytes address (known self.old address) }
    {
        let first = offset.saturating_sub(3) / 2;
        let end = (offset + bytes + 1) / 2;
        for half in first..end {
            self.drop_place(half % 512, offset, bytes);
        }
    }

    /// The same of the row at a place.
    #[tactic(auto, unfolding(crate::specs::Known::known))]
    #[inline(always)]
    fn drop_place(&mut self, index: u32, offset: u32, bytes: u32)
        requires place { index < 512 }
        requires few { offset + bytes ≤ 16384 }
        ensures { (address : ℕ) → known self.new address ≡ with_place index offset bytes address (known self.old address) }
    {
        let place = self.places[index as usize];
        if is_met(place.at, &place.row, offset, bytes) {
            self.empty(index);
        }
    }

    /// A place has no row.
    #[inline(always)]
    fn empty(&mut self, index: u32)
        requires { index < 512 }
        ensures known { (address : ℕ) → known self.new address ≡ without_place index address (known self.old address) }
        ensures top { self.new.top ≡ self.old.top }
    {
        self.places[index as usize].at = elsewhere(index);
    }
}

/// An address that is found at another place.
fn elsewhere(index: u32) -> u64
    ensures apart { row_place result ≢ index }
    ensures low { result < 16384 }
{
    if index == 0 { 2 } else { 0 }
}

/// Whether the row at an address has one of so many bytes from an offset on. A row of two bytes is looked at only where one of
/// four would have one of them.
#[inline(always)]
fn is_met(at: u64, row: &Ready, offset: u32, bytes: u32) -> bool
    requires few { offset + bytes ≤ 16384 }
    requires low { at < 16384 }
    ensures { result ≡ overlaps offset bytes at row.now }
{
    let past = (at + 3).wrapping_sub(u64::from(offset));
    past <= u64::from(bytes) + 2 && (past > 1 || row.is_long())
}
