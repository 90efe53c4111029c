// The newest place of each line of a store.
ghost use Rattle.std.specs.Prelude.{◌≡◌, ◌+◌, ◌/◌, ◌≤◌, ◌<◌, ◌^◌, ◌∷◌, [], length, None, Some, IfOk, IsSome, replicate, slice_index_or};
ghost use Rattle.store.specs.Below.{overlaid};
ghost use Rattle.store.specs.Places.{HaveNone, IsClearedAt};

use lines::OwnedList;
use std::alloc::{AllocError, Global};
use std::marker::Model;

/// The newest place of each line, none where no record has the line, seen as their list. Which pages have a line with a
/// place is kept beside it, so that the others need one look.
#[derive(Drop)]
pub struct Places {
    items: OwnedList<Option<u64>>,
    marked: OwnedList<bool>,
}

impl Model for Places {
    ghost use Rattle.std.specs.Prelude.{ℕ, List, Option};

    ghost Value = { List (Option ℕ) };

    ghost use Rattle.store.specs.Places.{AreMarked};

    ghost view = { λ places. places.items };

    ghost invariant = { AreMarked };
}

impl Places {
    /// So many lines without a place.
    pub fn none(alloc: Global, lines: usize) -> Result<Places, AllocError>
        requires { lines < 2 ^ 32 }
        ensures { IfOk result (λ places. places ≡ replicate lines None) }
    {
        let items = OwnedList::from_vec(vec![in alloc; None; lines]?);
        let marked = OwnedList::from_vec(vec![in alloc; false; lines / 16 + 1]?);
        Ok(Places { items, marked })
    }

    /// The number of lines.
    pub fn len(&self) -> usize
        ensures { result ≡ length self.now }
    {
        self.items.len()
    }

    /// The places.
    #[inline(always)]
    pub fn as_slice(&self) -> &[Option<u64>]
        ensures { result.now ≡ self.now }
    {
        self.items.as_slice()
    }

    /// Gives a line a place.
    pub fn write(&mut self, line: usize, place: u64)
        requires { line < length self.old }
        ensures value { self.new ≡ overlaid self.old line (Some place ∷ []) }
        ensures len { length self.new ≡ length self.old }
    {
        self.items.write(line, &[Some(place)]);
        self.marked.write(line / 16, &[true]);
    }

    /// The first line from one on that has a place; as many as there are where none has.
    pub fn first_from(&self, from: usize) -> usize
        requires { from ≤ length self.now }
        ensures least { from ≤ result }
        ensures within { result ≤ length self.now }
        ensures before { HaveNone self.now from result }
        ensures some { result < length self.now → IsSome (slice_index_or self.now result None) }
    {
        let mut line = from;
        while line < self.items.len() {
            if !self.marked.as_slice()[line / 16] {
                line += 16 - line % 16;
            } else if self.items.as_slice()[line].is_some() {
                return line;
            } else {
                line += 1;
            }
        }
        self.items.len()
    }

    /// Forgets all places.
    pub fn forget(&mut self)
        ensures { self.new ≡ replicate (length self.old) None }
    {
        for page in 0..self.marked.len() {
            if self.marked.as_slice()[page] {
                clear_page(&mut self.items, page);
                self.marked.write(page, &[false]);
            }
        }
    }
}

/// Takes the places of a page's lines away.
fn clear_page(items: &mut OwnedList<Option<u64>>, page: usize)
    requires few { length items.old < 2 ^ 32 }
    requires page { page ≤ length items.old / 16 }
    ensures len { length items.new ≡ length items.old }
    ensures cleared { IsClearedAt page items.old items.new }
{
    let first = page * 16;
    for line in first..(first + 16).min(items.len()) {
        items.write(line, &[None]);
    }
}
