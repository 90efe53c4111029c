// Pages in the order in which they came.
ghost use Rattle.std.specs.Prelude.{◌≡◌, ◌<◌, ◌≤◌, false, true, not, length, find, option_to_list, IfOk};
ghost use Rattle.frame_pool.specs.Below.{has};
ghost use Rattle.frame_pool.specs.Arrivals.{none_came, one_came, one_left};

use std::alloc::{AllocError, Global};
use std::marker::Model;

/// Some of so many pages, in the order in which they came: a ring of them and of one place more, where it begins and
/// ends. Each knows the one that came next and the one before it, so that a page comes and leaves with no search and
/// no move.
#[derive(Drop)]
pub struct Arrivals {
    pages: u16,
    count: u16,
    next: Vec<u16>,
    before: Vec<u16>,
}

impl Model for Arrivals {
    ghost use Rattle.frame_pool.specs.Arrivals.{Arrived};

    ghost Value = { Arrived };

    ghost use Rattle.frame_pool.specs.ArrivalsView.{arrivals_shown, IsRing};

    ghost view = { arrivals_shown };

    ghost invariant = { IsRing };
}

impl Arrivals {
    /// None of so many pages.
    pub fn none(alloc: Global, pages: u16) -> Result<Self, AllocError>
        ensures { IfOk result (λ new. new ≡ none_came pages) }
    {
        let places = usize::from(pages) + 1;
        Ok(Arrivals {
            pages,
            count: 0,
            next: vec![in alloc; pages; places]?,
            before: vec![in alloc; pages; places]?,
        })
    }

    /// How many there are.
    #[inline(always)]
    pub fn count(&self) -> u16
        ensures { result ≡ length self.now.order }
    {
        self.count
    }

    /// The first that isn't to stay.
    #[inline(always)]
    pub fn first_but(&self, keep: Option<u16>) -> Option<u16>
        ensures { result ≡ find (λ page. not (has (option_to_list keep) page)) self.now.order }
    {
        if self.count == 0 {
            return None;
        }
        let first = self.next[usize::from(self.pages)];
        if !is_to_stay(keep, first) {
            Some(first)
        } else if self.count == 1 {
            None
        } else {
            Some(self.next[usize::from(first)])
        }
    }

    /// A page that isn't among them comes, last.
    #[inline(always)]
    pub fn come(&mut self, page: u16)
        requires page { page < self.old.pages }
        requires absent { has self.old.order page ≡ false }
        requires few { length self.old.order < 65535 }
        ensures { self.new ≡ one_came self.old page }
    {
        let end = self.pages;
        let last = self.before[usize::from(end)];
        self.next[usize::from(last)] = page;
        self.before[usize::from(page)] = last;
        self.next[usize::from(page)] = end;
        self.before[usize::from(end)] = page;
        self.count += 1;
    }

    /// A page that is among them leaves.
    #[inline(always)]
    pub fn leave(&mut self, page: u16)
        requires { has self.old.order page ≡ true }
        ensures { self.new ≡ one_left self.old page }
    {
        let next = self.next[usize::from(page)];
        let before = self.before[usize::from(page)];
        self.next[usize::from(before)] = next;
        self.before[usize::from(next)] = before;
        self.count -= 1;
    }

    /// All of them, one after another.
    pub fn resident(&self) -> Resident<'_>
        ensures { result ≡ self.now.order }
    {
        Resident {
            next: &self.next,
            at: self.next[usize::from(self.pages)],
            count: self.count,
        }
    }
}

/// The resident pages that are left, in the order in which they came.
#[derive(Drop)]
pub struct Resident<'a> {
    next: &'a [u16],
    at: u16,
    count: u16,
}

impl<'a> Model for Resident<'a> {
    ghost use Rattle.std.specs.Prelude.{ℕ, List};

    ghost Value = { List ℕ };

    ghost use Rattle.frame_pool.specs.LeftView.{left_shown, HaveNext};

    ghost view = { left_shown };

    ghost invariant = { HaveNext };
}

impl<'a> Iterator for Resident<'a> {
    ghost use Rattle.std.specs.Iterator.{YieldsFirst, item_count};

    type Item = u16;

    ghost next_gives = { YieldsFirst (λ pages. pages) };

    ghost remaining = { item_count (λ pages. pages) };

    fn next(&mut self) -> Option<u16> {
        if self.count == 0 {
            return None;
        }
        let page = self.at;
        self.at = self.next[usize::from(page)];
        self.count -= 1;
        Some(page)
    }
}

/// Whether a page is to stay.
#[inline(always)]
fn is_to_stay(keep: Option<u16>, page: u16) -> bool
    ensures { result ≡ has (option_to_list keep) page }
{
    match keep {
        Some(stays) => stays == page,
        None => false,
    }
}
