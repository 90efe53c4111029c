// The entries of all pages of a store.
ghost use Rattle.std.specs.Prelude.{◌≡◌, ◌<◌, length, map, replicate, slice_index_or, slice_set, IfOk};
ghost use Rattle.page_table.specs.Placed.{cleared_entry, unowned};

use super::lockbit_rules::Authority;
use std::alloc::{AllocError, Global};
use std::marker::Model;

/// The entry of each page of the store, seen as their list. How many are of each identifier is kept beside them, so that
/// those of one that are found need no look at the others.
#[derive(Drop)]
pub struct PageEntries {
    items: Vec<Authority>,
    owned: Vec<usize>,
}

impl Model for PageEntries {
    ghost use Rattle.std.specs.Prelude.{List};
    ghost use Rattle.page_table.specs.declared.lockbit_rules.Authority.{Authority};

    ghost Value = { List Authority };

    ghost use Rattle.page_table.specs.PageEntries.{AreCounted};

    ghost view = { λ entries. entries.items.items };

    ghost invariant = { AreCounted };
}

impl PageEntries {
    /// So many entries, each nobody's.
    pub fn none(alloc: Global, pages: u16) -> Result<Self, AllocError>
        ensures { IfOk result (λ entries. entries ≡ replicate pages unowned) }
    {
        let items = nobodys(alloc, pages)?;
        let mut owned = zeros(alloc)?;
        owned[0] = usize::from(pages);
        Ok(PageEntries { items, owned })
    }

    /// The entry of a page.
    #[inline(always)]
    pub fn at(&self, page: u16) -> Authority
        requires { page < length self.now }
        ensures { result ≡ slice_index_or self.now page unowned }
    {
        self.items[usize::from(page)]
    }

    /// Another entry of a page.
    #[inline(always)]
    pub fn set(&mut self, page: u16, value: Authority)
        requires { page < length self.old }
        ensures { self.new ≡ slice_set self.old page value }
    {
        let place = usize::from(page);
        let before = place_of(self.items[place].tid);
        let after = place_of(value.tid);
        self.owned[before] -= 1;
        self.owned[after] += 1;
        self.items[place] = value;
    }

    /// Each entry of an identifier becomes nobody's. They are looked for among these pages first, and among all pages only
    /// where some are left.
    pub fn clear_among(&mut self, tid: u8, pages: &[u16])
        ensures { self.new ≡ map (cleared_entry tid) self.old }
    {
        for page in pages {
            self.clear_at(*page, tid);
        }
        self.clear(tid);
    }

    /// Each entry of an identifier becomes nobody's.
    pub fn clear(&mut self, tid: u8)
        ensures { self.new ≡ map (cleared_entry tid) self.old }
    {
        let place = place_of(tid);
        let count = self.owned[place];
        if count == 0 {
            return;
        }
        self.owned[place] = 0;
        self.owned[0] += count;
        clear_all(self.items.as_mut_slice(), tid);
    }

    /// The entry of a page becomes nobody's, if there is one and it is the identifier's.
    #[inline(always)]
    fn clear_at(&mut self, page: u16, tid: u8)
        ensures { map (cleared_entry tid) self.new ≡ map (cleared_entry tid) self.old }
    {
        if usize::from(page) < self.items.len() && self.at(page).tid == tid {
            self.set(page, Authority::NOBODY);
        }
    }
}

/// So many entries, each nobody's.
fn nobodys(alloc: Global, pages: u16) -> Result<Vec<Authority>, AllocError>
    ensures { IfOk result (λ list. list.items ≡ replicate pages unowned) }
{
    Ok(vec![in alloc; Authority::NOBODY; usize::from(pages)]?)
}

/// A count of 0 for each identifier.
fn zeros(alloc: Global) -> Result<Vec<usize>, AllocError>
    ensures { IfOk result (λ list. list.items ≡ replicate 256 0) }
{
    Ok(vec![in alloc; 0; 256]?)
}

/// Where the count of an identifier stands.
#[inline(always)]
fn place_of(tid: u8) -> usize
    ensures value { result ≡ tid }
    ensures small { result < 256 }
{
    usize::from(tid)
}

/// Each entry of an identifier becomes nobody's.
fn clear_all(entries: &mut [Authority], tid: u8)
    ensures { entries.new ≡ map (cleared_entry tid) entries.old }
{
    for entry in entries.iter_mut() {
        clear_one(entry, tid);
    }
}

/// An entry becomes nobody's, if it is the identifier's.
fn clear_one(entry: &mut Authority, tid: u8)
    ensures { entry.new ≡ cleared_entry tid entry.old }
{
    if entry.tid == tid {
        *entry = Authority::NOBODY;
    }
}
