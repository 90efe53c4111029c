// What one seat holds.
ghost use Rattle.std.specs.Prelude.{slice_index_or, ◌≡◌, ◌<◌, ◌≤◌, ◌∷◌, ◌++◌, if◌then◌else◌, [], ℕ, true, false, All, length, replicate, sum_by, vec_len, IfOk};
ghost use Rattle.std.specs.Vec.{vec_capacity};
ghost use Rattle.std.specs.List.{list_any};
ghost use Rattle.std.specs.List.Sorted.{IsPermutation};
ghost use Rattle.lines.specs.LineSets.{IsOfPage};
ghost use Rattle.lines.specs.Sets.{has, meets};
ghost use Rattle.seats.specs.Counted.{AreListed, Ascend};
ghost use Rattle.seats.specs.Held.{nothing, of_page, holds_some, with_want, with_wants, conflicts_in, some_conflict, write_count, AreWithin};

use super::request::{Request, Want};
use lines::LineSet;
use std::alloc::{AllocError, Global};
use std::marker::Model;

/// The lines that a seat holds, seen as the list by page of those to read and those to write.
#[derive(Drop)]
pub struct SeatLines {
    pages: Vec<(LineSet, LineSet)>,
    held: Vec<u16>,
    written: u32,
}

impl Model for SeatLines {
    ghost use Rattle.std.specs.Prelude.{ℕ, List};
    ghost use Rattle.std.specs.Prelude.{◌≤◌, length};
    ghost use Rattle.std.specs.Vec.{vec_capacity};
    ghost use Rattle.seats.specs.Counted.{AreLinesCounted, AreListed, Ascend};

    ghost Value = { List (List ℕ × List ℕ) };

    ghost view = { λ seat. seat.pages.items };

    ghost invariant = { λ seat. AreLinesCounted seat.pages.items seat.written × AreListed seat.pages.items seat.held.items × (length seat.pages.items ≤ vec_capacity seat.held) × Ascend seat.held.items };
}

impl SeatLines {
    /// A seat that holds nothing of so many pages.
    pub fn new(alloc: Global, pages: u16) -> Result<SeatLines, AllocError>
        ensures { IfOk result (λ seat. seat ≡ replicate pages nothing) }
    {
        Ok(SeatLines {
            pages: vec![in alloc; (LineSet::none(), LineSet::none()); usize::from(pages)]?,
            held: Vec::with_capacity(alloc, usize::from(pages))?,
            written: 0,
        })
    }

    /// The lines of a page that it holds, to read and to write.
    #[inline(always)]
    pub fn held(&self, page: u16) -> (LineSet, LineSet)
        requires { page < length self.now }
        ensures { result ≡ of_page self.now page }
    {
        self.pages[usize::from(page)]
    }

    /// The pages of which it holds something, ascending.
    pub fn held_pages(&self) -> &[u16]
        ensures listed { AreListed self.now result.now }
        ensures ascending { Ascend result.now }
    {
        let _pages = &self.pages;
        &self.held
    }

    /// The number of lines that it holds to write.
    #[inline(always)]
    pub fn written(&self) -> u32
        ensures { result ≡ write_count self.now }
    {
        self.written
    }

    /// Whether a request conflicts with what it holds.
    #[inline]
    pub fn conflicts(&self, request: &Request) -> bool
        requires { AreWithin (length self.now) request.now.wants.items }
        ensures { result ≡ some_conflict self.now request.now.wants.items }
    {
        if self.held.is_empty() {
            return false;
        }
        for want in request.wants.as_slice() {
            if is_in_conflict(want, self.held(want.page)) {
                return true;
            }
        }
        false
    }

    /// What a request wants is held too.
    #[inline]
    #[tactic(auto, using(std::proofs::lemmas::Grind::common_steps))]
    pub fn take(&mut self, request: &Request)
        requires { AreWithin (length self.old) request.now.wants.items }
        ensures value { self.new ≡ with_wants self.old request.now.wants.items }
        ensures long { length self.new ≡ length self.old }
    {
        for want in request.wants.as_slice() {
            self.add(want);
        }
    }

    /// What is wanted of a page is held too.
    #[inline]
    #[tactic(auto, using(crate::proofs::ListedLemmas::all_few))]
    fn add(&mut self, want: &Want)
        requires { want.now.page < length self.old }
        ensures { self.new ≡ with_want self.old want.now }
    {
        let page = usize::from(want.page);
        let (reads, writes) = self.pages[page];
        let together = writes.union(want.writes);
        let all = reads.union(want.reads);
        let is_first = !holds_some(reads, writes) & holds_some(all, together);
        self.pages[page] = (all, together);
        self.written = self.written - writes.count() + together.count();
        list_if(is_first, &mut self.held, want.page);
    }

    /// Nothing is held any more.
    pub fn release(&mut self)
        ensures { self.new ≡ replicate (length self.old) nothing }
    {
        clear(&mut self.pages, &self.held);
        self.held.clear();
        self.written = 0;
    }
}

/// Lists a page among those that ascend, where it is the first time that something is held of it.
#[inline]
fn list_if(is_first: bool, list: &mut Vec<u16>, page: u16)
    requires room { is_first ≡ true → vec_len list.old < vec_capacity list.old }
    requires absent { is_first ≡ true → has list.old.items page ≡ false }
    requires ascending { Ascend list.old.items }
    ensures listed { IsPermutation (if is_first then list.old.items ++ page ∷ [] else list.old.items) list.new.items }
    ensures ascending { Ascend list.new.items }
    ensures capacity { vec_capacity list.old ≤ vec_capacity list.new }
{
    if is_first {
        let at = place_of(list, page);
        let _room = list.insert(at, page);
    }
}

/// Where a page belongs among those that ascend.
fn place_of(list: &[u16], page: u16) -> usize
    requires { Ascend list.now }
    ensures within { result ≤ length list.now }
    ensures before { (k d : ℕ) → k < result → slice_index_or list.now k d < page }
    ensures behind { (k d : ℕ) → result ≤ k → k < length list.now → page ≤ slice_index_or list.now k d }
{
    match list.binary_search(&page) {
        Ok(at) => at,
        Err(at) => at,
    }
}

/// Nothing is held any more of the listed pages.
fn clear(pages: &mut Vec<(LineSet, LineSet)>, list: &[u16])
    requires { All (λ page. page < vec_len pages.old) list.now }
    ensures long { vec_len pages.new ≡ vec_len pages.old }
    ensures listed { (page : ℕ) → has list.now page ≡ true → of_page pages.new.items page ≡ nothing }
    ensures others { (page : ℕ) → has list.now page ≡ false → of_page pages.new.items page ≡ of_page pages.old.items page }
{
    for page in list {
        pages[usize::from(*page)] = (LineSet::none(), LineSet::none());
    }
}

/// Whether something is held of a page.
#[inline]
fn holds_some(reads: LineSet, writes: LineSet) -> bool
    ensures value { result ≡ holds_some (reads, writes) }
    ensures reads { IsOfPage reads }
    ensures writes { IsOfPage writes }
{
    let (no_reads, no_writes) = (reads.is_empty(), writes.is_empty());
    !no_reads || !no_writes
}

/// Whether what is wanted of a page conflicts with what is held of it.
#[inline]
#[tactic(auto, using(crate::proofs::MeetsLemmas::meets_append))]
fn is_in_conflict(want: &Want, held: (LineSet, LineSet)) -> bool
    ensures { result ≡ conflicts_in want.now held }
{
    let (reads, writes) = held;
    meets(want.writes, reads) || meets(want.writes, writes) || meets(want.reads, writes)
}

/// Whether some line is in both sets.
#[inline(always)]
fn meets(set: LineSet, other: LineSet) -> bool
    ensures { result ≡ meets set other }
{
    set.bits() & other.bits() != 0
}
