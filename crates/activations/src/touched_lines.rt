// The lines that an access touches, page by page.
ghost use Rattle.std.specs.Prelude.{[], ◌≡◌, ◌+◌, ◌/◌, ◌<◌, ◌≤◌, ◌^◌, ◌∷◌, map};
ghost use Rattle.activations.specs.Below.{AreOfPage, Layout, line_count, lines_wanted};
ghost use Rattle.activations.specs.Touched.{lines_between, wants_of, with_whole_page, AreWanted};

use arrayvec::ArrayVec;
use lines::{Directory, LineSet};
use seats::{Request, Want};

/// The lines of the store that one access touches, at most two, by their pages, ascending.
#[derive(Clone, Copy)]
pub enum TouchedLines {
    Nothing,
    One(Want),
    Two(Want, Want),
}

impl TouchedLines {
    /// The lines from a first to a last, which is the same or the next, to load from or to store to.
    #[inline(always)]
    pub fn between(first: u32, last: u32, store: bool) -> TouchedLines
        requires order { first ≤ last }
        requires near { last ≤ first + 1 }
        requires few { last < 2 ^ 20 }
        ensures lines { lines_wanted (wants_of result) ≡ lines_between first last store }
        ensures wanted { (layout : Layout) → last < line_count layout → AreWanted layout (wants_of result) }
    {
        if first / 16 == last / 16 {
            TouchedLines::One(want_of(first, last, store))
        } else {
            TouchedLines::Two(want_of(first, first, store), want_of(last, last, store))
        }
    }

    /// What is asked for: the same lines, with each that is written to read too, and all sixteen of each page that isn't fine
    /// and is written into.
    #[inline(always)]
    pub fn request(&self, directory: &Directory) -> Request
        ensures { result.wants.items ≡ map (with_whole_page directory.now) (wants_of self.now) }
    {
        let mut wants = ArrayVec::new();
        match self {
            TouchedLines::Nothing => {}
            TouchedLines::One(only) => wants.push(with_whole_page(directory, only)),
            TouchedLines::Two(first, second) => {
                wants.push(with_whole_page(directory, first));
                wants.push(with_whole_page(directory, second));
            }
        }
        Request { wants }
    }
}

/// The lines from a first to a last of one page.
#[inline(always)]
fn want_of(first: u32, last: u32, store: bool) -> Want
    requires order { first ≤ last }
    requires near { last ≤ first + 1 }
    requires one { first / 16 ≡ last / 16 }
    requires few { last < 2 ^ 20 }
    ensures page { result.page ≡ first / 16 }
    ensures lines { lines_wanted (result ∷ []) ≡ lines_between first last store }
    ensures sets { AreOfPage (result ∷ []) }
{
    let lines = LineSet::between((first % 16) as u8, (last % 16) as u8);
    let (reads, writes) = if store {
        (LineSet::none(), lines)
    } else {
        (lines, LineSet::none())
    };
    Want {
        page: (first / 16) as u16,
        reads,
        writes,
    }
}

/// The same lines of a page, and where one is written each of these to read, or all of the page if it isn't fine.
#[inline(always)]
fn with_whole_page(directory: &Directory, want: &Want) -> Want
    ensures { result ≡ with_whole_page directory.now want.now }
{
    if want.writes.is_empty() {
        return *want;
    }
    let reads = if directory.is_fine(want.page) {
        want.reads.union(want.writes)
    } else {
        LineSet::between(0, 15)
    };
    Want {
        page: want.page,
        reads,
        writes: want.writes,
    }
}
