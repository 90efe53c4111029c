ghost use Rattle.std.specs.Prelude.{◌≡◌, ◌+◌, ◌*◌, ◌<◌, ◌≤◌, ◌==◌, if◌then◌else◌, [], false, true, length, vec_len, replicate, is_some, fold, slice_range, IfOk, IfSome};
ghost use Rattle.frame_pool.specs.Below.{between, has, overlaid, page_bytes, sem};
ghost use Rattle.frame_pool.specs.Sizes.{private_frames, frame_count, line_place, line_size};
ghost use Rattle.frame_pool.specs.Pool.{marked_with};

use super::arrivals::Resident;
use super::frame_bytes::FrameBytes;
use super::frame_places::FramePlaces;
use super::sizes::{line_bytes, line_place, page_bytes, page_place, private_frames};
use lines::{LineSet, OwnedList, PageSize};
use std::alloc::{AllocError, Global};
use std::marker::Model;

/// What bringing a page in came to: the frame that it is in, and the page that went out for it.
#[derive(Clone, Copy)]
pub struct Slot {
    pub frame: u16,
    pub out: Option<u16>,
}

/// A line of a frame.
#[derive(Clone, Copy)]
struct Spot {
    frame: u16,
    line: u8,
}

/// Frames for the private storage of sixteen seats and for pages of a store, and paging space for lines that are marked as
/// written and not in a frame (docs/MODEL.md). Private frames have the lowest numbers.
#[derive(Drop)]
pub struct FramePool {
    bytes: FrameBytes,
    places: FramePlaces,
    marked: Vec<LineSet>,
    kept: OwnedList<u8>,
}

impl Model for FramePool {
    ghost use Rattle.frame_pool.specs.declared.pool_model.Pool.{Pool};

    ghost Value = { Pool };

    ghost use Rattle.frame_pool.specs.View.{pool_shown, PoolHasSizes};

    ghost view = { pool_shown };

    ghost invariant = { PoolHasSizes };
}

/// So many times no line.
fn no_lines(alloc: Global, count: u16) -> Result<Vec<LineSet>, AllocError>
    ensures { IfOk result (λ list. list.items ≡ replicate count []) }
{
    Ok(vec![in alloc; LineSet::none(); usize::from(count)]?)
}

/// So many zeros.
fn zeros(alloc: Global, count: usize) -> Result<OwnedList<u8>, AllocError>
    ensures { IfOk result (λ list. list ≡ replicate count 0) }
{
    Ok(OwnedList::from_vec(vec![in alloc; 0; count]?))
}

impl FramePool {
    ghost use Rattle.frame_pool.specs.Pool.{Brought, fresh_pool, frame_at, page_at, marks_at, frame_part, frame_bytes, line_in_frame, line_kept, line_shown, gone, page_out, with_room, settled, page_undone, pool_emptied, kept_laid, line_laid, page_laid, page_start, lines_of_part};
    ghost use Rattle.frame_pool.specs.Seen.{IsSeen};
    ghost use Rattle.frame_pool.specs.PoolLending.{LendsFrame, LendsMarked};

    /// A pool with so many frames for pages of a store that has so many. No page is resident. It takes all memory that the
    /// pool will need, or fails for want of it.
    pub fn new(
        alloc: Global,
        page: PageSize,
        frames: u16,
        pages: u16,
    ) -> Result<FramePool, AllocError>
        requires some { 2 ≤ frames }
        requires few { frames ≤ 1024 }
        ensures value { IfOk result (λ pool. pool ≡ fresh_pool page frames pages) }
        ensures seen { IfOk result IsSeen }
    {
        Ok(FramePool {
            bytes: FrameBytes::zeros(alloc, page_place(page, private_frames(page) + frames))?,
            places: FramePlaces::new(alloc, page, frames, pages)?,
            marked: no_lines(alloc, pages)?,
            kept: zeros(alloc, page_place(page, pages))?,
        })
    }

    /// The resident pages, in the order in which they came.
    pub fn resident(&self) -> Resident<'_>
        ensures { result ≡ self.now.resident }
    {
        self.places.resident.resident()
    }

    /// The frame that a page is in: some frame of the store, exactly where the page is resident.
    #[inline(always)]
    #[tactic(auto, using(crate::proofs::PoolLemmas::frame_stored, std::proofs::lemmas::Bool::Decides::nat_tests))]
    pub fn frame_of(&self, page: u16) -> Option<u16>
        ensures value { result ≡ frame_at self.now page }
        ensures resident { is_some result ≡ has self.now.resident page }
        ensures above { IfSome result (λ frame. private_frames self.now.page ≤ frame) }
        ensures below { IfSome result (λ frame. frame < frame_count self.now.page self.now.frames) }
    {
        self.places.frame_of(page)
    }

    /// The page of the store in a frame, if there is one.
    #[inline(always)]
    pub fn page_in(&self, frame: u16) -> Option<u16>
        ensures { result ≡ page_at self.now frame }
    {
        self.places.page_in(frame)
    }

    /// The page that goes out for another: none while a frame is free, else the first that isn't to stay.
    #[inline(always)]
    pub fn page_out(&self, keep: Option<u16>) -> Option<u16>
        ensures { result ≡ page_out self.now keep }
    {
        self.places.goes_out(keep)
    }

    /// Brings in a page that isn't resident. It comes last; where no frame is free, the first page that isn't to stay goes
    /// out, and its marked lines are kept. What its frame held is still there: it is to be filled.
    #[inline(always)]
    pub fn bring(&mut self, page: u16, keep: Option<u16>) -> Slot
        requires page { page < length self.old.frame_of }
        requires absent { has self.old.resident page ≡ false }
        ensures out { result.out ≡ page_out self.old keep }
        ensures brought { Brought self.old self.new page keep result.frame }
        ensures seen { IsSeen self.new }
    {
        let _places = &self.places;
        let out = self.make_room(keep);
        Slot {
            frame: self.places.come(page),
            out,
        }
    }

    /// The page that isn't to stay goes out, if no frame is free.
    #[inline(always)]
    #[tactic(auto, using(crate::proofs::SoundLemmas::none_room, crate::proofs::PoolLemmas::out_there, std::proofs::lemmas::Bool::Decides::nat_tests))]
    fn make_room(&mut self, keep: Option<u16>) -> Option<u16>
        ensures out { result ≡ page_out self.old keep }
        ensures value { self.new ≡ with_room self.old keep }
        ensures room { length self.new.resident < self.new.frames }
    {
        let out = self.places.goes_out(keep);
        if let Some(page) = out {
            self.leave(page);
        }
        out
    }

    /// A resident page leaves its frame.
    #[inline(always)]
    fn leave(&mut self, page: u16)
        requires { has self.old.resident page ≡ true }
        ensures value { self.new ≡ gone self.old page }
        ensures fewer { length self.new.resident + 1 ≡ length self.old.resident }
    {
        let frame = self.places.frame_of(page).unwrap_or(0);
        let size = self.places.page;
        let marks = self.written(page);
        keep_over(
            &mut self.kept,
            page_place(size, page),
            self.bytes.part(page_place(size, frame), page_bytes(size)),
            marks,
        );
        self.places.leave(page);
    }

    /// Lends a frame, to be filled.
    #[inline(always)]
    pub fn page_mut(&mut self, frame: u16) -> &mut [u8]
        requires { frame < frame_count self.old.page self.old.frames }
        ensures* writes_back { sem 𝓛 (LendsFrame self.entry (page_start self.entry.now frame) result) }
        ensures value { result.now ≡ frame_bytes self.old frame }
    {
        let size = self.places.page;
        self.bytes
            .part_mut(page_place(size, frame), page_bytes(size))
    }

    /// A part of a seat's private bytes, from an offset on. They lie end to end, whatever the size of a page.
    #[inline(always)]
    pub fn private_part(&self, seat: u8, at: usize, count: usize) -> &[u8]
        requires seat { seat < 16 }
        requires within { at + count ≤ 16384 }
        ensures { result.now ≡ slice_range self.now.bytes (seat * 16384 + at) (seat * 16384 + at + count) }
    {
        self.bytes.part(usize::from(seat) * 16384 + at, count)
    }

    /// Lends a seat's private bytes, to be filled.
    pub fn private_mut(&mut self, seat: u8) -> &mut [u8]
        requires { seat < 16 }
        ensures* writes_back { sem 𝓛 (LendsFrame self.entry (seat * 16384) result) }
        ensures value { result.now ≡ slice_range self.old.bytes (seat * 16384) (seat * 16384 + 16384) }
    {
        self.bytes.part_mut(usize::from(seat) * 16384, 16384)
    }

    /// The marked lines of a page, as they are kept, lie over those of its frame.
    #[inline(always)]
    #[tactic(auto, using(crate::proofs::PoolLemmas::frame_within, crate::proofs::PoolLemmas::is_seen))]
    pub fn lay_kept(&mut self, page: u16)
        requires { page < length self.old.frame_of }
        ensures value { self.new ≡ kept_laid self.old page }
        ensures seen { IsSeen self.new }
    {
        if let Some(frame) = self.places.frame_of(page) {
            let marks = self.written(page);
            if marks.bits() == u16::MAX {
                self.lay_page(page, frame);
            } else {
                self.lay_lines(page, frame, marks);
            }
        }
    }

    /// The kept bytes of a page lie over those of a frame.
    #[inline(always)]
    fn lay_page(&mut self, page: u16, frame: u16)
        requires { (page < length self.old.frame_of) × (frame < frame_count self.old.page self.old.frames) }
        ensures value { self.new ≡ page_laid page frame self.old }
        ensures seen { IsSeen self.new }
    {
        let size = self.places.page;
        let from = page_place(size, page);
        self.bytes.write(
            page_place(size, frame),
            &self.kept.as_slice()[from..from + page_bytes(size)],
        );
    }

    /// Kept lines of a page lie over those of a frame, one after another.
    fn lay_lines(&mut self, page: u16, frame: u16, lines: LineSet)
        requires { (page < length self.old.frame_of) × (frame < frame_count self.old.page self.old.frames) }
        ensures value { self.new ≡ fold (line_laid page frame) self.old lines }
        ensures seen { IsSeen self.old → IsSeen self.new }
    {
        for line in lines.lines() {
            self.lay_line(page, frame, line);
        }
    }

    /// A kept line of a page lies over that of a frame.
    fn lay_line(&mut self, page: u16, frame: u16, line: u8)
        requires page { page < length self.old.frame_of }
        requires frame { frame < frame_count self.old.page self.old.frames }
        requires line { line < 16 }
        ensures value { self.new ≡ line_laid page frame self.old line }
        ensures seen { IsSeen self.new }
    {
        let at = self.place(Spot { frame, line });
        let size = self.places.page;
        let from = line_place(size, page, line);
        self.bytes
            .write(at, &self.kept.as_slice()[from..from + line_bytes(size)]);
    }

    /// Where a line of a frame begins.
    #[inline(always)]
    fn place(&self, at: Spot) -> usize
        requires { (at.frame < frame_count self.now.page self.now.frames) × (at.line < 16) }
        ensures value { result ≡ line_place self.now.page at.frame at.line }
        ensures within { result + line_size self.now.page ≤ length self.now.bytes }
    {
        line_place(self.places.page, at.frame, at.line)
    }

    /// One line of a frame.
    fn line(&self, at: Spot) -> &[u8]
        requires { (at.frame < frame_count self.now.page self.now.frames) × (at.line < 16) }
        ensures { result.now ≡ line_in_frame self.now at.frame at.line }
    {
        self.bytes
            .part(self.place(at), line_bytes(self.places.page))
    }

    /// A part of a frame, from an offset on.
    #[inline(always)]
    pub fn part(&self, frame: u16, at: usize, count: usize) -> &[u8]
        requires frame { frame < frame_count self.now.page self.now.frames }
        requires within { at + count ≤ page_bytes self.now.page }
        ensures { result.now ≡ frame_part self.now frame at count }
    {
        self.bytes
            .part(page_place(self.places.page, frame) + at, count)
    }

    /// So many bytes of the frames, from a spot on.
    #[inline(always)]
    pub fn spot_part(&self, spot: usize, count: usize) -> &[u8]
        requires { spot + count ≤ length self.now.bytes }
        ensures { result.now ≡ slice_range self.now.bytes spot (spot + count) }
    {
        self.bytes.part(spot, count)
    }

    /// Lends so many bytes of the frames, from a spot on, to be written. Marks stay.
    #[inline(always)]
    pub fn spot_mut(&mut self, spot: usize, count: usize) -> &mut [u8]
        requires { spot + count ≤ length self.old.bytes }
        ensures* writes_back { sem 𝓛 (LendsFrame self.entry spot result) }
        ensures value { result.now ≡ slice_range self.old.bytes spot (spot + count) }
    {
        self.bytes.part_mut(spot, count)
    }

    /// Lends a part of a frame, from an offset on, to be written. If the frame is a page's of the store, the lines of the
    /// part are marked.
    #[inline(always)]
    #[tactic(auto, using(crate::proofs::PoolLemmas::page_in_frame, std::proofs::lemmas::Bool::Decides::nat_tests))]
    pub fn part_mut(&mut self, frame: u16, at: usize, count: usize) -> &mut [u8]
        requires frame { frame < frame_count self.old.page self.old.frames }
        requires within { at + count ≤ page_bytes self.old.page }
        ensures* writes_back { sem 𝓛 (LendsMarked self.entry frame at count result) }
        ensures value { result.now ≡ frame_part self.old frame at count }
    {
        let place = page_place(self.places.page, frame) + at;
        let lines = self.lines_of_part(at, count);
        let page = self.places.page_in(frame);
        mark(&mut self.marked, page, lines);
        self.bytes.part_mut(place, count)
    }

    /// The lines in which a part of a page lies.
    #[inline(always)]
    fn lines_of_part(&self, at: usize, count: usize) -> LineSet
        requires { at + count ≤ page_bytes self.now.page }
        ensures { result ≡ lines_of_part self.now.page at count }
    {
        if count == 0 {
            return LineSet::none();
        }
        let size = self.places.page;
        let last = size.line_at((at + count - 1) as u16);
        LineSet::between(size.line_at(at as u16), last)
    }

    /// The lines of a page that are marked as written.
    #[inline(always)]
    pub fn written(&self, page: u16) -> LineSet
        requires { page < length self.now.frame_of }
        ensures { result ≡ marks_at self.now page }
    {
        self.marked[usize::from(page)]
    }

    /// The bytes of a line of a page: in its frame, or where it is in none as they are kept.
    #[tactic(auto, using(crate::proofs::PoolLemmas::frame_within))]
    pub fn written_line(&self, page: u16, line: u8) -> &[u8]
        requires page { page < length self.now.frame_of }
        requires line { line < 16 }
        ensures value { result.now ≡ line_shown self.now page line }
        ensures seen { IsSeen self.now }
    {
        match self.places.frame_of(page) {
            Some(frame) => self.line(Spot { frame, line }),
            None => self.line_kept(page, line),
        }
    }

    /// The kept bytes of a line of a page.
    fn line_kept(&self, page: u16, line: u8) -> &[u8]
        requires { (page < length self.now.frame_of) × (line < 16) }
        ensures { result.now ≡ line_kept self.now page line }
    {
        let size = self.places.page;
        let at = line_place(size, page, line);
        &self.kept.as_slice()[at..at + line_bytes(size)]
    }

    /// Lines of a page are no longer marked.
    pub fn settle(&mut self, page: u16, lines: LineSet)
        requires { page < length self.old.frame_of }
        ensures { self.new ≡ settled self.old page lines }
    {
        let place = usize::from(page);
        self.marked[place] = self.marked[place].difference(lines);
    }

    /// A page leaves its frame, if it is in one, and these of its lines are forgotten.
    #[tactic(auto, using(crate::proofs::PoolLemmas::gone_none, std::proofs::lemmas::Bool::Decides::nat_tests))]
    pub fn undo(&mut self, page: u16, lines: LineSet)
        requires { page < length self.old.frame_of }
        ensures { self.new ≡ page_undone self.old page lines }
    {
        self.settle(page, lines);
        if self.places.frame_of(page).is_some() {
            self.leave(page);
        }
    }

    /// All pages leave their frames. Their marked lines are kept.
    #[tactic(auto, using(crate::proofs::PoolLemmas::emptied_step, std::proofs::lemmas::Bool::Decides::nat_tests))]
    pub fn empty(&mut self)
        ensures { self.new ≡ pool_emptied self.old }
    {
        while let Some(page) = self.places.resident.first_but(None) {
            self.leave(page);
        }
    }
}

/// Marks lines of a page, if there is one.
#[inline(always)]
fn mark(marked: &mut Vec<LineSet>, page: Option<u16>, lines: LineSet)
    requires { IfSome page (λ page. page < vec_len marked.old) }
    ensures { marked.new.items ≡ marked_with marked.old.items page lines }
{
    if let Some(page) = page {
        let place = usize::from(page);
        marked[place] = marked[place].union(lines);
    }
}

/// Bytes of a page are kept from a place on, if a line of it is marked.
#[inline(always)]
fn keep_over(kept: &mut OwnedList<u8>, at: usize, part: &[u8], marks: LineSet)
    requires { at + length part.now ≤ length kept.old }
    ensures value { kept.new ≡ (if length marks == 0 then kept.old else overlaid kept.old at part.now) }
    ensures len { length kept.new ≡ length kept.old }
{
    if !marks.is_empty() {
        kept.write(at, part);
    }
}
