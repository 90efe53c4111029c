// Pages that come in and go out, and entries that are set.
ghost use Rattle.std.specs.Prelude.{◌≡◌, ℕ, ◌<◌, ◌≤◌, false, length, fold, slice_set, option_and_then};
ghost use Rattle.storage_unit.specs.Below.{Brought, pool_emptied, frame_at, frame_count, has, IsOfTable, KnowsNoLine, kept_laid, look_up, option_map_or, page_count, page_out, settled, page_undone, without_frame};
ghost use Rattle.storage_unit.specs.Held.{keys_without};
ghost use Rattle.storage_unit.specs.Places.{key_among};
ghost use Rattle.storage_unit.specs.Reach.{over_pool};
ghost use Rattle.storage_unit.specs.Served.{with_granted, entries_released};

use super::unit::Unit;
use frame_pool::{FramePool, Slot};
use lines::LineSet;
use page_table::{Authority, Key, OpenLines, Table, Tlb};

impl Unit {
    ghost use Rattle.storage_unit.specs.View.{reach_of};

    /// Brings in a page that isn't resident, as the pool does. What its frame held is still there: it is to be filled, and
    /// then its kept lines laid over it.
    #[inline(always)]
    pub(crate) fn bring(&mut self, page: u16, keep: Option<u16>) -> Slot
        requires page { page < page_count (reach_of self.old).directory }
        requires absent { has (reach_of self.old).pool.resident page ≡ false }
        ensures out { result.out ≡ page_out (reach_of self.old).pool keep }
        ensures brought { Brought (reach_of self.old).pool (reach_of self.new).pool page keep result.frame }
        ensures rest { reach_of self.new ≡ record (reach_of self.old) { pool = (reach_of self.new).pool } }
    {
        let out = self.pool.page_out(keep);
        leave_frame(
            &self.pool,
            &mut self.table,
            &mut self.buffer,
            &mut self.lines,
            out,
        );
        let slot = self.pool.bring(page, keep);
        let key = key_among(self.directory.segments(), page);
        self.table.enter(slot.frame, key.segment, key.page);
        self.buffer.remember(key.segment, key.page, slot.frame);
        slot
    }

    /// The kept lines of a page lie over those of its frame.
    #[inline(always)]
    pub(crate) fn lay_kept(&mut self, page: u16)
        requires { page < page_count (reach_of self.old).directory }
        ensures { reach_of self.new ≡ over_pool (reach_of self.old) (λ pool. kept_laid pool page) }
    {
        self.pool.lay_kept(page);
    }

    /// Lines of a page are no longer marked. No line is known any more.
    pub fn settle(&mut self, page: u16, lines: LineSet)
        requires { page < page_count (reach_of self.old).directory }
        ensures { reach_of self.new ≡ over_pool (reach_of self.old) (λ pool. settled pool page lines) }
    {
        let known = &mut self.lines;
        known.forget();
        self.pool.settle(page, lines);
    }

    /// A page leaves its frame, if it is in one, and these of its lines are forgotten.
    pub fn undo(&mut self, page: u16, lines: LineSet)
        requires { page < page_count (reach_of self.old).directory }
        ensures { reach_of self.new ≡ over_pool (reach_of self.old) (λ pool. page_undone pool page lines) }
    {
        leave_frame(
            &self.pool,
            &mut self.table,
            &mut self.buffer,
            &mut self.lines,
            Some(page),
        );
        self.pool.undo(page, lines);
    }

    /// All pages leave their frames. Their marked lines are kept.
    pub fn empty(&mut self)
        ensures { reach_of self.new ≡ over_pool (reach_of self.old) pool_emptied }
    {
        leave_all(&self.pool, &mut self.table);
        self.buffer = Tlb::new();
        self.lines = OpenLines::new();
        self.pool.empty();
    }

    /// Sets the entry of a page.
    #[inline(always)]
    pub fn set_authority(&mut self, page: u16, value: Authority)
        requires { page < page_count (reach_of self.old).directory }
        ensures { reach_of self.new ≡ with_granted (reach_of self.old) page value }
    {
        self.lines.forget();
        self.table.set_authority(page, value);
    }

    /// Each entry of an identifier becomes nobody's.
    pub fn clear(&mut self, tid: u8)
        ensures { reach_of self.new ≡ entries_released (reach_of self.old) tid }
    {
        self.clear_among(tid, &[]);
    }

    /// The same. The entries are looked for among these pages first, and among all pages only where some are left.
    pub fn clear_among(&mut self, tid: u8, pages: &[u16])
        ensures { reach_of self.new ≡ entries_released (reach_of self.old) tid }
    {
        OpenLines::forget(&mut self.lines);
        self.table.clear_among(tid, pages);
    }
}

/// The frame of a page holds nothing, and the buffer forgets it, if a page is named that is in one. No line is known.
#[inline(always)]
fn leave_frame(
    pool: &FramePool,
    table: &mut Table,
    buffer: &mut Tlb,
    lines: &mut OpenLines,
    page: Option<u16>,
)
    requires room { frame_count pool.now.page pool.now.frames ≤ length table.old.keys }
    requires of_table { IsOfTable buffer.old table.old.keys }
    ensures table { table.new ≡ option_map_or (without_frame table.old) (option_and_then (frame_at pool.now) page) table.old }
    ensures of_table { IsOfTable buffer.new table.new.keys }
    ensures lines { KnowsNoLine lines.new }
{
    lines.forget();
    let Some(out) = page else {
        return;
    };
    if let Some(frame) = pool.frame_of(out) {
        clear_frame(table, buffer, frame);
    }
}

/// A frame holds nothing, and the buffer forgets what it held.
#[inline(always)]
pub(super) fn clear_frame(table: &mut Table, buffer: &mut Tlb, frame: u16)
    requires room { frame < length table.old.keys }
    requires of_table { IsOfTable buffer.old table.old.keys }
    ensures table { table.new ≡ without_frame table.old frame }
    ensures of_table { IsOfTable buffer.new table.new.keys }
{
    if let Some(key) = table.held(frame) {
        table.leave(frame);
        buffer.forget_page(frame, key.page);
    }
}

/// The frames of all resident pages hold nothing.
fn leave_all(pool: &FramePool, table: &mut Table)
    requires { frame_count pool.now.page pool.now.frames ≤ length table.old.keys }
    ensures { table.new ≡ record table.old { keys = fold (keys_without pool.now) table.old.keys pool.now.resident } }
{
    for page in pool.resident() {
        if let Some(frame) = pool.frame_of(page) {
            table.leave(frame);
        }
    }
}

/// The page of a segment that a flat page is.
fn key_among(segments: &[(u16, u16)], page: u16) -> Key
    ensures { result ≡ key_among segments.now page }
{
    match segments {
        [] => Key {
            segment: 0,
            page: u32::from(page),
        },
        [first, rest @ ..] => {
            if page < first.1 {
                Key {
                    segment: first.0,
                    page: u32::from(page),
                }
            } else {
                key_among(rest, page - first.1)
            }
        }
    }
}
