// The unit's parts, and that they agree.
ghost use Rattle.std.specs.Prelude.{◌≡◌, ◌≤◌, length, IfOk};
ghost use Rattle.storage_unit.specs.Below.{after_found, found, AreSegmentsLegal, IsOfTable, key_of, page_count};
ghost use Rattle.storage_unit.specs.Held.{frame_found, keys_of, IsSelected, table_of};
ghost use Rattle.storage_unit.specs.PoolLaws.{PoolFits};
ghost use Rattle.storage_unit.specs.PlanCodes.{plan_set};
ghost use Rattle.storage_unit.specs.ReadyRows.{AreReady};
ghost use Rattle.storage_unit.specs.OpenLines.{AreOpened};
ghost use Rattle.storage_unit.specs.Cleared.{AreClear};
ghost use Rattle.std.proofs.Props.{props};
ghost use Rattle.storage_unit.specs.Served.{made};

use frame_pool::{FramePool, private_frames};
use lines::Directory;
use page_table::{OpenLines, SegmentRegs, Table, Tlb, Virtual};
use ready_rows::ReadyRows;
use std::alloc::{AllocError, Global};
use store_format::Header;

/// Frames, page table and look-aside buffer of a store, with the segment registers of the seat that is selected
/// (docs/MODEL.md). They agree: the table has a page of the store in a frame exactly where the pool has
/// it there, and a seat's private pages in its private frames exactly where it is begun; each pair of the buffer is in
/// the table; each row that is known is made ready of the private bytes of who is selected; each line that is known may be
/// accessed, and is marked where it may be stored to; and the private bytes of a seat after those that were used are zeros. So no part is lent to be written.
#[derive(Drop)]
pub struct Unit {
    pub(crate) pool: FramePool,
    pub(crate) table: Table,
    pub(crate) buffer: Tlb,
    pub(crate) begun: [bool; 16],
    pub(crate) directory: Directory,
    pub(crate) registers: SegmentRegs,
    pub(crate) runner: u8,
    pub(crate) rows: ReadyRows,
    pub(crate) lines: OpenLines,
    pub(crate) used: [u32; 16],
    ghost sixteen: { length begun ≡ 16 },
    ghost legal: { AreSegmentsLegal directory.segments },
    ghost fits: { PoolFits directory pool },
    ghost entries: { length table.entries ≡ page_count directory },
    ghost held: { table.keys ≡ keys_of directory begun pool.frames pool.page_in },
    ghost remembered: { IsOfTable buffer table.keys },
    ghost selected: { IsSelected directory begun runner registers },
    ghost ready: { AreReady rows pool.bytes runner } by { Prim.hlevel (props, plan_set) },
    ghost opened: { AreOpened lines directory table registers pool.marked runner },
    ghost clear: { AreClear used pool.bytes },
}

impl Unit {
    ghost use Rattle.storage_unit.specs.View.{reach_of, buffer_of};

    /// A unit over a store with this header, with so many frames for its pages. No page is in a frame, each is nobody's, no
    /// seat is begun and none selected. It takes all memory that the unit will need.
    ///
    /// # Errors
    ///
    /// There is no memory.
    pub fn new(alloc: Global, header: &Header, frames: u16) -> Result<Unit, AllocError>
        requires some { 2 ≤ frames }
        requires few { frames ≤ 1024 }
        ensures { IfOk result (λ unit. reach_of unit ≡ made header.now.directory frames) }
    {
        let directory = *header.directory();
        let page = directory.page();
        let pages = directory.pages();
        let _segments = directory.segments();
        Ok(Unit {
            pool: FramePool::new(alloc, page, frames, pages)?,
            table: Table::new(alloc, private_frames(page) + frames, pages)?,
            buffer: Tlb::new(),
            begun: [false; 16],
            directory,
            registers: SegmentRegs::none(page),
            runner: 0,
            rows: ReadyRows::new(alloc)?,
            lines: OpenLines::new(),
            used: [0; 16],
        })
    }

    /// The directory of the store.
    #[inline(always)]
    pub fn directory(&self) -> &Directory
        ensures { result.now ≡ (reach_of self.now).directory }
    {
        &self.directory
    }

    /// The frames.
    pub fn pool(&self) -> &FramePool
        ensures { result.now ≡ (reach_of self.now).pool }
    {
        &self.pool
    }

    /// The page table.
    pub fn table(&self) -> &Table
        ensures { result.now ≡ table_of (reach_of self.now) }
    {
        &self.table
    }

    /// The look-aside buffer. Each of its pairs is in the table.
    pub fn buffer(&self) -> &Tlb
        ensures value { result.now ≡ buffer_of self.now }
        ensures of_table { IsOfTable (buffer_of self.now) (table_of (reach_of self.now)).keys }
    {
        &self.buffer
    }

    /// The frame that holds the page of an address, as the table has it: asked of the buffer first, which then stays, and
    /// else of the table, whose answer comes into the buffer. All else stays.
    #[inline(always)]
    #[tactic(auto, using(std::proofs::lemmas::Bool::Decides::nat_tests))]
    pub fn translate(&mut self, at: Virtual) -> Option<u16>
        ensures value { result ≡ frame_found (reach_of self.old) at }
        ensures found { result ≡ found (buffer_of self.old) (frame_found (reach_of self.old) at) (key_of at) }
        ensures buffer { buffer_of self.new ≡ after_found (buffer_of self.old) (frame_found (reach_of self.old) at) (key_of at) }
        ensures state { reach_of self.new ≡ reach_of self.old }
    {
        self.buffer.find(&self.table, at)
    }
}
