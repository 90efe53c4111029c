// What contracts see of a pool.
use lines::{LineSet, OwnedList, PageSize};

/// A pool, as contracts see it: the size of a page and the number of frames for pages of the store; the bytes of all
/// frames, end to end, those of private storage first; the resident pages in the order in which they came; the frame of
/// each page; the page of each frame; the marked lines of each page; and the bytes of paging space, each at its place in
/// the store.
#[derive(Drop)]
pub struct Pool {
    pub page: PageSize,
    pub frames: u16,
    pub bytes: OwnedList<u8>,
    pub resident: OwnedList<u16>,
    pub frame_of: OwnedList<Option<u16>>,
    pub page_in: OwnedList<Option<u16>>,
    pub marked: OwnedList<LineSet>,
    pub kept: OwnedList<u8>,
}
