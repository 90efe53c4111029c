// Which pages of a store are resident, and in which frames.
ghost use Rattle.std.specs.Prelude.{◌≡◌, ◌+◌, ◌<◌, ◌≤◌, ◌^◌, false, true, length, vec_len, vec_capacity, IfOk, None, replicate};
ghost use Rattle.frame_pool.specs.Below.{has, range_with_len};
ghost use Rattle.frame_pool.specs.Sound.{ArePlacesSound};

use super::arrivals::Arrivals;
use super::sizes::private_frames;
use lines::PageSize;
use std::alloc::{AllocError, Global};

/// Which pages of a store are resident, in the order in which they came; the frame of each page and the page of each
/// frame; and the frames that are free.
#[derive(Drop)]
pub struct FramePlaces {
    pub page: PageSize,
    pub frames: u16,
    pub resident: Arrivals,
    pub frame_of: Vec<Option<u16>>,
    pub page_in: Vec<Option<u16>>,
    pub free: Vec<u16>,
    ghost sound: { ArePlacesSound (record { page = page; frames = frames; resident = resident.order; frame_of = frame_of.items; page_in = page_in.items; free = free.items }) },
    ghost pages: { resident.pages ≡ vec_len frame_of },
    ghost free_room: { frames ≤ vec_capacity free },
}

/// So many frames from a first on.
fn frames_from(alloc: Global, first: u16, count: u16) -> Result<Vec<u16>, AllocError>
    requires { first + count < 2 ^ 16 }
    ensures items { IfOk result (λ frames. frames.items ≡ range_with_len first count) }
    ensures room { IfOk result (λ frames. count ≤ vec_capacity frames) }
{
    let mut frames = Vec::with_capacity(alloc, usize::from(count))?;
    for frame in 0..count {
        frames.push(first + frame)?;
    }
    Ok(frames)
}

/// So many times nothing.
fn nothings(alloc: Global, count: u16) -> Result<Vec<Option<u16>>, AllocError>
    ensures { IfOk result (λ list. list.items ≡ replicate count None) }
{
    Ok(vec![in alloc; None; usize::from(count)]?)
}

impl FramePlaces {
    ghost use Rattle.frame_pool.specs.Places.{CameIn, fresh_places, frame_of_page, goes_out, place_page, page_left};
    ghost use Rattle.frame_pool.specs.PlacesView.{pool_places};

    /// No page is resident.
    pub fn new(alloc: Global, page: PageSize, frames: u16, pages: u16) -> Result<Self, AllocError>
        requires some { 2 ≤ frames }
        requires few { frames ≤ 1024 }
        ensures { IfOk result (λ new. pool_places new ≡ fresh_places page frames pages) }
    {
        let first = private_frames(page);
        Ok(FramePlaces {
            page,
            frames,
            resident: Arrivals::none(alloc, pages)?,
            frame_of: nothings(alloc, pages)?,
            page_in: nothings(alloc, first + frames)?,
            free: frames_from(alloc, first, frames)?,
        })
    }

    /// The frame of a page.
    #[inline(always)]
    pub fn frame_of(&self, page: u16) -> Option<u16>
        ensures { result ≡ frame_of_page (pool_places self.now) page }
    {
        self.frame_of.get(usize::from(page)).copied().flatten()
    }

    /// The page of a frame.
    #[inline(always)]
    pub fn page_in(&self, frame: u16) -> Option<u16>
        ensures { result ≡ place_page (pool_places self.now) frame }
    {
        self.page_in.get(usize::from(frame)).copied().flatten()
    }

    /// The page that goes out for another: none while a frame is free, else the first that isn't to stay.
    #[inline(always)]
    pub fn goes_out(&self, keep: Option<u16>) -> Option<u16>
        ensures { result ≡ goes_out (pool_places self.now) keep }
    {
        if self.resident.count() < self.frames {
            None
        } else {
            self.resident.first_but(keep)
        }
    }

    /// A resident page leaves its frame.
    #[inline]
    pub fn leave(&mut self, page: u16)
        requires { has self.old.resident.order page ≡ true }
        ensures { pool_places self.new ≡ page_left (pool_places self.old) page }
    {
        self.resident.leave(page);
        let place = usize::from(page);
        let frame = self.frame_of[place].unwrap_or(0);
        self.frame_of[place] = None;
        self.page_in[usize::from(frame)] = None;
        let _ = self.free.push(frame);
    }

    /// A page that isn't resident comes into a free frame.
    #[inline]
    pub fn come(&mut self, page: u16) -> u16
        requires page { page < vec_len self.old.frame_of }
        requires absent { has self.old.resident.order page ≡ false }
        requires room { length self.old.resident.order < self.old.frames }
        ensures { CameIn (pool_places self.old) (pool_places self.new) page result }
    {
        let frame = self.free.pop().unwrap_or(0);
        self.resident.come(page);
        self.frame_of[usize::from(page)] = Some(frame);
        self.page_in[usize::from(frame)] = Some(page);
        frame
    }
}
