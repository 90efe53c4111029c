// Places, by the size of a page.
ghost use Rattle.std.specs.Prelude.{◌≡◌, ◌+◌, ◌-◌, ◌*◌, ◌%◌, ◌<◌, ◌≤◌, ◌^◌, nat_le, true};
ghost use Rattle.storage_unit.specs.Below.{bytes_on, line_bytes, page_bytes};
ghost use Rattle.storage_unit.specs.Held.{seat_pages};
ghost use Rattle.storage_unit.specs.Places.{offset_of};

use lines::PageSize;
use page_table::{Virtual, virtual_at};

/// The private pages of a seat.
pub fn seat_pages(page: PageSize) -> u16
    ensures value { result ≡ seat_pages page }
    ensures few { result ≤ 8 }
{
    match page {
        PageSize::Two => 8,
        PageSize::Four => 4,
    }
}

/// The first private frame of a seat.
pub fn first_frame(page: PageSize, seat: u8) -> u16
    requires { seat < 16 }
    ensures value { result ≡ seat * seat_pages page }
    ensures few { result ≤ 120 }
{
    match page {
        PageSize::Two => u16::from(seat) * 8,
        PageSize::Four => u16::from(seat) * 4,
    }
}

/// The offset of a byte in its segment.
pub fn offset_of(page: PageSize, at: Virtual) -> u32
    requires { offset_of page at < 2 ^ 32 }
    ensures { result ≡ offset_of page at }
{
    match page {
        PageSize::Two => at.page * 2048 + u32::from(at.byte),
        PageSize::Four => at.page * 4096 + u32::from(at.byte),
    }
}

/// Where a byte of a frame lies among the bytes of all frames.
pub fn spot_of(page: PageSize, frame: u16, byte: u16) -> u32
    ensures { result ≡ frame * page_bytes page + byte }
{
    page.pages_bytes(frame) + u32::from(byte)
}

/// The byte so many past another in its segment.
#[inline]
pub fn byte_past(page: PageSize, first: Virtual, past: u16) -> Virtual
    requires { offset_of page first ≤ 2 ^ 22 }
    ensures { result ≡ bytes_on page first past }
{
    virtual_at(
        page,
        first.segment,
        offset_of(page, first) + u32::from(past),
    )
}

/// How many bytes of its line begin with the one at a place of the store.
pub fn rest_of_line(page: PageSize, place: u32) -> u16
    ensures value { result + place % line_bytes page ≡ line_bytes page }
    ensures some { 1 ≤ result }
    ensures few { result ≤ 256 }
{
    match page {
        PageSize::Two => 128 - (place % 128) as u16,
        PageSize::Four => 256 - (place % 256) as u16,
    }
}

/// Whether so many bytes from one on lie in one line.
pub fn is_in_line(page: PageSize, byte: u16, count: u8) -> bool
    ensures { result ≡ nat_le (byte % line_bytes page + count) (line_bytes page) }
{
    match page {
        PageSize::Two => byte % 128 + u16::from(count) <= 128,
        PageSize::Four => byte % 256 + u16::from(count) <= 256,
    }
}
