// The sizes of pages and lines.
ghost use Rattle.std.specs.Prelude.{◌≡◌, ◌*◌, ◌<◌, ◌≤◌, ◌^◌};
ghost use Rattle.lines.specs.Segments.{page_bytes};
ghost use Rattle.frame_pool.specs.Sizes.{private_frames, line_size, line_place};

use lines::PageSize;

/// The bytes of a page.
pub fn page_bytes(size: PageSize) -> usize
    ensures value { result ≡ page_bytes size }
    ensures some { 2048 ≤ result }
    ensures few { result ≤ 4096 }
{
    usize::from(size.bytes())
}

/// The bytes of a line.
pub fn line_bytes(size: PageSize) -> usize
    ensures value { result ≡ line_size size }
    ensures some { 128 ≤ result }
    ensures few { result ≤ 256 }
    ensures sixteen { result * 16 ≡ page_bytes size }
{
    usize::from(size.line_bytes())
}

/// The frames of private storage.
pub fn private_frames(size: PageSize) -> u16
    ensures value { result ≡ private_frames size }
    ensures few { result ≤ 128 }
{
    match size {
        PageSize::Two => 128,
        PageSize::Four => 64,
    }
}

/// Where a page begins, among pages that lie end to end.
#[inline(always)]
pub fn page_place(size: PageSize, page: u16) -> usize
    ensures value { result ≡ page * page_bytes size }
    ensures few { result < 2 ^ 28 }
{
    size.pages_bytes(page) as usize
}

/// Where a line of a page begins, among pages that lie end to end.
#[inline(always)]
pub fn line_place(size: PageSize, page: u16, line: u8) -> usize
    ensures value { result ≡ line_place size page line }
    ensures few { result < 2 ^ 29 }
{
    match size {
        PageSize::Two => usize::from(page) * 2048 + usize::from(line) * 128,
        PageSize::Four => usize::from(page) * 4096 + usize::from(line) * 256,
    }
}
