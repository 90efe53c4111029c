ghost use Rattle.std.specs.Prelude.{◌≡◌, nat_lt, ◌+◌, ◌*◌, ◌/◌, ◌==◌, ◌≤◌, ◌<◌, ◌^◌, ◌++◌, not, option_map, find, sum_by, take_while, length, drop, replicate, IfSome, IfOk, IfErr, IsOk, ◌↔◌};
ghost use Rattle.lines.specs.Segments.{page_bytes, line_bytes, bytes_of, is_named};
ghost use Rattle.lines.specs.Directory.{fine_among};
ghost use Rattle.lines.specs.Legal.{fault_of, fault_after, fault_with, flag_count, is_strange, AreSegmentsLegal, AreFlags};

use std::marker::Model;

/// The most segments that a directory has.
const MOST_SEGMENTS: usize = 15;

/// The number of bytes of a page, in two or four times 1,024 (docs/MODEL.md).
#[derive(Clone, Copy, PartialEq, Eq)]
pub enum PageSize {
    Two,
    Four,
}

impl PageSize {
    /// The bytes of a page.
    #[inline(always)]
    pub fn bytes(self) -> u16
        ensures value { result ≡ page_bytes self }
        ensures some { 2048 ≤ result }
        ensures few { result ≤ 4096 }
    {
        match self {
            PageSize::Two => 2048,
            PageSize::Four => 4096,
        }
    }

    /// The bytes of a line.
    #[inline(always)]
    pub fn line_bytes(self) -> u16
        ensures value { result ≡ line_bytes self }
        ensures some { 128 ≤ result }
        ensures few { result ≤ 256 }
        ensures sixteen { result * 16 ≡ page_bytes self }
    {
        match self {
            PageSize::Two => 128,
            PageSize::Four => 256,
        }
    }

    /// The bytes of so many pages.
    #[inline(always)]
    pub fn pages_bytes(self, count: u16) -> u32
        ensures value { result ≡ count * page_bytes self }
        ensures few { result < 2 ^ 28 }
    {
        match self {
            PageSize::Two => u32::from(count) * 2048,
            PageSize::Four => u32::from(count) * 4096,
        }
    }

    /// The line of a page in which a byte of it lies.
    #[inline(always)]
    pub fn line_at(self, byte: u16) -> u8
        requires { byte < page_bytes self }
        ensures value { result ≡ byte / line_bytes self }
        ensures few { result < 16 }
    {
        match self {
            PageSize::Two => (byte / 128) as u8,
            PageSize::Four => (byte / 256) as u8,
        }
    }
}

/// Why a list of segments is no directory (docs/FORMATS.md).
#[derive(Debug, Clone, Copy)]
pub enum DirectoryFault {
    /// An identifier that isn't above the one before it.
    Order,
    /// No segment at all, an identifier outside 1 to 3,839, or a number of pages outside 1 to 128.
    Range,
    /// More than fifteen segments, or more than 1,024 pages in all.
    TooMany,
    /// A flag of no segment, or any with pages of 2,048 bytes.
    Flag,
}

/// The segments of a store laid end to end, each an identifier and a number of pages, and which of them are fine
/// (docs/MODEL.md).
#[derive(Clone, Copy)]
pub struct Directory {
    page: PageSize,
    count: u8,
    segments: [(u16, u16); MOST_SEGMENTS],
    fine: u16,
}

impl Model for Directory {
    ghost use Rattle.std.specs.Prelude.{◌++◌, length, replicate, take, drop};
    ghost use Rattle.lines.specs.Directory.{Layout};

    ghost Value = { Layout };

    ghost use Rattle.lines.specs.Kept.{IsDirectoryKept, kept-again};

    ghost view = { λ d. record { page = d.page; segments = take d.count d.segments; fine = d.fine } };

    ghost invariant = { λ d. IsDirectoryKept d.page d.count d.segments d.fine };

    ghost inverse = { λ v. record { page = v.page; count = length v.segments; segments = v.segments ++ drop (length v.segments) (replicate 15 (0, 0)); fine = v.fine } };

    ghost inverse_ok = { λ d kept. kept-again d kept };
}

impl Directory {
    ghost use Rattle.lines.specs.Directory.{Layout, length_of, start_of, byte_count, page_count, place, is_fine_page};
    ghost use Rattle.lines.specs.FlatLines.{line_of, line_count, page_of};

    /// The directory with these segments, each an identifier and a number of pages, none of them fine.
    ///
    /// # Errors
    ///
    /// [`DirectoryFault::TooMany`] for more than fifteen segments, then [`DirectoryFault::Range`] for none. Then
    /// the first segment that is wrong decides: `Range` where its identifier is outside 1 to 3,839 or its pages are
    /// outside 1 to 128, [`DirectoryFault::Order`] where its identifier isn't above the one before, and `TooMany`
    /// where the pages up to it pass 1,024 (docs/FORMATS.md).
    pub fn new(page: PageSize, segments: &[(u16, u16)]) -> Result<Directory, DirectoryFault>
        ensures value { IfOk result (λ directory. directory ≡ record { page = page; segments = segments.now; fine = 0 }) }
        ensures legal { IsOk result ↔ AreSegmentsLegal segments.now }
        ensures fault { IfErr result (λ fault. fault_of segments.now ≡ Some fault) }
    {
        match first_fault(segments) {
            Some(fault) => Err(fault),
            None => Ok(Directory {
                page,
                count: segments.len() as u8,
                segments: filled_up(segments),
                fine: 0,
            }),
        }
    }

    /// The directory with these segments and these flags: bit i, from the lowest, says that the i-th segment from 0 is
    /// fine.
    ///
    /// # Errors
    ///
    /// Those of [`Directory::new`], and then [`DirectoryFault::Flag`] for a bit of no segment, or for any with pages of
    /// 2,048 bytes.
    #[tactic(auto, using(crate::proofs::LegalLemmas::none_legal, std::proofs::lemmas::Bool::Decides::nat_tests))]
    pub fn with_fine(
        page: PageSize,
        segments: &[(u16, u16)],
        fine: u16,
    ) -> Result<Directory, DirectoryFault>
        ensures value { IfOk result (λ directory. directory ≡ record { page = page; segments = segments.now; fine = fine }) }
        ensures legal { IsOk result ↔ (AreSegmentsLegal segments.now × AreFlags page segments.now fine) }
        ensures fault { IfErr result (λ fault. fault_with page segments.now fine ≡ Some fault) }
    {
        let plain = Directory::new(page, segments)?;
        if are_flags(page, segments.len(), fine) {
            Ok(Directory { fine, ..plain })
        } else {
            Err(DirectoryFault::Flag)
        }
    }

    /// The size of a page.
    pub fn page(&self) -> PageSize
        ensures { result ≡ self.now.page }
    {
        self.page
    }

    /// The flags of the fine segments: bit i, from the lowest, for the i-th segment from 0.
    pub fn fine(&self) -> u16
        ensures value { result ≡ self.now.fine }
        ensures flags { AreFlags self.now.page self.now.segments self.now.fine }
    {
        self.fine
    }

    /// Whether the segment of a flat page is fine. Past the last page nothing is.
    #[tactic(auto, using(crate::proofs::FineLemmas::none_fine))]
    pub fn is_fine(&self, page: u16) -> bool
        ensures { result ≡ is_fine_page self.now page }
    {
        if self.fine == 0 {
            return false;
        }
        fine_among(self.segments(), self.fine, page)
    }

    /// The segments, each an identifier and a number of pages, by identifier.
    #[tactic(auto, using(crate::proofs::LegalLemmas::legal_bytes, std::proofs::lemmas::Bool::Decides::nat_tests))]
    pub fn segments(&self) -> &[(u16, u16)]
        ensures value { result.now ≡ self.now.segments }
        ensures legal { AreSegmentsLegal self.now.segments }
        ensures bytes { byte_count self.now ≤ 2 ^ 22 }
    {
        &self.segments[..usize::from(self.count)]
    }

    /// The pages of all segments.
    pub fn pages(&self) -> u16
        ensures value { result ≡ page_count self.now }
        ensures small { result ≤ 1024 }
    {
        pages_among(self.segments())
    }

    /// The lines of all segments.
    pub fn line_count(&self) -> u32
        ensures value { result ≡ line_count self.now }
        ensures small { result ≤ 16384 }
    {
        u32::from(self.pages()) * 16
    }

    /// The bytes of all segments.
    #[tactic(auto, using(crate::proofs::WithinLemmas::byte_count_pages))]
    pub fn byte_count(&self) -> u32
        ensures value { result ≡ byte_count self.now }
        ensures small { result ≤ 2 ^ 22 }
    {
        self.page.pages_bytes(self.pages())
    }

    /// The bytes of a line.
    pub fn line_bytes(&self) -> u16
        ensures value { result ≡ line_bytes self.now.page }
        ensures some { 128 ≤ result }
        ensures few { result ≤ 256 }
    {
        self.page.line_bytes()
    }

    /// The bytes of the segment with this identifier; none exactly where no segment has it.
    pub fn length_of(&self, segment: u16) -> Option<u32>
        ensures { result ≡ length_of self.now segment }
    {
        length_among(self.segments(), segment, self.page)
    }

    /// Where the segment with this identifier begins; the end of the store where no segment has it.
    pub fn start_of(&self, segment: u16) -> u32
        ensures value { result ≡ start_of self.now segment }
        ensures within { IfSome (length_of self.now segment) (λ long. result + long ≤ byte_count self.now) }
        ensures small { byte_count self.now ≤ 2 ^ 22 }
    {
        start_among(self.segments(), segment, self.page)
    }

    /// The place of an offset in a segment; none exactly where no segment has the identifier or the offset is past
    /// its end.
    pub fn place(&self, segment: u16, offset: u32) -> Option<u32>
        ensures value { result ≡ place self.now segment offset }
        ensures within { IfSome result (λ at. at < byte_count self.now) }
    {
        let start = self.start_of(segment);
        let length = self.length_of(segment)?;
        if offset < length {
            Some(start + offset)
        } else {
            None
        }
    }

    /// The flat line of a place.
    pub fn line_of(&self, place: u32) -> u32
        ensures { result ≡ line_of self.now place }
    {
        match self.page {
            PageSize::Two => place / 128,
            PageSize::Four => place / 256,
        }
    }

    /// The flat page of a place.
    pub fn page_of(&self, place: u32) -> u16
        requires { place < byte_count self.now }
        ensures { result ≡ page_of self.now place }
    {
        match self.page {
            PageSize::Two => (place / 2048) as u16,
            PageSize::Four => (place / 4096) as u16,
        }
    }
}

/// The first fault of these segments.
fn first_fault(segments: &[(u16, u16)]) -> Option<DirectoryFault>
    ensures { result ≡ fault_of segments.now }
{
    if segments.len() > MOST_SEGMENTS {
        Some(DirectoryFault::TooMany)
    } else if segments.is_empty() {
        Some(DirectoryFault::Range)
    } else {
        fault_behind(segments, 0, 0)
    }
}

/// The first fault of these segments after others with a last identifier and so many pages.
fn fault_behind(segments: &[(u16, u16)], last: u16, pages: u16) -> Option<DirectoryFault>
    requires { pages ≤ 1024 }
    ensures { result ≡ fault_after last pages segments.now }
{
    match segments {
        [] => None,
        [first, rest @ ..] => {
            if is_strange(*first) {
                Some(DirectoryFault::Range)
            } else if first.0 <= last {
                Some(DirectoryFault::Order)
            } else if pages + first.1 > 1024 {
                Some(DirectoryFault::TooMany)
            } else {
                fault_behind(rest, first.0, pages + first.1)
            }
        }
    }
}

/// Whether a segment's identifier or number of pages is out of range.
fn is_strange(segment: (u16, u16)) -> bool
    ensures { result ≡ is_strange segment }
{
    !(1..=3839).contains(&segment.0) || !(1..=128).contains(&segment.1)
}

/// Whether so many segments of pages of a size may have these flags.
fn are_flags(page: PageSize, count: usize, fine: u16) -> bool
    requires { count ≤ 15 }
    ensures { result ≡ nat_lt fine (2 ^ flag_count page count) }
{
    match page {
        PageSize::Two => fine == 0,
        PageSize::Four => fine < 1 << count,
    }
}

/// Whether the segment that holds a page is fine, by the flags of these segments.
fn fine_among(segments: &[(u16, u16)], fine: u16, page: u16) -> bool
    ensures { result ≡ fine_among fine segments.now page }
{
    match segments {
        [] => false,
        [first, rest @ ..] => {
            if page < first.1 {
                fine % 2 == 1
            } else {
                fine_among(rest, fine / 2, page - first.1)
            }
        }
    }
}

/// These segments, and zeros up to fifteen.
fn filled_up(segments: &[(u16, u16)]) -> [(u16, u16); MOST_SEGMENTS]
    requires { length segments.now ≤ 15 }
    ensures { result ≡ segments.now ++ drop (length segments.now) (replicate 15 (0, 0)) }
{
    let mut filled = [(0, 0); MOST_SEGMENTS];
    let (front, _) = filled.split_at_mut(segments.len());
    front.copy_from_slice(segments);
    filled
}

/// The bytes of the first of these segments with an identifier.
fn length_among(segments: &[(u16, u16)], segment: u16, page: PageSize) -> Option<u32>
    ensures { result ≡ option_map (bytes_of (page_bytes page)) (find (is_named segment) segments.now) }
{
    match first_named(segments, segment) {
        Some(found) => Some(page.pages_bytes(found.1)),
        None => None,
    }
}

/// The first of these segments with an identifier.
fn first_named(segments: &[(u16, u16)], segment: u16) -> Option<(u16, u16)>
    ensures { result ≡ find (is_named segment) segments.now }
{
    segments.iter().copied().find(|s| s.0 == segment)
}

/// The bytes of the segments before the one with an identifier.
fn start_among(segments: &[(u16, u16)], segment: u16, page: PageSize) -> u32
    requires { sum_by (bytes_of (page_bytes page)) segments.now ≤ 2 ^ 22 }
    ensures value { result ≡ sum_by (bytes_of (page_bytes page)) (take_while (λ s. not (is_named segment s)) segments.now) }
    ensures before { result ≤ sum_by (bytes_of (page_bytes page)) segments.now }
    ensures within { IfSome (find (is_named segment) segments.now) (λ s. result + bytes_of (page_bytes page) s ≤ sum_by (bytes_of (page_bytes page)) segments.now) }
{
    match segments {
        [] => 0,
        [first, rest @ ..] => {
            if first.0 == segment {
                0
            } else {
                page.pages_bytes(first.1) + start_among(rest, segment, page)
            }
        }
    }
}

/// The pages of these segments.
fn pages_among(segments: &[(u16, u16)]) -> u16
    requires { sum_by (λ segment. segment.1) segments.now ≤ 1024 }
    ensures { result ≡ sum_by (λ segment. segment.1) segments.now }
{
    segments.iter().map(|segment| segment.1).sum()
}
