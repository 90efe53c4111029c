// Bytes of a store, printed.
ghost use Rattle.std.specs.Prelude.{◌≡◌, ◌+◌, ◌%◌, ◌^◌, ◌≤◌, ◌<◌, find, length, None, MatchOption};
ghost use Rattle.store_calls.specs.Below.{byte_count, is_named, IsUsable, length_of, page_bytes, RoomEnds, start_of, total};
ghost use Rattle.store_calls.specs.Show.{CanRead, HasShown, IsInside, IsOfShow, PutsBytes, RangeShown, ReadsPart};

use call_status::Status;
use lines::Directory;
use listing::put_rows;
use outside::{Failed, Outside};
use std::alloc::Global;
use store::Durable;
use store_format::Header;

/// The most bytes that are read before they are put.
const PART: u32 = 2048;

/// The bytes of the largest page.
const LARGEST_PAGE: usize = 4096;

/// So many bytes of a segment, from an offset on: what `show` is asked for.
#[derive(Clone, Copy)]
pub struct Range {
    pub segment: u32,
    pub from: u32,
    pub count: u32,
}

/// Prints bytes of the store that the disk holds, in rows of sixteen, each by one put.
pub fn show_range<W: Outside>(alloc: Global, range: Range, outside: &mut W) -> Status
    ensures { RoomEnds W.Outside (RangeShown W.Outside range) IsOfShow outside.old outside.new result }
{
    let store = match Durable::open(alloc, outside) {
        Ok(store) => store,
        Err(fault) => return Status::from(fault),
    };
    match place_of(store.header(), &range) {
        Some(at) => match put_range(&store, at, &range, outside) {
            Ok(()) => Status::Done,
            Err(status) => status,
        },
        None => Status::NoRange,
    }
}

/// Where a range begins in the store; none where its segment is absent, or it ends past that.
fn place_of(header: &Header, range: &Range) -> Option<u32>
    ensures { MatchOption result
        (¬ (IsInside header.now.directory range.now))
        (λ at. IsInside header.now.directory range.now
        × (at ≡ start_of header.now.directory range.now.segment + range.now.from)
        × (at + range.now.count ≤ byte_count header.now.directory)
        × (at + range.now.count ≤ 2 ^ 22)) }
{
    let directory = header.directory();
    let identifier = identifier_of(directory, range.segment)?;
    let length = directory.length_of(identifier)?;
    if range.count <= length && range.from <= length - range.count {
        Some(directory.start_of(identifier) + range.from)
    } else {
        None
    }
}

/// The identifier of the segment with this number, if there is one.
fn identifier_of(directory: &Directory, segment: u32) -> Option<u16>
    ensures { MatchOption result (length_of directory.now segment ≡ None) (λ one. one ≡ segment) }
{
    match segment_in(directory.segments(), segment) {
        Some(found) => Some(found.0),
        None => None,
    }
}

/// The segment with this number.
fn segment_in(segments: &[(u16, u16)], segment: u32) -> Option<(u16, u16)>
    ensures { result ≡ find (is_named segment) segments.now }
{
    segments
        .iter()
        .copied()
        .find(|named| u32::from(named.0) == segment)
}

/// Prints the bytes of a range, which begins at this place of the store.
fn put_range<W: Outside>(
    store: &Durable,
    at: u32,
    range: &Range,
    outside: &mut W,
) -> Result<(), Status>
    requires there { CanRead W.Outside store.now at range.now.count outside.old }
    requires offsets { range.now.from ≤ at }
    ensures puts { PutsBytes W.Outside store.now at range.now.from range.now.count outside.old outside.new result }
{
    let mut done = 0;
    'parts: while done < range.count {
        let count = (range.count - done).min(PART);
        match put_part(store, at + done, range.from + done, count, outside) {
            Ok(()) => done += count,
            Err(status) => return Err(status),
        }
    }
    Ok(())
}

/// Prints at most 2,048 bytes of the store from a place on, the first of which has this offset in its segment.
fn put_part<W: Outside>(
    store: &Durable,
    at: u32,
    offset: u32,
    count: u32,
    outside: &mut W,
) -> Result<(), Status>
    requires there { CanRead W.Outside store.now at count outside.old }
    requires offsets { offset ≤ at }
    requires part { (0 < count) × (count ≤ 2048) }
    ensures puts { PutsBytes W.Outside store.now at offset count outside.old outside.new result }
    ensures read { HasShown W.Outside store.now at count outside.old outside.new result }
{
    let mut room = [0; PART as usize];
    let (bytes, _) = room.split_at_mut(count as usize);
    match read_bytes(store, at, bytes, outside) {
        Ok(()) => {}
        Err(Failed) => return Err(Status::DiskFault),
    }
    match put_rows(offset, bytes, outside) {
        Ok(()) => Ok(()),
        Err(Failed) => Err(Status::PutFault),
    }
}

/// Reads at most 2,048 bytes of the store from a place on, which lie in one page or in two.
fn read_bytes<W: Outside>(
    store: &Durable,
    at: u32,
    into: &mut [u8],
    outside: &mut W,
) -> Result<(), Failed>
    requires there { CanRead W.Outside store.now at (length into.old) outside.old }
    requires part { (0 < length into.old) × (length into.old ≤ 2048) }
    ensures { ReadsPart W.Outside store.now at into.old into.new outside.old outside.new result }
{
    let size = u32::from(store.header().directory().page().bytes());
    let here = into.len().min((size - at % size) as usize);
    let (front, back) = into.split_at_mut(here);
    read_in_page(store, at, front, outside)?;
    if back.is_empty() {
        return Ok(());
    }
    read_in_page(store, at + here as u32, back, outside)
}

/// Reads bytes of the store from a place on, which lie in one page.
///
/// # Errors
///
/// Only where the disk failed.
fn read_in_page<W: Outside>(
    store: &Durable,
    at: u32,
    into: &mut [u8],
    outside: &mut W,
) -> Result<(), Failed>
    requires store { IsUsable W.Outside (total store.now.header) store.now.bank outside.old }
    requires within { at < byte_count store.now.header.directory }
    requires inside { at % page_bytes store.now.header.directory.page + length into.old ≤ page_bytes store.now.header.directory.page }
    ensures { ReadsPart W.Outside store.now at into.old into.new outside.old outside.new result }
{
    let directory = store.header().directory();
    let size = directory.page().bytes();
    let mut room = [0; LARGEST_PAGE];
    let (page, _) = room.split_at_mut(usize::from(size));
    store.read_page(outside, directory.page_of(at), page)?;
    let behind = (at % u32::from(size)) as usize;
    into.copy_from_slice(&page[behind..behind + into.len()]);
    Ok(())
}
