// Reading the header of a store.
ghost use Rattle.std.specs.Prelude.{◌≡◌, ℕ, ◌+◌, ◌-◌, ◌*◌, ◌^◌, ◌≤◌, List, [], ◌∷◌, None};
ghost use Rattle.outside.specs.Runs.{AsksFor, ReadsTold};
ghost use Rattle.store_format.specs.Read.{AsksHeader, IsHead};
ghost use Rattle.store_format.specs.Stands.{HasHeader};
ghost use Rattle.store_format.specs.Header.{number_at, within, name_field, segments_at, segment_fields, zeros, spare_fields, page_size_of, fields, first_fault, header_of};

use crate::Header;
use byteorder::{BigEndian, ByteOrder};
use lines::{Directory, PageSize};
use outside::{Failed, Outside};
use thiserror::Error;

/// The bytes of a header.
const HEADER_BYTES: usize = 128;

/// Why no header was read.
#[derive(Debug, Clone, Copy, PartialEq, Eq, Error)]
pub enum HeaderFault {
    /// What the disk holds is no store from this byte on (docs/FORMATS.md, "Store").
    #[error("no store: byte {0}")]
    NotAStore(u64),
    /// The disk failed.
    #[error("the disk failed")]
    DiskFault,
}

/// Reads the header of the store that a disk holds, and sees that the disk holds as many bytes as it says. It asks
/// the disk alone.
///
/// # Errors
///
/// [`HeaderFault::NotAStore`] with the offset of the first field of the header that is wrong, or with the disk's
/// length where a field isn't whole or the store is cut, or with the store's length where more is held
/// (docs/FORMATS.md, "Store"). [`HeaderFault::DiskFault`] only where the disk's count of faults rose.
pub fn read_header<W: Outside>(outside: &mut W) -> Result<Header, HeaderFault>
    ensures asks { AsksHeader W.Outside outside.old outside.new result }
    ensures header { ReadsTold W.Outside outside.old HasHeader result }
{
    let (length, head) = match read_head(outside) {
        Err(Failed) => return Err(HeaderFault::DiskFault),
        Ok(read) => read,
    };
    if let Some(offset) = header_fault(&head, length) {
        return Err(HeaderFault::NotAStore(offset));
    }
    let header = header_in(&head);
    let total = header.total();
    if length == total {
        Ok(header)
    } else {
        Err(HeaderFault::NotAStore(length.min(total)))
    }
}

/// The number of bytes held, and the first 128 of them, with zeros where there are fewer.
fn read_head<W: Outside>(outside: &mut W) -> Result<(u64, [u8; HEADER_BYTES]), Failed>
    ensures { AsksFor W.Outside IsHead outside.old outside.new result }
{
    let mut head = [0; HEADER_BYTES];
    let length = outside.length()?;
    let whole = length.min(128) as usize;
    let (front, _) = head.split_at_mut(whole);
    outside.read_at(0, front)?;
    Ok((length, head))
}

/// The first fault of the fields of a header, of a disk with so many bytes.
fn header_fault(head: &[u8; HEADER_BYTES], length: u64) -> Option<u64>
    ensures { result ≡ first_fault length (fields head.now) }
{
    let version = half_at(head, 8);
    let segments = half_at(head, 10);
    let listed = segments.min(15);
    name_fault(head, length)
        .or(number_fault(length, 8, 2, version.into(), 1, 2))
        .or(number_fault(length, 10, 2, segments.into(), 1, 15))
        .or(number_fault(length, 12, 4, bank_bytes_in(head), 4096, 131_072))
        .or(segments_fault(head, length, listed))
        .or(spare_fault(head, length, page_of(version), listed))
}

/// The first fault after so many entries: in the unused ones, the flags, and the zeros.
fn spare_fault(head: &[u8; HEADER_BYTES], length: u64, page: PageSize, listed: u16) -> Option<u64>
    requires { listed ≤ 15 }
    ensures { result ≡ first_fault length (spare_fields page head.now listed) }
{
    let from = 16 + 4 * usize::from(listed);
    match page {
        PageSize::Two => zeros_fault(head, length, from, HEADER_BYTES),
        PageSize::Four => zeros_fault(head, length, from, 76)
            .or(flags_fault(head, length, listed))
            .or(zeros_fault(head, length, 78, HEADER_BYTES)),
    }
}

/// The fault of the flags of so many segments.
#[tactic(auto, using(std::proofs::lemmas::Grind::common_steps))]
fn flags_fault(head: &[u8; HEADER_BYTES], length: u64, listed: u16) -> Option<u64>
    requires { listed ≤ 15 }
    ensures { result ≡ first_fault length (within 76 2 (number_at head.now 76 2) 0 (2 ^ listed - 1) ∷ []) }
{
    let most = (1u32 << listed) - 1;
    number_fault(length, 76, 2, half_at(head, 76).into(), 0, most)
}

/// The size of the pages of a version.
fn page_of(version: u16) -> PageSize
    ensures { result ≡ page_size_of version }
{
    if version == 2 {
        PageSize::Four
    } else {
        PageSize::Two
    }
}

/// The fault of the name that a store begins with.
fn name_fault(head: &[u8; HEADER_BYTES], length: u64) -> Option<u64>
    ensures { result ≡ first_fault length (name_field head.now ∷ []) }
{
    if length < 8 {
        Some(length)
    } else if head.starts_with(b"801STORE") {
        None
    } else {
        Some(0)
    }
}

/// The first fault of so many entries of segments: their identifiers ascend, and there are at most 1,024 pages.
fn segments_fault(head: &[u8; HEADER_BYTES], length: u64, count: u16) -> Option<u64>
    requires { count ≤ 15 }
    ensures { result ≡ first_fault length (segment_fields 16 1 1024 (segments_at head.now 16 count)) }
{
    let mut least: u16 = 1;
    let mut room: u16 = 1024;
    for i in 0..count {
        let at = 16 + 4 * usize::from(i);
        let (identifier, pages) = segment_at(head, at);
        let fault = number_fault(length, at, 2, identifier.into(), least.into(), 3839);
        if fault.is_some() {
            return fault;
        }
        let fault = number_fault(length, at + 2, 2, pages.into(), 1, room.min(128).into());
        if fault.is_some() {
            return fault;
        }
        least = identifier + 1;
        room -= pages;
    }
    None
}

/// The entry of a segment: its identifier and its pages.
fn segment_at(head: &[u8; HEADER_BYTES], at: usize) -> (u16, u16)
    requires { at + 4 ≤ 128 }
    ensures { result ≡ (number_at head.now at 2, number_at head.now (at + 2) 2) }
{
    (half_at(head, at), half_at(head, at + 2))
}

/// The number in two bytes.
#[tactic(auto, using(std::proofs::lemmas::Grind::common_steps))]
fn half_at(head: &[u8; HEADER_BYTES], at: usize) -> u16
    requires { at + 2 ≤ 128 }
    ensures { result ≡ number_at head.now at 2 }
{
    BigEndian::read_u16(&head[at..])
}

/// The bytes of a bank.
fn bank_bytes_in(head: &[u8; HEADER_BYTES]) -> u32
    ensures { result ≡ number_at head.now 12 4 }
{
    BigEndian::read_u32(&head[12..])
}

/// The first of the bytes from an offset up to another that isn't zero.
fn zeros_fault(head: &[u8; HEADER_BYTES], length: u64, from: usize, to: usize) -> Option<u64>
    requires some { from ≤ to }
    requires few { to ≤ 128 }
    ensures { result ≡ first_fault length (zeros head.now from (to - from)) }
{
    for at in from..to {
        let fault = number_fault(length, at, 1, head[at].into(), 0, 0);
        if fault.is_some() {
            return fault;
        }
    }
    None
}

/// The fault of a field with a number: the length where the field isn't whole, else its offset where the number is
/// out of these bounds.
fn number_fault(
    length: u64,
    at: usize,
    bytes: usize,
    number: u32,
    least: u32,
    most: u32,
) -> Option<u64>
    requires { at + bytes ≤ 128 }
    ensures { result ≡ first_fault length (within at bytes number least most ∷ []) }
{
    if length < (at + bytes) as u64 {
        Some(length)
    } else if least <= number && number <= most {
        None
    } else {
        Some(at as u64)
    }
}

/// The header that bytes without a fault have.
fn header_in(head: &[u8; HEADER_BYTES]) -> Header
    requires { (bytes : ℕ) × (first_fault bytes (fields head.now) ≡ None) }
    ensures { header_of head.now ≡ result }
{
    let mut segments = [(0, 0); 15];
    let count = half_at(head, 10);
    for i in 0..count {
        segments[usize::from(i)] = segment_at(head, 16 + 4 * usize::from(i));
    }
    let page = page_of(half_at(head, 8));
    let listed = &segments[..usize::from(count)];
    let directory = Directory::with_fine(page, listed, half_at(head, 76)).unwrap();
    Header::new(directory, bank_bytes_in(head))
}
