// A store of version 1 that is made one of version 2.
ghost use Rattle.std.specs.Prelude.{◌≡◌, ◌≤◌, ◌++◌, [], length, sum_by, IfOk, OnOk};
ghost use Rattle.store_calls.specs.Below.{bytes_of, flat_of, given, RoomReads, Two};
ghost use Rattle.store_calls.specs.Renewed.{GivesOne, IsOfRenew, Renewed, renew_line, renewed_image, widened_bytes, widened_segments};

use super::kept::{KeptFault, kept_image};
use super::written::{ask_empty, write_store};
use arrayvec::ArrayVec;
use call_status::{MOST_OF_STORE, Status, read_text};
use lines::{Directory, PageSize};
use outside::{Outside, Source};
use serial_audit::KeptStore;
use std::alloc::{AllocError, Global};
use store_format::Header;
use text_line::TextLine;

/// The bytes of a page of version 1.
const OLD_PAGE: usize = 2_048;

/// Makes a store of version 2 with a bank of so many bytes on an empty disk, from the store of version 1 that a source has:
/// the same number and the same bytes, each segment with half as many pages of twice the size, and zeros after its bytes
/// where it had an odd page (docs/FORMATS.md, "Words"). One line tells how many bytes it has, and its number.
pub fn renew_store<S: Source, W: Outside>(
    alloc: Global,
    bank_bytes: u32,
    source: &mut S,
    outside: &mut W,
) -> Status
    requires least { 4096 ≤ bank_bytes }
    requires most { bank_bytes ≤ 131072 }
    ensures { RoomReads S.Source W.Outside (Renewed W.Outside bank_bytes) IsOfRenew
        source.old source.new outside.old outside.new result }
{
    let old = match old_store(alloc, source) {
        Err(status) => return status,
        Ok(old) => old,
    };
    if let Err(status) = ask_empty(outside) {
        return status;
    }
    let image = match renewed_image(alloc, bank_bytes, &old) {
        Err(_) => return Status::NoMemory,
        Ok(image) => image,
    };
    let line = renew_line(image.len() as u64, old.number);
    write_store(image.as_slice(), line.as_slice(), outside)
}

/// The store of version 1 that a source has.
fn old_store<S: Source>(alloc: Global, source: &mut S) -> Result<KeptStore, Status>
    ensures { GivesOne (given S.Source source.old source.new) result }
{
    let text = read_text(alloc, source, MOST_OF_STORE)?;
    if text.starts_with(b"801STORE\x00\x02") {
        return Err(Status::Store(8));
    }
    match kept_image(alloc, text) {
        Ok(kept) => Ok(kept),
        Err(KeptFault::At(offset)) => Err(Status::Store(offset)),
        Err(KeptFault::Memory) => Err(Status::NoMemory),
    }
}

/// The image of the store of version 2 that has what this one has.
fn renewed_image(alloc: Global, bank_bytes: u32, old: &KeptStore) -> Result<Vec<u8>, AllocError>
    requires least { 4096 ≤ bank_bytes }
    requires most { bank_bytes ≤ 131072 }
    requires small { old.now.directory.page ≡ Two }
    requires whole { length old.now.store.items ≡ sum_by (bytes_of 2048) old.now.directory.segments }
    ensures { IfOk result (λ it. it.items ≡ renewed_image bank_bytes old.now.number (flat_of old.now)) }
{
    let header = Header::new(widened(&old.directory), bank_bytes);
    let mut image = header.front(alloc, old.number)?;
    add_widened(old.directory.segments(), old.store.as_slice(), &mut image)?;
    Ok(image)
}

/// The directory of these segments with pages of twice the size.
fn widened(old: &Directory) -> Directory
    ensures { result ≡ record { page = PageSize.Four; segments = widened_segments old.now.segments; fine = 0 } }
{
    let mut segments = ArrayVec::<(u16, u16), 15>::new();
    for segment in old.segments() {
        let _ = segments.try_push((segment.0, segment.1.div_ceil(2)));
    }
    match Directory::new(PageSize::Four, segments.as_slice()) {
        Ok(directory) => directory,
        Err(_) => *old,
    }
}

/// Adds the bytes of these segments, each with zeros after them up to a whole page of 4,096 bytes.
fn add_widened(segments: &[(u16, u16)], bytes: &[u8], image: &mut Vec<u8>) -> Result<(), AllocError>
    requires { length bytes.now ≡ sum_by (bytes_of 2048) segments.now }
    ensures { OnOk result (image.new.items ≡ image.old.items ++ widened_bytes segments.now bytes.now) }
{
    match segments {
        [] => Ok(()),
        [(_, pages), others @ ..] => {
            let (own, behind) = bytes.split_at(usize::from(*pages) * OLD_PAGE);
            image.extend_from_slice(own)?;
            image.resize(image.len() + usize::from(*pages % 2) * OLD_PAGE, 0)?;
            add_widened(others, behind, image)
        }
    }
}

/// The line of a renewed store of so many bytes, with this number.
fn renew_line(bytes: u64, number: u64) -> TextLine
    ensures { result ≡ renew_line bytes number }
{
    let mut line = TextLine::new();
    line.begin(b"renew");
    line.number(bytes);
    line.part(b"at", number);
    line.end();
    line
}
