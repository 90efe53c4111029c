// The store that bytes in memory are.
ghost use Rattle.store_calls.specs.declared.kept.KeptFault.TheVariants.{Memory};
ghost use Rattle.std.specs.Prelude.{◌≡◌, IsSome, IfOk, IfErr, MatchResult};
ghost use Rattle.store_calls.specs.Below.{byte_count, held_of, IsShown, IsUsable, stands, total};
ghost use Rattle.store_calls.specs.Bundled.{IsWhyNone, StandsForKept, kept_fault};
ghost use Rattle.store_calls.specs.Show.{bytes_standing};

use outside::{Failed, Joint, MemoryDisk, MemoryScreen, Outside};
use serial_audit::KeptStore;
use std::alloc::{AllocError, Global};
use store::{Durable, OpenFault};

/// The bytes of the largest page.
const LARGEST_PAGE: usize = 4096;

/// Why bytes are no store.
#[derive(Clone, Copy)]
pub enum KeptFault {
    /// They stand for nothing, from this offset on.
    At(u64),
    /// There is no memory.
    Memory,
}

impl From<AllocError> for KeptFault {
    ghost from_gives = { λ _ fault. fault ≡ Memory };

    fn from(_error: AllocError) -> Self {
        KeptFault::Memory
    }
}

impl From<Failed> for KeptFault {
    ghost from_gives = { λ _ fault. fault ≡ Memory };

    /// A disk in memory that refuses nothing fails only where there is no memory.
    fn from(_failed: Failed) -> Self {
        KeptFault::Memory
    }
}

impl From<OpenFault> for KeptFault {
    ghost from_gives = { λ opened fault. fault ≡ kept_fault opened };

    fn from(fault: OpenFault) -> Self {
        match fault {
            OpenFault::NotAStore(offset) | OpenFault::Damaged(offset) => KeptFault::At(offset),
            OpenFault::DiskFault | OpenFault::Memory => KeptFault::Memory,
        }
    }
}

/// The store that these bytes stand for (docs/FORMATS.md, "Store").
///
/// # Errors
///
/// As [`KeptFault`] says; it tells an offset exactly where the bytes stand for nothing.
pub fn kept_store(alloc: Global, bytes: &[u8]) -> Result<KeptStore, KeptFault>
    ensures { MatchResult result (StandsForKept bytes.now) (IsWhyNone bytes.now) }
{
    kept_image(alloc, Vec::from_slice(alloc, bytes)?)
}

/// The same of bytes that are handed in, which no second copy is made of.
///
/// # Errors
///
/// As [`KeptFault`] says; it tells an offset exactly where the bytes stand for nothing.
pub fn kept_image(alloc: Global, image: Vec<u8>) -> Result<KeptStore, KeptFault>
    ensures { MatchResult result (StandsForKept image.items) (IsWhyNone image.items) }
{
    let disk = MemoryDisk::new(alloc, image, Vec::new(alloc));
    let mut outside = Joint::new(disk, MemoryScreen::new(alloc, Vec::new(alloc)));
    read_store(alloc, &mut outside)
}

/// The store that a disk holds, whole.
fn read_store<W: Outside>(alloc: Global, outside: &mut W) -> Result<KeptStore, KeptFault>
    ensures { IsSome (W.held outside.old) → MatchResult result (StandsForKept (held_of W.Outside outside.old)) (IsWhyNone (held_of W.Outside outside.old)) }
{
    let durable = Durable::open(alloc, outside)?;
    Ok(KeptStore {
        directory: *durable.header().directory(),
        number: durable.number(),
        store: all_bytes(alloc, &durable, outside)?,
    })
}

/// All bytes of a store, page by page.
fn all_bytes<W: Outside>(
    alloc: Global,
    store: &Durable,
    outside: &mut W,
) -> Result<Vec<u8>, KeptFault>
    requires { IsUsable W.Outside (total store.now.header) store.now.bank outside.old }
    ensures read { IfOk result (λ bytes. IsShown W.Outside store.now outside.old → bytes.items ≡ bytes_standing (stands (held_of W.Outside outside.old)) 0 (byte_count store.now.header.directory)) }
    ensures memory { IfErr result (λ fault. fault ≡ KeptFault.Memory) }
{
    let directory = store.header().directory();
    let mut bytes = Vec::with_capacity(alloc, directory.byte_count() as usize)?;
    let mut room = [0; LARGEST_PAGE];
    let (page, _) = room.split_at_mut(usize::from(directory.page().bytes()));
    for number in 0..directory.pages() {
        store.read_page(outside, number, page)?;
        bytes.extend_from_slice(page)?;
    }
    Ok(bytes)
}
