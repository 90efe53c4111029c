// The pages of an open store, as the storage unit reads them.
ghost use Rattle.std.specs.Prelude.{◌≡◌, ◌<◌, false};
ghost use Rattle.activations.specs.Below.{held_of, HoldsAtLeast, IsShown, OnlyAsks, page_count, page_in, Rose, stands, total};
ghost use Rattle.lines.specs.Segments.{page_bytes};

use outside::{Failed, Outside};
use storage_unit::Pages;
use store::Durable;

/// An open store, whose pages are read by calls that only ask the disk.
#[derive(Drop)]
pub(super) struct StorePages<'a> {
    pub(super) store: &'a Durable,
}

impl<'a, W: Outside> Pages<W> for StorePages<'a> {
    type Failed = Failed;

    ghost can_read = { λ pages outside page bytes. (pages.store.now.bank.spoiled ≡ false) × HoldsAtLeast W.Outside (total pages.store.now.header) outside × (page < page_count pages.store.now.header.directory) × (bytes ≡ page_bytes pages.store.now.header.directory.page) };

    ghost read = { λ pages before page bytes after. OnlyAsks W.Outside before after × (W.disk_faults after ≡ W.disk_faults before) × (IsShown W.Outside pages.store.now before → bytes ≡ page_in (stands (held_of W.Outside before)) page) };

    ghost unread = { λ before after. OnlyAsks W.Outside before after × Rose (W.disk_faults before) (W.disk_faults after) };

    fn read_page(&self, outside: &mut W, page: u16, into: &mut [u8]) -> Result<(), Failed> {
        self.store.read_page(outside, page, into)
    }
}
